//! The steps of a call on its seat: it takes the object at an index, performs a command on it, and
//! puts it back.
ghost use Rattle.std.specs.Prelude.{◌≡◌, ◌<◌, ◌∷◌, [], MatchOption};
ghost use Rattle.vme_object.specs.History.{entry};
ghost use Rattle.vme_port.specs.Steps.{IsOut, IsFull, HasPerformed};
ghost use Rattle.vme_port_array.specs.Steps.{IsIdle, HasTried, MayPut, HasPut};
ghost use Rattle.vme_port_array.specs.Parts.{indexed};
ghost use Rattle.vme_port_array.specs.Arrays.{array_id, opening, passes_of, objects_of};

use crate::indexed::Indexed;
use crate::port_array::PortArray;
use crate::rule::{ArrayView, EntryWitness, OpeningWitness, PutStep, TakeStep};
use crate::waking::Waking;
use atomic_table::Seat;
use std::marker::Brand;
use vme_object::{Object, Operation, next_count};
use vme_port::{FREE, Home, Taking, WANTED};

/// The distance between the words of two neighbouring objects, in words of 8 bytes: two cache lines of
/// 64 bytes. 120 unused bytes follow the last word. A processor fetches not only the line that it
/// uses, but also some of those that follow it.
pub(crate) const STRIDE: usize = 16;

impl<O: Object> PortArray<O> {
    /// Takes the object at an index if it is in its slot, and returns whether it took it.
    pub(crate) fn take<W: OpeningWitness<O>>(
        &self,
        seat: &mut Seat<Home<O>, ArrayView<Indexed<O::Cmd>, O::Reply>>,
        index: usize,
        taking: Taking,
    ) -> bool
        requires array { seat.old.table_id ≡ array_id self.now }
        requires index { index < objects_of self.now }
        requires idle { IsIdle seat.old.me }
        requires opened { W.opened (opening self.now) (passes_of self.now) }
        ensures array { seat.new.table_id ≡ seat.old.table_id }
        ensures outcome { HasTried O.step W.opened index seat.old.me result seat.new.me }
    {
        self.table
            .shared
            .compare_exchange::<TakeStep<O, W>>(seat, index * STRIDE, FREE, taking.word())
            == FREE
    }

    /// Performs a command on the object that the seat holds, and returns the reply. If the object's
    /// part of the history has 2^64 - 1 entries, it returns `None` and changes nothing.
    #[inline(always)]
    pub(crate) fn perform_counted<A: Operation<O>>(
        &self,
        seat: &mut Seat<Home<O>, ArrayView<Indexed<O::Cmd>, O::Reply>>,
        index: usize,
        asked: &A,
    ) -> Option<O::Reply>
        requires array { seat.old.table_id ≡ array_id self.now }
        requires out { IsOut index seat.old.me }
        ensures array { seat.new.table_id ≡ seat.old.table_id }
        ensures done { MatchOption result (IsFull index seat.old.me seat.new.me)
            (λ r. HasPerformed index O.step (A.command asked.now) r seat.old.me seat.new.me) }
    {
        let home = seat.slot_mut(&self.table.shared, index);
        let Some(count) = next_count(home.count) else {
            return None;
        };
        home.count = count;
        Some(asked.perform(&mut home.object))
    }

    /// Puts the object at an index back, with the entries `E.entries` appended to the history. If
    /// the object is marked as wanted, it wakes one call that waits for the object.
    pub(crate) fn put_entries<
        W: OpeningWitness<O>,
        E: EntryWitness<O::Cmd, O::Reply>,
        K: Waking<O>,
    >(&self, seat: &mut Seat<Home<O>, ArrayView<Indexed<O::Cmd>, O::Reply>>, index: usize)
        requires array { seat.old.table_id ≡ array_id self.now }
        requires index { index < objects_of self.now }
        requires opened { W.opened (opening self.now) (passes_of self.now) }
        requires out { MayPut O.step (opening self.now) index E.entries seat.old.me }
        ensures array { seat.new.table_id ≡ seat.old.table_id }
        ensures outcome { HasPut O.step W.opened index E.entries seat.old.me seat.new.me }
    {
        if self
            .table
            .shared
            .swap::<PutStep<O, W, E>>(seat, index * STRIDE, FREE)
            == WANTED
        {
            K::wake(self, index);
        }
    }

    /// Puts the object back unchanged, because its part of the history is full.
    #[cold]
    #[inline(never)]
    pub(crate) fn put_unchanged<W: OpeningWitness<O>, K: Waking<O>>(
        &self,
        seat: &mut Seat<Home<O>, ArrayView<Indexed<O::Cmd>, O::Reply>>,
        index: usize,
    )
        requires opened { W.opened (opening self.now) (passes_of self.now) }
        requires array { seat.old.table_id ≡ array_id self.now }
        requires index { index < objects_of self.now }
        requires out { MayPut O.step (opening self.now) index [] seat.old.me }
        ensures array { seat.new.table_id ≡ seat.old.table_id }
        ensures outcome { HasPut O.step W.opened index [] seat.old.me seat.new.me }
    {
        self.put_entries::<W, Brand, K>(seat, index);
    }

    /// Puts the object back with one entry. It uses `who`, `asked` and `reply` in its contract
    /// alone, which names the entry by them.
    pub(crate) fn put_entry<
        A: Operation<O>,
        W: OpeningWitness<O>,
        E: EntryWitness<O::Cmd, O::Reply>,
        K: Waking<O>,
    >(
        &self,
        seat: &mut Seat<Home<O>, ArrayView<Indexed<O::Cmd>, O::Reply>>,
        who: usize,
        index: usize,
        asked: &A,
        reply: &O::Reply,
    )
        requires array { seat.old.table_id ≡ array_id self.now }
        requires index { index < objects_of self.now }
        requires opened { W.opened (opening self.now) (passes_of self.now) }
        requires entry { E.entries
            ≡ entry who (indexed index (A.command asked.now)) reply.now ∷ [] }
        requires out { MayPut O.step (opening self.now) index
            (entry who (indexed index (A.command asked.now)) reply.now ∷ []) seat.old.me }
        ensures array { seat.new.table_id ≡ seat.old.table_id }
        ensures outcome { HasPut O.step W.opened index
            (entry who (indexed index (A.command asked.now)) reply.now ∷ []) seat.old.me
            seat.new.me }
    {
        self.put_entries::<W, E, K>(seat, index);
    }
}
