//! The steps of a call on its seat: it takes the object, performs a command on it, and puts it
//! back.
ghost use Rattle.std.specs.Prelude.{◌≡◌, ◌<◌, ◌∷◌, [], MatchOption};
ghost use Rattle.vme_port.specs.Steps.{IsIdle, IsOut, IsFull, HasPerformed, HasTried, MayPut, HasPut};
ghost use Rattle.vme_object.specs.History.{entry};
ghost use Rattle.vme_port.specs.Ports.{port_id, opening, passes_of};

use crate::home::Home;
use crate::port::Port;
use crate::rule::{EntryWitness, OpeningWitness, PutStep, SeatView, TakeStep};
use crate::word::{FREE, Taking, WANTED};
use atomic_table::Seat;
use std::marker::Brand;
use vme_object::{Object, Operation, next_count};

impl<O: Object> Port<O> {
    /// Takes the object if it is in its slot, and returns whether it did.
    pub(crate) fn take<W: OpeningWitness<O>>(
        &self,
        seat: &mut Seat<Home<O>, SeatView<O::Cmd, O::Reply>>,
        taking: Taking,
    ) -> bool
        requires port { seat.old.table_id ≡ port_id self.now }
        requires idle { IsIdle seat.old.me }
        requires opened { W.opened (opening self.now) (passes_of self.now) }
        ensures port { seat.new.table_id ≡ seat.old.table_id }
        ensures outcome { HasTried O.step W.opened seat.old.me result seat.new.me }
    {
        self.table
            .shared
            .compare_exchange::<TakeStep<O, W>>(seat, 0, FREE, taking.word())
            == FREE
    }

    /// Performs a command on the object that the seat holds, and returns the reply. If the history
    /// has 2^64 - 1 entries, it returns `None` and changes nothing.
    pub(crate) fn perform_counted<A: Operation<O>>(
        &self,
        seat: &mut Seat<Home<O>, SeatView<O::Cmd, O::Reply>>,
        asked: &A,
    ) -> Option<O::Reply>
        requires port { seat.old.table_id ≡ port_id self.now }
        requires out { IsOut 0 seat.old.me }
        ensures port { seat.new.table_id ≡ seat.old.table_id }
        ensures done { MatchOption result (IsFull 0 seat.old.me seat.new.me) (λ r. HasPerformed 0 O.step (A.command asked.now) r seat.old.me seat.new.me) }
    {
        let home = seat.slot_mut(&self.table.shared, 0);
        let Some(count) = next_count(home.count) else {
            return None;
        };
        home.count = count;
        Some(asked.perform(&mut home.object))
    }

    /// Puts the object back, with these entries appended to its history. If the port is marked as
    /// wanted, it wakes one waiting call.
    pub(crate) fn put_entries<W: EntryWitness<O::Cmd, O::Reply>>(
        &self,
        seat: &mut Seat<Home<O>, SeatView<O::Cmd, O::Reply>>,
    )
        requires port { seat.old.table_id ≡ port_id self.now }
        requires out { MayPut O.step (opening self.now) W.entries seat.old.me }
        ensures port { seat.new.table_id ≡ seat.old.table_id }
        ensures outcome { HasPut W.entries seat.old.me seat.new.me }
    {
        if self.table.shared.swap::<PutStep<O, W>>(seat, 0, FREE) == WANTED {
            self.wake();
        }
    }

    /// Wakes one waiting call.
    fn wake(&self) {
        self.table.shared.wake_one(0);
    }

    /// Puts the object back unchanged, because its history is full.
    pub(crate) fn put_unchanged(&self, seat: &mut Seat<Home<O>, SeatView<O::Cmd, O::Reply>>)
        requires port { seat.old.table_id ≡ port_id self.now }
        requires out { MayPut O.step (opening self.now) [] seat.old.me }
        ensures port { seat.new.table_id ≡ seat.old.table_id }
        ensures outcome { HasPut [] seat.old.me seat.new.me }
    {
        self.put_entries::<Brand>(seat);
    }

    /// Puts the object back with one entry. The entry is a parameter so that the proof of the call
    /// can choose it.
    pub(crate) fn put_entry<A: Operation<O>, W: EntryWitness<O::Cmd, O::Reply>>(
        &self,
        seat: &mut Seat<Home<O>, SeatView<O::Cmd, O::Reply>>,
        who: usize,
        asked: &A,
        reply: &O::Reply,
    )
        requires port { seat.old.table_id ≡ port_id self.now }
        requires outcome { W.entries ≡ entry who (A.command asked.now) reply.now ∷ [] }
        requires out { MayPut O.step (opening self.now) (entry who (A.command asked.now) reply.now ∷ []) seat.old.me }
        ensures port { seat.new.table_id ≡ seat.old.table_id }
        ensures outcome { HasPut (entry who (A.command asked.now) reply.now ∷ []) seat.old.me seat.new.me }
    {
        self.put_entries::<W>(seat);
    }
}
