//! Calls of the objects of an array, each made through a pass.
ghost use Rattle.std.specs.Prelude.{◌≡◌, ◌-◌, ◌^◌, ◌<◌, ◌≤◌, length, IfOk};
ghost use Rattle.vme_port.specs.Calls.{UnlessBusy, IfBusy, IfSpent};
ghost use Rattle.vme_port_array.specs.Parts.{part};
ghost use Rattle.vme_port_array.specs.Arrays.{IsPassOf, opening, passes_of, objects_of};
ghost use Rattle.vme_port_array.specs.Calls.{entries_of, Adds, HasCount};

use crate::pass::Pass;
use crate::port_array::PortArray;
use crate::rule::MarkStep;
use crate::seats::STRIDE;
use crate::waking::{NoWaiter, OneWaiter, Waking};
use crossbeam_utils::Backoff;
use std::marker::Brand;
use std::sync::Wait;
use vme_object::{CommandRef, Object, Operation};
use vme_port::{FREE, Spent, TAKEN, Taking, TryFault, WANTED};

/// The number of tries that a call makes before it parks.
const TRIES: u32 = 10;

impl<O: Object> PortArray<O> {
    /// Makes one try: takes the object at an index, performs the operation on it, and puts it back.
    ///
    /// # Errors
    /// `Busy` if another pass holds the object, and `Spent` if the object's part of the history has
    /// 2^64 - 1 entries. Neither adds an entry.
    #[inline(always)]
    fn attempt<A: Operation<O>, K: Waking<O>>(
        &self,
        pass: &mut Pass<O>,
        index: usize,
        asked: &A,
        taking: Taking,
    ) -> Result<O::Reply, TryFault>
        requires array { IsPassOf self.now pass.old }
        requires index { index < objects_of self.now }
        ensures pass { IsPassOf self.now pass.new }
        ensures adds { UnlessBusy result
            (Adds O.step (opening self.now)
            (entries_of pass.old.who index (A.command asked.now) result) pass.old pass.new) }
        ensures busy { IfBusy result (pass.new ≡ pass.old) }
        ensures shared { IfBusy result (2 ≤ passes_of self.now) }
        ensures full { IfSpent result (length (part index pass.new.seen) ≡ 2 ^ 64 - 1) }
        ensures counted { IfOk result (λ _. length (part index pass.new.seen) < 2 ^ 64) }
    {
        if !self.take::<Brand>(&mut pass.seat, index, taking) {
            return Err(TryFault::Busy);
        }
        let Some(reply) = self.perform_counted(&mut pass.seat, index, asked) else {
            self.put_unchanged::<Brand, K>(&mut pass.seat, index);
            return Err(TryFault::Spent);
        };
        self.put_entry::<A, Brand, Brand, K>(&mut pass.seat, pass.who, index, asked, &reply);
        Ok(reply)
    }

    /// Performs one command on the object at an index if no other pass holds it, and returns the
    /// reply. It never waits.
    ///
    /// # Errors
    /// `Busy` if another pass holds the object, and `Spent` if the object's part of the history has
    /// 2^64 - 1 entries. Neither adds an entry.
    pub fn try_call(
        &self,
        pass: &mut Pass<O>,
        index: usize,
        cmd: &O::Cmd,
    ) -> Result<O::Reply, TryFault>
        requires array { IsPassOf self.now pass.old }
        requires index { index < objects_of self.now }
        ensures pass { IsPassOf self.now pass.new }
        ensures adds { UnlessBusy result
            (Adds O.step (opening self.now)
            (entries_of pass.old.who index cmd.now result) pass.old pass.new) }
        ensures busy { IfBusy result (pass.new ≡ pass.old) }
        ensures shared { IfBusy result (2 ≤ passes_of self.now) }
        ensures full { IfSpent result (length (part index pass.new.seen) ≡ 2 ^ 64 - 1) }
        ensures counted { IfOk result (λ _. length (part index pass.new.seen) < 2 ^ 64) }
    {
        self.attempt::<_, OneWaiter>(pass, index, &CommandRef { cmd }, Taking::Alone)
    }

    /// Performs one operation on the object at an index if no other pass holds it, and returns the
    /// reply. The new entry has the command that the operation stands for (`A.command`). It never
    /// waits.
    ///
    /// # Errors
    /// `Busy` if another pass holds the object, and `Spent` if the object's part of the history has
    /// 2^64 - 1 entries. Neither adds an entry.
    #[inline(always)]
    pub fn try_operation<A: Operation<O>>(
        &self,
        pass: &mut Pass<O>,
        index: usize,
        asked: &A,
    ) -> Result<O::Reply, TryFault>
        requires array { IsPassOf self.now pass.old }
        requires index { index < objects_of self.now }
        ensures pass { IsPassOf self.now pass.new }
        ensures adds { UnlessBusy result
            (Adds O.step (opening self.now)
            (entries_of pass.old.who index (A.command asked.now) result) pass.old pass.new) }
        ensures busy { IfBusy result (pass.new ≡ pass.old) }
        ensures shared { IfBusy result (2 ≤ passes_of self.now) }
        ensures full { IfSpent result (length (part index pass.new.seen) ≡ 2 ^ 64 - 1) }
        ensures counted { IfOk result (λ _. length (part index pass.new.seen) < 2 ^ 64) }
    {
        self.attempt::<A, OneWaiter>(pass, index, asked, Taking::Alone)
    }

    /// Performs one operation on the object at an index if no other pass holds it, and returns the
    /// reply. It never waits, and wakes no call: all calls of the array must be of this kind, or a
    /// call that waits may sleep for ever.
    ///
    /// # Errors
    /// `Busy` if another pass holds the object, and `Spent` if the object's part of the history has
    /// 2^64 - 1 entries. Neither adds an entry.
    pub fn try_quietly<A: Operation<O>>(
        &self,
        pass: &mut Pass<O>,
        index: usize,
        asked: &A,
    ) -> Result<O::Reply, TryFault>
        requires array { IsPassOf self.now pass.old }
        requires index { index < objects_of self.now }
        ensures pass { IsPassOf self.now pass.new }
        ensures adds { UnlessBusy result
            (Adds O.step (opening self.now)
            (entries_of pass.old.who index (A.command asked.now) result) pass.old pass.new) }
        ensures busy { IfBusy result (pass.new ≡ pass.old) }
        ensures shared { IfBusy result (2 ≤ passes_of self.now) }
        ensures full { IfSpent result (length (part index pass.new.seen) ≡ 2 ^ 64 - 1) }
        ensures counted { IfOk result (λ _. length (part index pass.new.seen) < 2 ^ 64) }
    {
        self.attempt::<A, NoWaiter>(pass, index, asked, Taking::Alone)
    }

    /// Marks the word of the object at an index as wanted if it is `TAKEN`, and returns its value
    /// before.
    fn mark(&self, pass: &mut Pass<O>, index: usize) -> u64
        requires array { IsPassOf self.now pass.old }
        requires index { index < objects_of self.now }
        ensures { pass.new ≡ pass.old }
    {
        self.table
            .shared
            .compare_exchange::<MarkStep>(&mut pass.seat, index * STRIDE, TAKEN, WANTED)
    }

    /// Performs one command on the object at an index as soon as no other pass holds it, and
    /// returns the reply. It tries ten times, with growing pauses. Then, before each further try,
    /// it parks until the object may be free.
    ///
    /// # Errors
    /// `Spent` if the object's part of the history has 2^64 - 1 entries. No entry is added.
    pub fn call<R: Wait>(
        &self,
        rt: &R,
        pass: &mut Pass<O>,
        index: usize,
        cmd: &O::Cmd,
    ) -> Result<O::Reply, Spent>
        requires array { IsPassOf self.now pass.old }
        requires index { index < objects_of self.now }
        ensures adds { Adds O.step (opening self.now)
            (entries_of pass.old.who index cmd.now result) pass.old pass.new }
        ensures counted { HasCount result (length (part index pass.new.seen)) }
    {
        self.call_operation(rt, pass, index, &CommandRef { cmd })
    }

    /// Performs one operation on the object at an index as soon as no other pass holds it, and
    /// returns the reply. The new entry has the command that the operation stands for
    /// (`A.command`). It tries ten times, with growing pauses. Then, before each further try, it
    /// parks until the object may be free.
    ///
    /// # Errors
    /// `Spent` if the object's part of the history has 2^64 - 1 entries. No entry is added.
    #[inline(always)]
    pub fn call_operation<R: Wait, A: Operation<O>>(
        &self,
        rt: &R,
        pass: &mut Pass<O>,
        index: usize,
        asked: &A,
    ) -> Result<O::Reply, Spent>
        requires array { IsPassOf self.now pass.old }
        requires index { index < objects_of self.now }
        ensures adds { Adds O.step (opening self.now)
            (entries_of pass.old.who index (A.command asked.now) result) pass.old pass.new }
        ensures counted { HasCount result (length (part index pass.new.seen)) }
    {
        match self.attempt::<A, OneWaiter>(pass, index, asked, Taking::Alone) {
            Ok(reply) => Ok(reply),
            Err(TryFault::Spent) => Err(Spent),
            Err(TryFault::Busy) => self.call_again(rt, index, asked, pass),
        }
    }

    /// Makes the remaining tries, each after a longer pause. Then it parks until the object may be
    /// free and tries, until a try is not `Busy`. A try that takes the object after parking marks
    /// its word as wanted, so that its put wakes the next waiting call.
    ///
    /// # Errors
    /// `Spent` if the object's part of the history has 2^64 - 1 entries. No entry is added.
    #[cold]
    #[inline(never)]
    fn call_again<R: Wait, A: Operation<O>>(
        &self,
        rt: &R,
        index: usize,
        asked: &A,
        pass: &mut Pass<O>,
    ) -> Result<O::Reply, Spent>
        requires array { IsPassOf self.now pass.old }
        requires index { index < objects_of self.now }
        ensures adds { Adds O.step (opening self.now)
            (entries_of pass.old.who index (A.command asked.now) result) pass.old pass.new }
        ensures counted { HasCount result (length (part index pass.new.seen)) }
    {
        let backoff = Backoff::new();
        backoff.snooze();
        for _ in 1..TRIES {
            match self.attempt::<A, OneWaiter>(pass, index, asked, Taking::Alone) {
                Ok(reply) => return Ok(reply),
                Err(TryFault::Spent) => return Err(Spent),
                Err(TryFault::Busy) => backoff.snooze(),
            }
        }
        for _ in rt.forever() {
            if self.mark(pass, index) != FREE {
                self.table.shared.park(rt, index * STRIDE, WANTED as u32);
            }
            match self.attempt::<A, OneWaiter>(pass, index, asked, Taking::Wanted) {
                Ok(reply) => return Ok(reply),
                Err(TryFault::Spent) => return Err(Spent),
                Err(TryFault::Busy) => {}
            }
        }
        unreachable!()
    }
}
