//! Calls of a port, each made through a pass.
ghost use Rattle.std.specs.Prelude.{◌≡◌, ◌-◌, ◌^◌, ◌≤◌, length, IfErr};
ghost use Rattle.vme_port.specs.Ports.{IsPassOf, opening, passes_of};
ghost use Rattle.vme_port.specs.Calls.{entries_of, Adds, UnlessBusy, IfBusy, IfSpent};

use crate::fault::{Spent, TryFault};
use crate::pass::Pass;
use crate::port::Port;
use crate::rule::MarkStep;
use crate::word::{FREE, TAKEN, Taking, WANTED};
use crossbeam_utils::Backoff;
use std::marker::Brand;
use std::sync::Wait;
use vme_object::{CommandRef, Object, Operation};

/// The number of tries that a call makes before it parks.
const TRIES: u32 = 10;

impl<O: Object> Port<O> {
    /// Makes one try: takes the object, performs the command on it, and puts it back.
    fn attempt<A: Operation<O>>(
        &self,
        pass: &mut Pass<O>,
        asked: &A,
        taking: Taking,
    ) -> Result<O::Reply, TryFault>
        requires { IsPassOf self.now pass.old }
        ensures pass { IsPassOf self.now pass.new }
        ensures adds { UnlessBusy result
            (Adds O.step (opening self.now) (entries_of pass.old.who (A.command asked.now) result) pass.old pass.new) }
        ensures busy { IfBusy result (pass.new ≡ pass.old) }
        ensures shared { IfBusy result (2 ≤ passes_of self.now) }
        ensures full { IfSpent result (length pass.new.seen ≡ 2 ^ 64 - 1) }
    {
        if !self.take::<Brand>(&mut pass.seat, taking) {
            return Err(TryFault::Busy);
        }
        let Some(reply) = self.perform_counted(&mut pass.seat, asked) else {
            self.put_unchanged(&mut pass.seat);
            return Err(TryFault::Spent);
        };
        pass.made += 1;
        self.put_entry::<A, Brand>(&mut pass.seat, pass.who, asked, &reply);
        Ok(reply)
    }

    /// Performs one command on the object if no other pass holds it, and returns the reply. It
    /// never waits.
    ///
    /// # Errors
    /// `Busy` if another pass holds the object, and `Spent` if the history has 2^64 - 1 entries.
    /// Neither adds an entry.
    pub fn try_call(&self, pass: &mut Pass<O>, cmd: &O::Cmd) -> Result<O::Reply, TryFault>
        requires { IsPassOf self.now pass.old }
        ensures pass { IsPassOf self.now pass.new }
        ensures adds { UnlessBusy result
            (Adds O.step (opening self.now) (entries_of pass.old.who cmd.now result) pass.old pass.new) }
        ensures busy { IfBusy result (pass.new ≡ pass.old) }
        ensures shared { IfBusy result (2 ≤ passes_of self.now) }
        ensures full { IfSpent result (length pass.new.seen ≡ 2 ^ 64 - 1) }
    {
        self.attempt(pass, &CommandRef { cmd }, Taking::Alone)
    }

    /// Parks until the object may be free and then tries, until a try is not `Busy`. A try that
    /// takes the object marks the port as wanted, so that its put wakes the next waiting call.
    fn call_parked<R: Wait, A: Operation<O>>(
        &self,
        rt: &R,
        pass: &mut Pass<O>,
        asked: &A,
    ) -> Result<O::Reply, Spent>
        requires { IsPassOf self.now pass.old }
        ensures adds { Adds O.step (opening self.now) (entries_of pass.old.who (A.command asked.now) result) pass.old pass.new }
        ensures full { IfErr result (λ _. length pass.new.seen ≡ 2 ^ 64 - 1) }
    {
        for _ in rt.forever() {
            if self.mark(pass) != FREE {
                self.table.shared.park(rt, 0, WANTED as u32);
            }
            match self.attempt(pass, asked, Taking::Wanted) {
                Ok(reply) => return Ok(reply),
                Err(TryFault::Spent) => return Err(Spent),
                Err(TryFault::Busy) => {}
            }
        }
        unreachable!()
    }

    /// Marks the port as wanted if the object is taken, and returns the value of the word before.
    fn mark(&self, pass: &mut Pass<O>) -> u64
        requires { IsPassOf self.now pass.old }
        ensures { pass.new ≡ pass.old }
    {
        self.table
            .shared
            .compare_exchange::<MarkStep>(&mut pass.seat, 0, TAKEN, WANTED)
    }

    /// Performs one command on the object as soon as no other pass holds it, and returns the reply.
    /// It tries ten times, with growing pauses, and then parks until a put wakes it.
    ///
    /// # Errors
    /// `Spent` if the history has 2^64 - 1 entries. No entry is added.
    pub fn call<R: Wait>(&self, rt: &R, pass: &mut Pass<O>, cmd: &O::Cmd) -> Result<O::Reply, Spent>
        requires { IsPassOf self.now pass.old }
        ensures adds { Adds O.step (opening self.now) (entries_of pass.old.who cmd.now result) pass.old pass.new }
        ensures full { IfErr result (λ _. length pass.new.seen ≡ 2 ^ 64 - 1) }
    {
        self.call_operation(rt, pass, &CommandRef { cmd })
    }

    /// Performs one operation on the object as soon as no other pass holds it, and returns the
    /// reply. The new entry has the command that the operation represents (`A.command`). It waits
    /// as `call` does.
    ///
    /// # Errors
    /// `Spent` if the history has 2^64 - 1 entries. No entry is added.
    pub fn call_operation<R: Wait, A: Operation<O>>(
        &self,
        rt: &R,
        pass: &mut Pass<O>,
        asked: &A,
    ) -> Result<O::Reply, Spent>
        requires { IsPassOf self.now pass.old }
        ensures adds { Adds O.step (opening self.now) (entries_of pass.old.who (A.command asked.now) result) pass.old pass.new }
        ensures full { IfErr result (λ _. length pass.new.seen ≡ 2 ^ 64 - 1) }
    {
        match self.attempt(pass, asked, Taking::Alone) {
            Ok(reply) => Ok(reply),
            Err(TryFault::Spent) => Err(Spent),
            Err(TryFault::Busy) => self.call_again(rt, pass, asked),
        }
    }

    /// Makes the remaining tries, each after a longer pause, and then parks.
    fn call_again<R: Wait, A: Operation<O>>(
        &self,
        rt: &R,
        pass: &mut Pass<O>,
        asked: &A,
    ) -> Result<O::Reply, Spent>
        requires { IsPassOf self.now pass.old }
        ensures adds { Adds O.step (opening self.now) (entries_of pass.old.who (A.command asked.now) result) pass.old pass.new }
        ensures full { IfErr result (λ _. length pass.new.seen ≡ 2 ^ 64 - 1) }
    {
        let backoff = Backoff::new();
        backoff.snooze();
        for _ in 1..TRIES {
            match self.attempt(pass, asked, Taking::Alone) {
                Ok(reply) => return Ok(reply),
                Err(TryFault::Spent) => return Err(Spent),
                Err(TryFault::Busy) => backoff.snooze(),
            }
        }
        self.call_parked(rt, pass, asked)
    }
}
