ghost use Rattle.std.specs.Prelude.{◌≡◌, ◌≢◌, ◌+◌, ◌<◌, ◌-◌, ◌^◌, ◌↔◌, ◌∷◌, [], length, slice_set, slice_index_or, IsErr, IfOk, IfErr};
ghost use Rattle.vme_object.specs.History.{entry};
ghost use Rattle.vme_core.specs.CountedStates.{IsObjectRun, fresh_count};
ghost use Rattle.vme_memory.specs.Locals.{command_given};
ghost use Rattle.vme_core.specs.Calls.{command_step, counted_step};

use crate::datum::DatumCycle;
use crate::fault::{OutOfMemory, Spent};
use std::alloc::Global;
use std::marker::Model;
use vme_memory::{ByteMemory, Reply};
use vme_object::{Object, next_count};

/// An object, the number of its steps, and the number of steps of each processor.
#[derive(Drop)]
pub(crate) struct Counted<O> {
    object: O,
    steps: u64,
    made: Vec<u64>,
}

impl<O> Model for Counted<O> {
    ghost use Rattle.std.specs.Prelude.{◌≤◌, All};
    ghost use Rattle.vme_core.specs.CountedStates.{CountedState};

    ghost Value = { CountedState O };

    ghost view = { λ c. record { object = c.object; steps = c.steps; made = c.made.items } };

    ghost invariant = { λ c. All (λ m. m ≤ c.steps) c.made.items };
}

impl<O: Object> Counted<O> {
    /// An object before its first step, with a count for each of `k` processors.
    pub(crate) fn new(alloc: Global, object: O, k: usize) -> Result<Counted<O>, OutOfMemory>
    where
        O: Drop,
        ensures { IfOk result (λ c. c ≡ fresh_count k object) }
    {
        match vec![in alloc; 0; k] {
            Ok(made) => Ok(Counted {
                object,
                steps: 0,
                made,
            }),
            Err(_) => Err(OutOfMemory),
        }
    }

    /// Takes a command of `who` and counts it. Where no further step can be counted, nothing is
    /// done.
    pub(crate) fn apply(&mut self, who: usize, cmd: &O::Cmd) -> Result<O::Reply, Spent>
        requires who { who < length self.old.made }
        ensures step { IfOk result (λ reply. (self.new, reply) ≡ counted_step O.step self.old who cmd.now) }
        ensures went { IfOk result (λ reply. IsObjectRun O.step (entry who cmd.now reply ∷ []) self.old self.new) }
        ensures spent { IsErr result ↔ (self.old.steps ≡ 2 ^ 64 - 1) }
        ensures unchanged { IfErr result (λ _. self.new ≡ self.old) }
    {
        if next_count(self.steps).is_none() {
            return Err(Spent);
        }
        Ok(self.reply(who, cmd))
    }

    /// Takes a command of `who` and counts it, where a further step can be counted.
    #[inline(always)]
    pub(crate) fn reply(&mut self, who: usize, cmd: &O::Cmd) -> O::Reply
        requires who { who < length self.old.made }
        requires unspent { self.old.steps ≢ 2 ^ 64 - 1 }
        ensures step { (self.new, result) ≡ counted_step O.step self.old who cmd.now }
        ensures went { IsObjectRun O.step (entry who cmd.now result ∷ []) self.old self.new }
    {
        let reply = self.object.apply(cmd);
        self.count(who);
        reply
    }

    /// Counts one more step of `who`.
    fn count(&mut self, who: usize)
        requires who { who < length self.old.made }
        requires unspent { self.old.steps ≢ 2 ^ 64 - 1 }
        ensures { self.new ≡ record {
          object = self.old.object;
          steps = self.old.steps + 1;
          made = slice_set self.old.made who (slice_index_or self.old.made who 0 + 1);
        } }
    {
        self.steps = next_count(self.steps).unwrap();
        self.made[who] += 1;
    }

    pub(crate) fn object(&self) -> &O
        ensures { result.now ≡ self.now.object }
    {
        &self.object
    }

    pub(crate) fn steps(&self) -> u64
        ensures { result ≡ self.now.steps }
    {
        self.steps
    }

    /// The number of steps of `who`.
    pub(crate) fn made(&self, who: usize) -> u64
        requires { who < length self.now.made }
        ensures { result ≡ slice_index_or self.now.made who 0 }
    {
        self.made[who]
    }

    /// The number of steps of each processor.
    pub(crate) fn counts(&self) -> &[u64]
        ensures { result.now ≡ self.now.made }
    {
        self.made.as_slice()
    }
}

impl Counted<ByteMemory> {
    /// Takes one datum of a transfer of `who` and counts it, where a further step can be counted.
    #[inline(always)]
    pub(crate) fn datum(&mut self, who: usize, cycle: &DatumCycle<'_>) -> Reply
        requires who { who < length self.old.made }
        requires unspent { self.old.steps ≢ 2 ^ 64 - 1 }
        ensures { (self.new, result) ≡ counted_step command_step self.old who (command_given cycle.now) }
    {
        let reply = self.object.access(&cycle.access());
        self.count(who);
        reply
    }
}
