ghost use Rattle.std.specs.Prelude.{◌≡◌, ◌<◌, ◌⊎◌, nat_lt, IfOk, IfSome};
ghost use Rattle.vme_bus_wait.specs.Waits.{
  granted,
  has_waited,
  one_more,
  processors_of,
  released,
  rounds_of,
  still_rounds_of,
};

use crate::counts::Counts;
use crate::sleeper::Sleeper;
use crate::wait_state::WaitState;
use std::alloc::{AllocError, Global};
use std::sync::Wait;
use std::{hint, thread};

/// The number of times that a processor polls for a release before it yields its thread.
const PAUSES: u32 = 64;

/// With this many processors, at most one waits at a time, so awake processors are not counted.
/// With fewer, none ever waits.
const PAIR: usize = 2;

/// The number of times that a processor that defers to the other polls for that one's releases.
const LOOKS_ASIDE: u32 = 16;

/// The number of pauses before each poll of a processor that defers. Each poll delays the other
/// processor by a cache line transfer.
const PAUSES_ASIDE: u32 = 32;

/// The state that the processors of one bus share while they wait for it. A waiting processor polls
/// this state before it asks the arbiter again, so that it does not contend with the processors
/// that use the bus.
///
/// A processor that has waited for many rounds sleeps. While the bus passes from processor to
/// processor, one waiting processor stays awake. After several rounds without a release it wakes
/// the others, because the arbiter may have granted the bus to one of them. After 64 such rounds it
/// sleeps too.
#[derive(Drop)]
pub struct BusWaiters {
    pub(crate) counts: Counts,
    sleepers: Vec<Sleeper>,
}

impl BusWaiters {
    /// Returns the shared state for `count` processors, none of which waits.
    ///
    /// # Errors
    /// `AllocError` if an allocation fails.
    pub fn new(alloc: Global, count: usize) -> Result<BusWaiters, AllocError>
        ensures { IfOk result (λ waiters. processors_of waiters ≡ count) }
    {
        let mut sleepers = Vec::with_capacity(alloc, count)?;
        for _ in 0..count {
            sleepers.push_reserved(Sleeper::new());
        }
        Ok(BusWaiters {
            counts: Counts::new(),
            sleepers,
        })
    }

    /// Returns the number of releases so far, which stays 0 for fewer than two processors. Read it
    /// before asking the arbiter, so that no release after the arbiter's reply is missed.
    pub fn releases(&self) -> u64 {
        self.counts.releases()
    }

    /// Records that the processor released the bus. If processors wait and all of them sleep, it
    /// wakes one of them. If there are two processors and this one had to wait for the bus, it
    /// defers to the other for at most 16 polls.
    pub fn release(&self, wait_state: &mut WaitState)
        ensures { wait_state.new ≡ released (processors_of self.now) wait_state.old }
    {
        if self.sleepers.len() < PAIR {
            return;
        }
        self.counts.add_release();
        if self.counts.asleep() > 0 && self.counts.awake() == 0 {
            self.wake_first();
        }
        if wait_state.take_has_waited() && !self.counts_awake() {
            self.stand_aside();
        }
    }

    /// Waits for one round, after the arbiter replied `Waiting`: until the number of releases
    /// differs from `seen`, or for a bounded time. `who` is the processor's place among the `count`
    /// processors, from 0 on. A processor whose place is not below `count` never sleeps.
    pub fn wait<R: Wait>(&self, rt: &R, who: usize, seen: u64, wait_state: &mut WaitState)
        ensures rounds { rounds_of wait_state.new ≡ one_more (rounds_of wait_state.old) }
        ensures still { (still_rounds_of wait_state.new ≡ 0)
            ⊎ (still_rounds_of wait_state.new ≡ one_more (still_rounds_of wait_state.old)) }
        ensures waited { has_waited wait_state.new ≡ has_waited wait_state.old }
    {
        if !wait_state.has_begun() {
            self.add_awake();
        }
        wait_state.begin_round();
        if wait_state.is_spent() || (wait_state.is_over() && self.counts_awake()) {
            self.sleep(rt, who, seen, wait_state.is_spent());
        }
        if self.pause(seen) {
            wait_state.note_release();
        } else if wait_state.note_none() {
            self.wake_all();
        }
    }

    /// Records that the processor got the bus, so it no longer waits.
    pub fn leave(&self, wait_state: &mut WaitState)
        ensures { wait_state.new ≡ granted wait_state.old }
    {
        if wait_state.has_begun() {
            self.remove_awake();
            wait_state.end();
        }
    }

    /// Defers to the other of two processors until no release follows within one poll, for at most
    /// `LOOKS_ASIDE` polls. Returns at once if the other one defers too. A change of the bus
    /// between threads takes longer than a transfer, so one processor makes several transfers
    /// before the other does.
    fn stand_aside(&self) {
        if self.counts.step_aside() {
            return;
        }
        let mut seen = self.releases();
        for _ in 0..LOOKS_ASIDE {
            for _ in 0..PAUSES_ASIDE {
                hint::spin_loop();
            }
            let releases = self.releases();
            if releases == seen {
                break;
            }
            seen = releases;
        }
        self.counts.step_back();
    }

    /// Returns whether more than one processor may wait at a time. Only then are awake processors
    /// counted.
    fn counts_awake(&self) -> bool
        ensures { result ≡ nat_lt 2 (processors_of self.now) }
    {
        self.sleepers.len() > PAIR
    }

    /// Counts one more processor that waits awake, if awake processors are counted.
    fn add_awake(&self) {
        if self.counts_awake() {
            self.counts.add_awake();
        }
    }

    /// Counts one processor fewer that waits awake, if awake processors are counted. Returns
    /// whether another one remains.
    fn remove_awake(&self) -> bool {
        self.counts_awake() && self.counts.remove_awake()
    }

    /// Polls until the number of releases differs from `seen`. After `PAUSES` polls it yields the
    /// thread once. Returns whether a release came.
    fn pause(&self, seen: u64) -> bool {
        for _ in 0..PAUSES {
            if self.releases() != seen {
                return true;
            }
            hint::spin_loop();
        }
        thread::yield_now();
        self.releases() != seen
    }

    /// Sleeps, unless a release came since `seen`, or no other waiting processor is awake and
    /// `as_last` is false.
    fn sleep<R: Wait>(&self, rt: &R, who: usize, seen: u64, as_last: bool) {
        let Some(sleeper) = self.sleepers.get(who) else {
            return;
        };
        sleeper.mark_asleep();
        self.counts.add_asleep();
        let may_sleep = self.remove_awake() || as_last;
        if may_sleep && self.releases() == seen {
            sleeper.sleep(rt);
        }
        self.add_awake();
        self.counts.remove_asleep();
        sleeper.mark_awake();
    }

    /// Wakes the first processor, in order of slots, that sleeps or is about to sleep. Returns its
    /// place among the processors.
    fn wake_first(&self) -> Option<usize>
        ensures { IfSome result (λ who. who < processors_of self.now) }
    {
        for who in 0..self.sleepers.len() {
            if self.sleepers[who].wake() {
                return Some(who);
            }
        }
        None
    }

    /// Wakes every processor that sleeps or is about to sleep.
    fn wake_all(&self) {
        for sleeper in &self.sleepers {
            sleeper.wake();
        }
    }
}
