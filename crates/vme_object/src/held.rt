ghost use Rattle.std.specs.Prelude.{◌≡◌};

use crate::counter::{Counter, CounterCmd};
use crate::object::Object;
use crossbeam_utils::Backoff;
use std::alloc::Global;
use std::marker::Model;
use std::sync::Arc;
use std::sync::atomic::{AtomicBool, Ordering};

/// The number of times that a command checks for the release before it continues without one.
const LOOKS: u32 = 10_000_000;

/// A counter for tests of waiting. Each command sets `entered` and then waits for `release`, for a
/// limited time. Contracts see it as the counter; only tests show the effect of the two flags.
#[derive(Drop)]
pub struct Held {
    counter: Counter,
    entered: Arc<AtomicBool, Global>,
    release: Arc<AtomicBool, Global>,
}

impl Model for Held {
    ghost use Rattle.vme_object.specs.declared.counter.Counter.{Counter};

    ghost Value = { Counter };

    ghost view = { λ h. h.counter };
}

impl Held {
    /// Returns a counter at 0, with the flag that a command sets and the flag that it waits for.
    pub fn new(entered: Arc<AtomicBool, Global>, release: Arc<AtomicBool, Global>) -> Held
        ensures { result.number ≡ 0 }
    {
        Held {
            counter: Counter { number: 0 },
            entered,
            release,
        }
    }

    /// Returns the current number.
    pub fn number(&self) -> u64
        ensures { result ≡ self.now.number }
    {
        self.counter.number
    }
}

impl Object for Held {
    ghost use Rattle.vme_object.specs.Counters.{count_step};

    type Cmd = CounterCmd;

    type Reply = u64;

    ghost step = { count_step };

    fn apply(&mut self, cmd: &CounterCmd) -> u64 {
        self.entered.store(true, Ordering::SeqCst);
        let backoff = Backoff::new();
        for _ in 0..LOOKS {
            if self.release.load(Ordering::SeqCst) {
                break;
            }
            backoff.snooze();
        }
        self.counter.apply(cmd)
    }
}
