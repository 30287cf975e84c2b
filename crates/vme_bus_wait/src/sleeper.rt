use crossbeam_utils::CachePadded;
use std::sync::Wait;
use std::sync::atomic::{AtomicU64, Ordering};
use std::time::Duration;

/// The word of a processor that is awake.
const AWAKE: u64 = 0;

/// The word of a processor that sleeps or is about to sleep.
const ASLEEP: u64 = 1;

/// The longest sleep, in milliseconds.
const LONGEST: u64 = 10;

/// The word that one processor sleeps on until another wakes it.
#[derive(Drop)]
pub(crate) struct Sleeper {
    word: CachePadded<AtomicU64>,
}

impl Sleeper {
    pub(crate) fn new() -> Sleeper {
        Sleeper {
            word: CachePadded::new(AtomicU64::new(AWAKE)),
        }
    }

    /// Marks the processor as asleep. Another processor can wake it from now on.
    pub(crate) fn mark_asleep(&self) {
        self.word.store(ASLEEP, Ordering::SeqCst);
    }

    /// Sleeps until the processor is woken, unless it was woken since `mark_asleep`. A sleep ends
    /// after `LONGEST` milliseconds at the latest, even if no processor wakes it.
    pub(crate) fn sleep<R: Wait>(&self, rt: &R) {
        self.word
            .park_timeout(rt, ASLEEP as u32, Duration::from_millis(LONGEST));
    }

    /// Marks the processor as awake.
    pub(crate) fn mark_awake(&self) {
        self.word.store(AWAKE, Ordering::SeqCst);
    }

    /// Wakes the processor if it sleeps or is about to sleep, and returns whether it did.
    pub(crate) fn wake(&self) -> bool {
        if self.word.load(Ordering::SeqCst) == AWAKE {
            return false;
        }
        if self.word.swap(AWAKE, Ordering::SeqCst) == AWAKE {
            return false;
        }
        self.word.wake_one();
        true
    }
}
