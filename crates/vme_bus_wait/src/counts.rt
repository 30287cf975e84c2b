use crossbeam_utils::CachePadded;
use std::sync::atomic::{AtomicBool, AtomicU64, Ordering};

/// The counts and the mark that all processors share, each on a cache line of its own.
#[derive(Drop)]
pub(crate) struct Counts {
    releases: CachePadded<AtomicU64>,
    awake: CachePadded<AtomicU64>,
    asleep: CachePadded<AtomicU64>,
    aside: CachePadded<AtomicBool>,
}

impl Counts {
    pub(crate) fn new() -> Counts {
        Counts {
            releases: CachePadded::new(AtomicU64::new(0)),
            awake: CachePadded::new(AtomicU64::new(0)),
            asleep: CachePadded::new(AtomicU64::new(0)),
            aside: CachePadded::new(AtomicBool::new(false)),
        }
    }

    /// Returns the number of releases of the bus.
    pub(crate) fn releases(&self) -> u64 {
        self.releases.load(Ordering::SeqCst)
    }

    /// Counts one more release of the bus.
    pub(crate) fn add_release(&self) {
        self.releases.fetch_add(1, Ordering::SeqCst);
    }

    /// Returns the number of processors that wait awake.
    pub(crate) fn awake(&self) -> u64 {
        self.awake.load(Ordering::SeqCst)
    }

    /// Counts one more processor that waits awake.
    pub(crate) fn add_awake(&self) {
        self.awake.fetch_add(1, Ordering::SeqCst);
    }

    /// Counts one processor fewer that waits awake. Returns whether another one remains.
    pub(crate) fn remove_awake(&self) -> bool {
        self.awake.fetch_sub(1, Ordering::SeqCst) > 1
    }

    /// Returns the number of processors that sleep or are about to sleep.
    pub(crate) fn asleep(&self) -> u64 {
        self.asleep.load(Ordering::SeqCst)
    }

    /// Counts one more processor that is about to sleep.
    pub(crate) fn add_asleep(&self) {
        self.asleep.fetch_add(1, Ordering::SeqCst);
    }

    /// Counts one processor fewer that sleeps.
    pub(crate) fn remove_asleep(&self) {
        self.asleep.fetch_sub(1, Ordering::SeqCst);
    }

    /// Marks one of two processors as deferring to the other. Returns whether one already defers.
    pub(crate) fn step_aside(&self) -> bool {
        self.aside.swap(true, Ordering::SeqCst)
    }

    /// Marks that neither of two processors defers to the other.
    pub(crate) fn step_back(&self) {
        self.aside.store(false, Ordering::SeqCst);
    }
}
