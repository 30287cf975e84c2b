//! Waits of a test's thread for what another thread does. They end, so that a test fails and does
//! not hang.
use crossbeam_utils::Backoff;
use std::sync::atomic::{AtomicBool, Ordering};

/// The number of times that a thread checks a condition.
const LOOKS: u32 = 10_000_000;

/// Returns whether a condition holds at one of `LOOKS` checks.
pub(crate) fn comes<F: Fn() -> bool>(holds: F) -> bool
    requires { F.IsAlwaysCallable holds }
{
    let backoff = Backoff::new();
    for _ in 0..LOOKS {
        if holds() {
            return true;
        }
        backoff.snooze();
    }
    false
}

/// Returns whether a flag is set at one of `LOOKS` checks.
pub(crate) fn seen(sign: &AtomicBool) -> bool {
    comes(|| sign.load(Ordering::SeqCst))
}
