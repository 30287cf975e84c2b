//! The replies of counters, and the end of counting.
use crate::support::reply;
use std::process::Abort;
use std::sync::Arc;
use std::sync::atomic::{AtomicBool, Ordering};
use vme_object::{Counter, CounterCmd, Held, next_count};

/// Counts, each with the next one, if any.
static COUNTS: [(u64, Option<u64>); 3] = [
    (0, Some(1)),
    (18_446_744_073_709_551_614, Some(18_446_744_073_709_551_615)),
    (18_446_744_073_709_551_615, None),
];

#[test]
fn counting_ends_at_the_last_count(rt: HostRuntime) {
    for (count, next) in &COUNTS {
        assert_eq!(&rt; next_count(*count), *next);
    }
}

#[test]
fn two_bumps_and_a_show(rt: HostRuntime) {
    let mut counter = Counter { number: 0 };
    let first = reply(&mut counter, &CounterCmd::Bump);
    let second = reply(&mut counter, &CounterCmd::Bump);
    let shown = reply(&mut counter, &CounterCmd::Show);
    assert_eq!(&rt; (first, second, shown, counter.number), (0, 1, 2, 2));
}

#[test]
fn the_last_number_is_followed_by_zero(rt: HostRuntime) {
    let mut counter = Counter { number: u64::MAX };
    let first = reply(&mut counter, &CounterCmd::Bump);
    let shown = reply(&mut counter, &CounterCmd::Show);
    assert_eq!(&rt; (first, shown), (u64::MAX, 0));
}

#[test]
fn a_held_counter_that_is_released_answers_as_the_counter(rt: HostRuntime) {
    let entered = Arc::new(rt.alloc(), AtomicBool::new(false)).expect(&rt, "no memory");
    let release = Arc::new(rt.alloc(), AtomicBool::new(true)).expect(&rt, "no memory");
    let mut held = Held::new(entered.clone().expect(&rt, "no clone"), release);
    assert_eq!(&rt; reply(&mut held, &CounterCmd::Bump), 0);
    assert!(&rt; entered.load(Ordering::SeqCst));
    let second = reply(&mut held, &CounterCmd::Bump);
    let shown = reply(&mut held, &CounterCmd::Show);
    assert_eq!(&rt; (second, shown, held.number()), (1, 2, 2));
}
