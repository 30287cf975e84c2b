//! Replies that do not match, are missing or come early, and denials of the arbiter.
use crate::shared_course::{BOARDS, MAILBOX, expect_end};
use crate::support::{DENIED, FREED, GRANTED, Given, map_of, replied};
use std::process::Abort;
use vme_decode::AddressMap;
use vme_shared::{SharedOutcome, SharedRequest, SharedTask};

/// A put of a word.
const PUT: SharedRequest = SharedRequest::Put {
    mailbox: MAILBOX,
    word: 1,
};

/// Returns the task of a put.
fn put_task<'a>(rt: &impl Abort, map: &'a AddressMap) -> SharedTask<'a> {
    SharedTask::start(map, 2, 3, PUT).expect(rt, "refused")
}

/// Gives a task a reply.
fn give(task: &mut SharedTask<'_>, given: Given) {
    let _ = task.next(replied(given));
}

/// Leads a task through its request for the bus to the cycle of the lock.
fn at_the_lock(task: &mut SharedTask<'_>) {
    give(task, Given::Nothing);
    give(task, GRANTED);
}

/// Leads a task past the free lock to the read of the put count.
fn at_the_put_count(task: &mut SharedTask<'_>) {
    at_the_lock(task);
    give(task, Given::Bytes(&[0]));
    give(task, FREED);
    give(task, GRANTED);
}

/// Checks that a reply ends a task as denied, and that one more call has the same outcome.
fn expect_denied(rt: &impl Abort, task: &mut SharedTask<'_>, given: Given) {
    let first = expect_end(rt, &task.next(replied(given)));
    let again = expect_end(rt, &task.next(replied(FREED)));
    assert_eq!(rt;
        (first, again),
        (SharedOutcome::Denied, SharedOutcome::Denied)
    );
    task.restart();
}

/// Replies to the cycle of the lock: too few bytes, too many, and none.
static TO_THE_LOCK: [Given; 3] = [Given::Bytes(&[]), Given::Bytes(&[0, 0]), Given::Done];

/// Replies to the read of the put count: too few bytes, too many, none, one of the arbiter, and no
/// reply.
static TO_THE_COUNT: [Given; 5] = [
    Given::Bytes(&[0]),
    Given::Bytes(&[0, 0, 0, 0, 0]),
    Given::Done,
    GRANTED,
    Given::Nothing,
];

#[test]
fn what_does_not_fit_is_denied(rt: HostRuntime) {
    let map = map_of(&rt, rt.alloc(), &BOARDS);
    let mut task = put_task(&rt, &map);
    for given in &TO_THE_LOCK {
        at_the_lock(&mut task);
        expect_denied(&rt, &mut task, *given);
    }
    for given in &TO_THE_COUNT {
        at_the_put_count(&mut task);
        expect_denied(&rt, &mut task, *given);
    }
}

#[test]
fn what_comes_early_is_denied(rt: HostRuntime) {
    let map = map_of(&rt, rt.alloc(), &BOARDS);
    let mut task = put_task(&rt, &map);
    expect_denied(&rt, &mut task, GRANTED);
    expect_denied(&rt, &mut task, Given::Done);
}

#[test]
fn a_denial_of_the_arbiter_ends_all(rt: HostRuntime) {
    let map = map_of(&rt, rt.alloc(), &BOARDS);
    let mut task = put_task(&rt, &map);
    give(&mut task, Given::Nothing);
    expect_denied(&rt, &mut task, DENIED);
    at_the_lock(&mut task);
    give(&mut task, Given::Bytes(&[0]));
    expect_denied(&rt, &mut task, DENIED);
}
