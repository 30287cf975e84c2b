//! Locks and mailboxes in a script: which outcomes are retried, and which end the line.
use crate::support::{
    ASK, DONE, FREED, GRANTED, Given, Step, check_course, check_cycles, config_of,
};
use vme_arbiter::ArbReply;
use vme_line_task::LineReplyRef;
use vme_shared::SharedOutcome;

/// A processor and its one board, which has two mailboxes of one word. It tries at most twice.
static FILE: &str = "tries = 2
[[board]]
slot = 2
base = 0
size = 64
script = '''
lock 09 00000018
unlock 09 00000018
put 1 0000000a
take 1
take 2
lock 09 00002000
'''
[[mailbox]]
am = 9
addr = 0
slots = 1
[[mailbox]]
am = 9
addr = 32
slots = 1
";

const LOCK: usize = 0;

const UNLOCK: usize = 1;

const PUT: usize = 2;

const TAKE: usize = 3;

const TAKE_OF_SECOND: usize = 4;

/// A lock at an address of no board.
const NOWHERE: usize = 5;

/// Lines, each with its outcome, its cycles and the replies to them.
static CYCLES: [(usize, SharedOutcome, &[(u32, Given)]); 10] = [
    (LOCK, SharedOutcome::Taken, &[(0x18, Given::Byte(0x7f))]),
    (
        LOCK,
        SharedOutcome::Taken,
        &[(0x18, Given::Byte(0x80)), (0x18, Given::Byte(0))],
    ),
    (
        LOCK,
        SharedOutcome::Busy,
        &[(0x18, Given::Byte(0x80)), (0x18, Given::Byte(0xff))],
    ),
    (LOCK, SharedOutcome::Berr, &[(0x18, Given::Berr)]),
    (UNLOCK, SharedOutcome::Unlocked, &[(0x18, Given::Done)]),
    // The mailbox is full at first; then the word goes in.
    (
        PUT,
        SharedOutcome::Put,
        &[
            (0, Given::Byte(0)),
            (4, Given::Word(5)),
            (8, Given::Word(4)),
            (0, Given::Done),
            (0, Given::Byte(0)),
            (4, Given::Word(5)),
            (8, Given::Word(5)),
            (16, Given::Done),
            (4, Given::Done),
            (0, Given::Done),
        ],
    ),
    // The mailbox is empty, twice.
    (
        TAKE,
        SharedOutcome::Empty,
        &[
            (0, Given::Byte(0)),
            (4, Given::Word(5)),
            (8, Given::Word(5)),
            (0, Given::Done),
            (0, Given::Byte(0)),
            (4, Given::Word(5)),
            (8, Given::Word(5)),
            (0, Given::Done),
        ],
    ),
    // The count of words put has its greatest value: the lock is freed, and the line ends.
    (
        PUT,
        SharedOutcome::Spent,
        &[
            (0, Given::Byte(0)),
            (4, Given::Word(0xffff_ffff)),
            (8, Given::Word(0xffff_fffe)),
            (0, Given::Done),
        ],
    ),
    // Another processor holds the mailbox's lock, twice.
    (
        TAKE,
        SharedOutcome::Busy,
        &[(0, Given::Byte(0x80)), (0, Given::Byte(0x80))],
    ),
    // The word is that of the second mailbox.
    (
        TAKE_OF_SECOND,
        SharedOutcome::Took(7),
        &[
            (32, Given::Byte(0)),
            (36, Given::Word(1)),
            (40, Given::Word(0)),
            (48, Given::Word(7)),
            (40, Given::Done),
            (32, Given::Done),
        ],
    ),
];

#[test]
fn locks_and_mailboxes_are_tried_again(rt: HostRuntime) {
    let config = config_of(&rt, rt.alloc(), FILE);
    for (line, wanted, cycles) in &CYCLES {
        check_cycles(&rt, &config, *line, cycles, LineReplyRef::Shared(*wanted));
    }
}

/// Lines that end at the first attempt, each with its outcome and its steps.
static COURSES: [(usize, SharedOutcome, &[(Given, Step)]); 3] = [
    // No board is selected: the bus timer ends the cycle.
    (
        NOWHERE,
        SharedOutcome::Berr,
        &[(Given::Nothing, ASK), (GRANTED, DONE), (FREED, Step::End)],
    ),
    (
        LOCK,
        SharedOutcome::Denied,
        &[
            (Given::Nothing, ASK),
            (Given::Turn(ArbReply::Denied), Step::End),
        ],
    ),
    (
        PUT,
        SharedOutcome::Denied,
        &[
            (Given::Nothing, ASK),
            (Given::Turn(ArbReply::Denied), Step::End),
        ],
    ),
];

#[test]
fn other_outcomes_are_not_tried_again(rt: HostRuntime) {
    let config = config_of(&rt, rt.alloc(), FILE);
    for (line, wanted, course) in &COURSES {
        check_course(&rt, &config, *line, course, LineReplyRef::Shared(*wanted));
    }
}
