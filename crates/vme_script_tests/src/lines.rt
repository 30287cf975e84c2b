//! The steps of script lines, call by call, with listed replies.
use crate::support::{
    ASK, DONE, FREED, GRANTED, Given, LOOK, Step, check_course, check_cycles, config_of,
};
use vme_am::AmFault;
use vme_arbiter::ArbReply;
use vme_cycle::CycleFault;
use vme_line_task::LineReplyRef;
use vme_master::OutcomeRef;

/// A processor and its one board of 16 bytes from address 1000 hex on. A line that waits may read
/// twice.
static FILE: &str = "tries = 2
[[board]]
slot = 2
base = 0x1000
size = 16
script = '''
# waits for a byte
await 09 00001003 01

r 10 00001000 1
await 09 00001000 0000000000
lw 00000004 aa
'''
";

const BERR: LineReplyRef<'static> = LineReplyRef::Transfer(OutcomeRef::Berr {
    count: 0,
    bytes: &[],
});

/// Cycles of the line that waits, each list with the reply to the line.
static WAITS: [(&[(u32, Given)], LineReplyRef<'static>); 4] = [
    (&[(3, Given::Byte(1))], LineReplyRef::Met),
    (
        &[(3, Given::Byte(0)), (3, Given::Byte(1))],
        LineReplyRef::Met,
    ),
    (
        &[(3, Given::Byte(0)), (3, Given::Byte(2))],
        LineReplyRef::Timeout,
    ),
    (&[(3, Given::Byte(0)), (3, Given::Berr)], BERR),
];

#[test]
fn a_line_waits_for_its_bytes(rt: HostRuntime) {
    let config = config_of(&rt, rt.alloc(), FILE);
    for (cycles, wanted) in &WAITS {
        check_cycles(&rt, &config, 0, cycles, *wanted);
    }
}

const DENIED: LineReplyRef<'static> = LineReplyRef::Transfer(OutcomeRef::Denied);

const REFUSED: LineReplyRef<'static> = LineReplyRef::Refused(CycleFault::Code(
    AmFault::UserDefined,
));

const WRITTEN: LineReplyRef<'static> = LineReplyRef::Transfer(OutcomeRef::Done);

/// Lines, each with its steps and its reply.
static COURSES: [(usize, &[(Given, Step)], LineReplyRef<'static>); 5] = [
    // The bus is granted late.
    (
        0,
        &[
            (Given::Nothing, ASK),
            (GRANTED, Step::Cycle(0, 3)),
            (Given::Byte(0), DONE),
            (FREED, ASK),
            (Given::Turn(ArbReply::Waiting), LOOK),
            (GRANTED, Step::Cycle(0, 3)),
            (Given::Byte(1), DONE),
            (FREED, Step::End),
        ],
        LineReplyRef::Met,
    ),
    (
        0,
        &[
            (Given::Nothing, ASK),
            (Given::Turn(ArbReply::Denied), Step::End),
        ],
        DENIED,
    ),
    (1, &[(Given::Nothing, Step::End)], REFUSED),
    (
        2,
        &[(Given::Nothing, Step::End)],
        LineReplyRef::Refused(CycleFault::BadCount),
    ),
    (
        3,
        &[(Given::Nothing, Step::Local(0)), (Given::Done, Step::End)],
        WRITTEN,
    ),
];

#[test]
fn lines_go_call_by_call(rt: HostRuntime) {
    let config = config_of(&rt, rt.alloc(), FILE);
    for (line, course, wanted) in &COURSES {
        check_course(&rt, &config, *line, course, *wanted);
    }
}
