//! The next step of a task after each reply.
use crate::support;
use crate::support::{DENIED, FREED, GRANTED, Given, WAITING, datum, map_of, replied};
use std::alloc::Global;
use std::process::Abort;
use std::test::Fail;
use vme_am::Space;
use vme_arbiter::ArbCmd;
use vme_core::Event;
use vme_cycle::{BlockBuffer, CycleFault, Modify, Plan, Request};
use vme_decode::{AddressMap, Entry};
use vme_master::{Outcome, OutcomeRef, Task, Todo};
use vme_memory::BoardCmd;

/// One board of 64 bytes from address 1000 hex up.
static BOARDS: [Entry; 1] = [Entry {
    space: Space::A32,
    base: 0x1000,
    size: 64,
    supervisory: false,
}];

/// A step of a task, without the signals of a cycle.
#[derive(Clone, Copy, Debug, PartialEq, Eq)]
enum Step {
    Bus(ArbCmd),
    /// A cycle of the board with this index, at an offset.
    Cycle(usize, u32),
    /// A command to the local port of the board with this index.
    Local(usize),
    End,
}

fn step_of(todo: &Todo) -> Step {
    match todo {
        Todo::Call(Event::Bus(cmd)) => Step::Bus(*cmd),
        Todo::Call(Event::Board { board, cmd }) => match cmd {
            BoardCmd::Cycle { at, .. } => Step::Cycle(*board, *at),
            _ => Step::Local(*board),
        },
        Todo::Finished => Step::End,
    }
}

const ASK: Step = Step::Bus(support::ASK);

const LOOK: Step = Step::Bus(support::LOOK);

const DONE: Step = Step::Bus(support::DONE);

/// The replies that a task receives, each with the step to which it leads.
type Course = &'static [(Given, Step)];

/// Gives a task a reply, and checks the step to which it leads.
fn check_step(rt: &impl Abort, task: &mut Task<'_>, given: Given, wanted: Step) {
    let step = step_of(&task.next(replied(given)));
    assert_eq!(rt; step, wanted, "{given:?}");
}

/// Leads a task through replies and steps. It has no outcome before the last of them.
fn lead(rt: &impl Abort, task: &mut Task<'_>, course: Course) {
    for (given, wanted) in course {
        assert!(rt; task.outcome().is_none());
        check_step(rt, task, *given, *wanted);
    }
}

/// Checks the outcome that a task lends.
fn check_lent(rt: &impl Abort, task: &Task<'_>, wanted: OutcomeRef<'static>) {
    assert_eq!(rt; task.outcome(), Some(wanted));
}

/// Checks an outcome that a task has returned.
fn check_taken(rt: &impl Abort, outcome: &Option<Outcome>, wanted: OutcomeRef<'static>) {
    let lent = match outcome {
        Some(outcome) => Some(borrowed(outcome)),
        None => None,
    };
    assert_eq!(rt; lent, Some(wanted));
}

/// Returns an outcome by reference.
fn borrowed(outcome: &Outcome) -> OutcomeRef<'_> {
    match outcome {
        Outcome::Read(bytes) => OutcomeRef::Read(bytes.as_slice()),
        Outcome::Done => OutcomeRef::Done,
        Outcome::Old(bytes) => OutcomeRef::Old(bytes.as_slice()),
        Outcome::Berr { count, bytes } => OutcomeRef::Berr {
            count: *count,
            bytes: bytes.as_slice(),
        },
        Outcome::Denied => OutcomeRef::Denied,
    }
}

/// Leads a task through replies and steps, and checks its outcome. The task lends the outcome
/// before and after one more call, and then returns it.
fn check(rt: &impl Abort, mut task: Task<'_>, course: Course, wanted: OutcomeRef<'static>) {
    lead(rt, &mut task, course);
    check_lent(rt, &task, wanted);
    check_step(rt, &mut task, GRANTED, Step::End);
    check_lent(rt, &task, wanted);
    check_taken(rt, &task.into_outcome(), wanted);
}

/// Returns the task of a request of slot 2 on level 3, with a buffer for the bytes that it reads.
fn start<'a>(rt: &impl Abort, alloc: Global, map: &AddressMap, request: &'a Request) -> Task<'a> {
    let Ok(plan) = Plan::of(request) else {
        panic!(rt; "refused")
    };
    let Ok(buffer) = BlockBuffer::with_capacity(alloc, plan.read_len()) else {
        panic!(rt; "no memory")
    };
    let Ok(task) = Task::start(map, 2, 3, request, buffer) else {
        panic!(rt; "refused")
    };
    task
}

/// The map of the one board.
fn map(rt: &impl Abort, alloc: Global) -> AddressMap {
    map_of(rt, alloc, &BOARDS)
}

/// Courses of a read of two data, each with the outcome.
static TWO_DATA: [(Course, OutcomeRef<'static>); 8] = [
    (
        &[
            (Given::Nothing, ASK),
            (WAITING, LOOK),
            (GRANTED, Step::Cycle(0, 8)),
            (Given::Bytes(&[1, 2, 3, 4]), Step::Cycle(0, 12)),
            (Given::Bytes(&[5, 6, 7, 8]), DONE),
            (FREED, Step::End),
        ],
        OutcomeRef::Read(&[1, 2, 3, 4, 5, 6, 7, 8]),
    ),
    // A bus error of the second datum.
    (
        &[
            (Given::Nothing, ASK),
            (GRANTED, Step::Cycle(0, 8)),
            (Given::Bytes(&[1, 2, 3, 4]), Step::Cycle(0, 12)),
            (Given::Berr, DONE),
            (FREED, Step::End),
        ],
        OutcomeRef::Berr {
            count: 1,
            bytes: &[1, 2, 3, 4],
        },
    ),
    // A reply of the wrong length, of the wrong kind and of another object.
    (
        &[
            (Given::Nothing, ASK),
            (GRANTED, Step::Cycle(0, 8)),
            (Given::Bytes(&[1, 2]), Step::End),
        ],
        OutcomeRef::Denied,
    ),
    (
        &[
            (Given::Nothing, ASK),
            (GRANTED, Step::Cycle(0, 8)),
            (Given::Done, Step::End),
        ],
        OutcomeRef::Denied,
    ),
    (
        &[
            (Given::Nothing, ASK),
            (GRANTED, Step::Cycle(0, 8)),
            (GRANTED, Step::End),
        ],
        OutcomeRef::Denied,
    ),
    // A denial, no reply, and a reply that comes early.
    (
        &[(Given::Nothing, ASK), (DENIED, Step::End)],
        OutcomeRef::Denied,
    ),
    (
        &[(Given::Nothing, ASK), (Given::Nothing, Step::End)],
        OutcomeRef::Denied,
    ),
    (&[(GRANTED, Step::End)], OutcomeRef::Denied),
];

#[test]
fn reads_two_data_in_order(rt: HostRuntime) {
    let map = map(&rt, rt.alloc());
    let request = Request::BlockRead {
        am: 0x0b,
        addr: 0x1008,
        n: 4,
        count: 2,
    };
    for (course, wanted) in &TWO_DATA {
        check(&rt, start(&rt, rt.alloc(), &map, &request), course, *wanted);
    }
}

static NOWHERE: [(Given, Step); 3] = [(Given::Nothing, ASK), (GRANTED, DONE), (FREED, Step::End)];

/// A bus error of the first datum.
const BERR: OutcomeRef<'static> = OutcomeRef::Berr {
    count: 0,
    bytes: &[],
};

#[test]
fn no_board_selected_is_a_bus_error(rt: HostRuntime) {
    let map = map(&rt, rt.alloc());
    let request = Request::Read {
        am: 0x09,
        addr: 0x2000,
        n: 1,
    };
    check(&rt, start(&rt, rt.alloc(), &map, &request), &NOWHERE, BERR);
}

static MODIFIED: [(Given, Step); 4] = [
    (Given::Nothing, ASK),
    (GRANTED, Step::Cycle(0, 8)),
    (Given::Bytes(&[0x7f]), DONE),
    (FREED, Step::End),
];

/// The byte that the read-modify-write finds.
const OLD: OutcomeRef<'static> = OutcomeRef::Old(&[0x7f]);

static WRITTEN: [(Given, Step); 4] = [
    (Given::Nothing, ASK),
    (GRANTED, Step::Cycle(0, 6)),
    (Given::Done, DONE),
    (FREED, Step::End),
];

/// Sets the top bit of the byte at offset 8.
fn modify() -> Request {
    Request::Modify {
        am: 0x09,
        addr: 0x1008,
        n: 1,
        f: Modify::Set,
    }
}

#[test]
fn a_modify_is_one_call_and_a_write_too(rt: HostRuntime) {
    let map = map(&rt, rt.alloc());
    let modify = modify();
    check(&rt, start(&rt, rt.alloc(), &map, &modify), &MODIFIED, OLD);
    let write = Request::Write {
        am: 0x09,
        addr: 0x1006,
        bytes: datum(&[1, 2]),
    };
    check(
        &rt,
        start(&rt, rt.alloc(), &map, &write),
        &WRITTEN,
        OutcomeRef::Done,
    );
}

#[test]
fn a_fill_of_256_data_calls_the_board_256_times(rt: HostRuntime) {
    let map = map(&rt, rt.alloc());
    let request = Request::BlockFill {
        am: 0x0b,
        addr: 0x1000,
        n: 1,
        count: 256,
        bytes: datum(&[7]),
    };
    let mut task = start(&rt, rt.alloc(), &map, &request);
    check_step(&rt, &mut task, Given::Nothing, ASK);
    check_step(&rt, &mut task, GRANTED, Step::Cycle(0, 0));
    for at in 1..256u32 {
        check_step(&rt, &mut task, Given::Done, Step::Cycle(0, at));
    }
    check_step(&rt, &mut task, Given::Done, DONE);
    check_step(&rt, &mut task, FREED, Step::End);
    check_taken(&rt, &task.into_outcome(), OutcomeRef::Done);
}

static LOCAL_READ: [(Given, Step); 2] = [
    (Given::Nothing, Step::Local(3)),
    (Given::Bytes(&[1, 2]), Step::End),
];

static LOCAL_BERR: [(Given, Step); 2] = [
    (Given::Nothing, Step::Local(3)),
    (Given::Berr, Step::End),
];

/// Returns the task of a read of two bytes by the local port of the fourth board.
fn local_task() -> Task<'static> {
    Task::local(3, BoardCmd::LocalRead { offset: 1, n: 2 })
}

#[test]
fn a_local_command_is_one_call(rt: HostRuntime) {
    check(&rt, local_task(), &LOCAL_READ, OutcomeRef::Read(&[1, 2]));
    check(&rt, local_task(), &LOCAL_BERR, BERR);
}

#[test]
fn a_task_runs_again_after_its_end(rt: HostRuntime) {
    let mut task = local_task();
    task.advance(None);
    task.advance(replied(Given::Bytes(&[7, 8])).as_ref());
    assert!(&rt; task.is_finished());
    check_lent(&rt, &task, OutcomeRef::Read(&[7, 8]));
    task.restart();
    assert!(&rt; !task.is_finished());
    check(&rt, task, &LOCAL_READ, OutcomeRef::Read(&[1, 2]));
}

#[test]
fn a_refused_request_has_no_task(rt: HostRuntime) -> Result<(), Fail> {
    let map = AddressMap::new(rt.alloc(), &BOARDS)?;
    let request = Request::Read {
        am: 0x0b,
        addr: 0x1000,
        n: 4,
    };
    let task = Task::start(&map, 2, 3, &request, BlockBuffer::new());
    assert!(&rt; matches!(task, Err(CycleFault::WrongKindOfCode)));
    Ok(())
}

#[test]
fn a_request_of_its_own_goes_the_same_way(rt: HostRuntime) -> Result<(), Fail> {
    let map = AddressMap::new(rt.alloc(), &BOARDS)?;
    let request = Request::Modify {
        am: 0x09,
        addr: 0x1008,
        n: 1,
        f: Modify::Set,
    };
    let task = Task::start_owned(&map, 2, 3, request)?;
    check(&rt, task, &MODIFIED, OLD);
    Ok(())
}
