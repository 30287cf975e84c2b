//! The observable state of a core after a few events, and after an allocation that fails.
ghost use Rattle.std.specs.Prelude.{◌≡◌, ◌<◌, length, All, IfOk};
ghost use Rattle.vme_core.specs.Runs.{Machine, target_of};
ghost use Rattle.vme_core.specs.Machines.{process_count, IsThere};

use crate::support::{WHOLE, datum};
use std::process::Abort;
use vme_arbiter::{ArbCmd, ArbReply, Arbiter};
use vme_core::{Core, Event, EventReply, OutOfMemory, RunStop, Spent, Target};
use vme_memory::{BoardCmd, ByteMemory, Reply};

/// Returns the memory of one board of 16 bytes.
fn memories(rt: &HostRuntime) -> Result<Vec<ByteMemory>, OutOfMemory>
    ensures { IfOk result (λ memories. length memories.items ≡ 1) }
{
    let Ok(memory) = ByteMemory::new(rt.alloc(), 16, WHOLE) else {
        return Err(OutOfMemory);
    };
    let Ok(memories) = Vec::from_array(rt.alloc(), [memory]) else {
        return Err(OutOfMemory);
    };
    Ok(memories)
}

/// Returns a core of one board, for two processes.
fn one_board(rt: &HostRuntime) -> Result<Core, OutOfMemory>
    ensures boards { IfOk result (λ core. length core.boards ≡ 1) }
    ensures process_count { IfOk result (λ core. process_count core ≡ 2) }
{
    Core::new(rt.alloc(), memories(rt)?, 2)
}

/// Returns a core of one board with a rotating arbiter, for two processes.
fn rotating(rt: &HostRuntime) -> Result<Core, OutOfMemory>
    ensures boards { IfOk result (λ core. length core.boards ≡ 1) }
    ensures process_count { IfOk result (λ core. process_count core ≡ 2) }
{
    Core::with_arbiter(rt.alloc(), memories(rt)?, Arbiter::rotating(), 2)
}

/// Returns a write of one byte by process 0, a read of it by process 1, and a request for the bus by
/// slot 2.
fn events() -> [(usize, Event); 3]
    ensures process_count { All (λ e. e.0 < 2) result }
    ensures there { (m : Machine) → length m.boards ≡ 1 → All (λ e. IsThere m (target_of e.1)) result }
{
    let bytes = datum(&[0x7f]);
    let write = BoardCmd::LocalWrite { offset: 0, bytes };
    let read = BoardCmd::LocalRead { offset: 0, n: 1 };
    [
        (
            0,
            Event::Board {
                board: 0,
                cmd: write,
            },
        ),
        (
            1,
            Event::Board {
                board: 0,
                cmd: read,
            },
        ),
        (1, Event::Bus(ArbCmd::Ask { slot: 2, level: 3 })),
    ]
}

/// Checks the replies to the events of `events`.
fn check_replies(rt: &impl Abort, replies: &[EventReply]) {
    match replies {
        [
            EventReply::Board(Reply::Done),
            EventReply::Board(Reply::Bytes(read)),
            EventReply::Bus(ArbReply::Granted),
        ] => assert_eq!(rt; read.as_slice(), &[0x7f][..]),
        _ => panic!(rt; "{replies:?}"),
    }
}

/// Checks the counts of steps and the written byte after the events of `events`.
fn check_counts(rt: &impl Abort, core: &Core)
    requires boards { length core.now.boards ≡ 1 }
    requires process_count { process_count core.now ≡ 2 }
{
    let board = Target::Board(0);
    let counts = [
        core.steps(board),
        core.made(0, board),
        core.made(1, board),
        core.steps(Target::Bus),
        core.made(0, Target::Bus),
    ];
    assert_eq!(rt; counts, [2, 1, 1, 1, 0]);
    assert_eq!(rt; core.memory(0).byte(0), Some(0x7f));
}

#[test]
fn answers_events_in_order(rt: HostRuntime) {
    let Ok(mut core) = one_board(&rt) else {
        panic!(&rt; "no core")
    };
    let mut replies = Vec::new(rt.alloc());
    assert!(&rt; core.run(&events(), &mut replies).is_ok());
    check_replies(&rt, replies.as_slice());
    check_counts(&rt, &core);
}

/// Checks the end of a run of `events`, with the numbers of replies, of steps of the board and of
/// steps of the arbiter, and the written byte.
fn check_ran(rt: &impl Abort, ran: Result<(), RunStop>, counts: [u64; 4]) {
    let wanted = match ran {
        Ok(()) => [3, 2, 1, 0x7f],
        Err(_) => [0, 0, 0, 0],
    };
    assert!(rt; matches!(ran, Ok(()) | Err(RunStop::OutOfMemory)));
    assert_eq!(rt; counts, wanted);
}

/// Either all events are performed or, if an allocation fails, none.
#[test]
fn runs_all_events_or_none(rt: HostRuntime) {
    let Ok(mut core) = one_board(&rt) else {
        return;
    };
    let mut replies = Vec::new(rt.alloc());
    let ran = core.run(&events(), &mut replies);
    let counts = [
        replies.len() as u64,
        core.steps(Target::Board(0)),
        core.steps(Target::Bus),
        u64::from(core.memory(0).byte(0).unwrap_or(1)),
    ];
    check_ran(&rt, ran, counts);
}

/// Checks the reply of the arbiter to a command.
fn check_reply(rt: &impl Abort, reply: &Result<EventReply, Spent>, wanted: ArbReply) {
    match reply {
        Ok(EventReply::Bus(reply)) => assert_eq!(rt; *reply, wanted),
        other => panic!(rt; "{other:?}"),
    }
}

#[test]
fn applies_an_event(rt: HostRuntime) {
    let Ok(mut core) = one_board(&rt) else {
        panic!(&rt; "no core")
    };
    let look = Event::Bus(ArbCmd::Look { slot: 2 });
    check_reply(&rt, &core.apply(0, &look), ArbReply::Denied);
    assert_eq!(&rt; core.made(0, Target::Bus), 1);
}

/// Slot 9 gives the bus back while slot 1 waits on its level and slot 3 on the level below. Both
/// check.
static LOOKS: [(ArbCmd, ArbReply); 6] = [
    (ArbCmd::Ask { slot: 9, level: 3 }, ArbReply::Granted),
    (ArbCmd::Ask { slot: 1, level: 3 }, ArbReply::Waiting),
    (ArbCmd::Ask { slot: 3, level: 2 }, ArbReply::Waiting),
    (ArbCmd::Done { slot: 9 }, ArbReply::Freed),
    (ArbCmd::Look { slot: 1 }, ArbReply::Waiting),
    (ArbCmd::Look { slot: 3 }, ArbReply::Granted),
];

/// A core has the given arbiter. If an allocation fails, there is no core.
#[test]
fn takes_a_rotating_arbiter(rt: HostRuntime) {
    let Ok(mut core) = rotating(&rt) else {
        return;
    };
    for (cmd, wanted) in &LOOKS {
        check_reply(&rt, &core.apply(0, &Event::Bus(*cmd)), *wanted);
    }
}
