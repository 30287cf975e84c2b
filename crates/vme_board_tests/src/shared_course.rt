//! The boards of the tests of locks and mailboxes, and the driver that leads a task through a list
//! of cycles and replies.
use crate::support::{ASK, DONE, FREED, GRANTED, Given, LOOK, WAITING, datum, replied, signals_of};
use std::process::Abort;
use vme_am::Space;
use vme_arbiter::ArbCmd;
use vme_core::{Event, EventReply};
use vme_cycle::{Modify, Request};
use vme_decode::Entry;
use vme_memory::BoardCmd;
use vme_shared::{LockTask, Mailbox, PutTask, SharedOutcome, SharedTodo, TakeTask};

/// Two boards. The second has 64 bytes from address 1000 hex up.
pub static BOARDS: [Entry; 2] = [
    Entry {
        space: Space::A32,
        base: 0,
        size: 16,
        supervisory: false,
    },
    Entry {
        space: Space::A32,
        base: BASE,
        size: 64,
        supervisory: false,
    },
];

const BASE: u32 = 0x1000;

/// The offset of the mailbox, and so of its lock, in the second board. The counts of the mailbox are
/// at 12 and 16, its words at 24 and 28.
const LOCK_AT: u32 = 8;

pub const MAILBOX: Mailbox = Mailbox {
    am: 0x0d,
    addr: 0x1008,
    slots: 2,
};

/// A cycle on the second board, at the lock or at an offset.
#[derive(Clone, Copy, Debug)]
pub enum Cycle {
    /// The read-modify-write of the lock.
    Set,
    /// The write of zero to the lock.
    Clear,
    /// A read of four bytes.
    Read(u32),
    /// A write of these bytes.
    Write(u32, [u8; 4]),
}

/// The cycles of a task, each with the reply to it.
pub type Course = &'static [(Cycle, Given)];

impl Cycle {
    fn offset(self) -> u32 {
        match self {
            Cycle::Set | Cycle::Clear => LOCK_AT,
            Cycle::Read(at) | Cycle::Write(at, _) => at,
        }
    }

    fn request(self) -> Request {
        let am = MAILBOX.am;
        let addr = BASE.wrapping_add(self.offset());
        match self {
            Cycle::Set => Request::Modify {
                am,
                addr,
                n: 1,
                f: Modify::Set,
            },
            Cycle::Clear => write(am, addr, &[0]),
            Cycle::Read(_) => Request::Read { am, addr, n: 4 },
            Cycle::Write(_, bytes) => write(am, addr, &bytes),
        }
    }

    /// Returns the command of the cycle.
    fn command(self, rt: &impl Abort) -> BoardCmd {
        let f = match self {
            Cycle::Set => Some(Modify::Set),
            _ => None,
        };
        BoardCmd::Cycle {
            signals: signals_of(rt, &self.request()),
            at: self.offset(),
            f,
        }
    }
}

fn write(am: u8, addr: u32, bytes: &[u8]) -> Request {
    let bytes = datum(bytes);
    Request::Write { am, addr, bytes }
}

/// A task of a lock or a mailbox.
pub trait SharedMachine {
    fn call(&mut self, given: Option<EventReply>) -> SharedTodo;
}

impl<'a> SharedMachine for LockTask<'a> {
    fn call(&mut self, given: Option<EventReply>) -> SharedTodo {
        self.next(given)
    }
}

impl<'a> SharedMachine for PutTask<'a> {
    fn call(&mut self, given: Option<EventReply>) -> SharedTodo {
        self.next(given)
    }
}

impl<'a> SharedMachine for TakeTask<'a> {
    fn call(&mut self, given: Option<EventReply>) -> SharedTodo {
        self.next(given)
    }
}

/// Checks that a task's next step is this command to the arbiter.
pub fn expect_arb_command(rt: &impl Abort, todo: &SharedTodo, wanted: ArbCmd) {
    match todo {
        SharedTodo::Call(Event::Bus(cmd)) => assert_eq!(rt; *cmd, wanted),
        _ => panic!(rt; "no command to the arbiter"),
    }
}

/// Checks that a task's next step is this cycle.
fn expect_cycle(rt: &impl Abort, todo: &SharedTodo, wanted: Cycle) {
    match todo {
        SharedTodo::Call(Event::Board { board, cmd }) => {
            assert_eq!(rt; *board, 1);
            assert_eq!(rt; *cmd, wanted.command(rt));
        }
        _ => panic!(rt; "no cycle"),
    }
}

/// Returns the outcome of a task that has ended.
pub fn expect_end(rt: &impl Abort, todo: &SharedTodo) -> SharedOutcome {
    match todo {
        SharedTodo::Finished(outcome) => *outcome,
        SharedTodo::Call(_) => panic!(rt; "not ended"),
    }
}

/// Leads a task through one cycle, a transfer of its own. `given` is the reply to the call before.
fn lead(
    rt: &impl Abort,
    task: &mut impl SharedMachine,
    given: Given,
    cycle: Cycle,
    answered: Given,
) {
    expect_arb_command(rt, &task.call(replied(given)), ASK);
    expect_arb_command(rt, &task.call(replied(WAITING)), LOOK);
    expect_cycle(rt, &task.call(replied(GRANTED)), cycle);
    expect_arb_command(rt, &task.call(replied(answered)), DONE);
}

/// Leads a task of slot 2 on level 3 through its cycles, each a transfer of its own, and returns
/// its outcome. A further call has the same outcome.
pub fn outcome(rt: &impl Abort, task: &mut impl SharedMachine, course: Course) -> SharedOutcome {
    let mut given = Given::Nothing;
    for (cycle, answered) in course {
        lead(rt, task, given, *cycle, *answered);
        given = FREED;
    }
    let first = expect_end(rt, &task.call(replied(given)));
    let again = expect_end(rt, &task.call(replied(GRANTED)));
    assert_eq!(rt; first, again);
    first
}
