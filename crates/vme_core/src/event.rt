ghost use Rattle.std.specs.Prelude.{◌≡◌};
ghost use Rattle.vme_core.specs.Calls.{call_of};
ghost use Rattle.vme_core.specs.EventRefs.{call_asked};

use crate::datum::DatumCycle;
use vme_arbiter::{ArbCmd, ArbReply};
use vme_memory::{BoardCmd, Reply};

/// A command to one of the boards, or to the arbiter of their bus.
#[derive(Debug, Drop)]
pub enum Event {
    /// A command to the board with this index.
    Board { board: usize, cmd: BoardCmd },
    /// A command to the arbiter.
    Bus(ArbCmd),
}

/// An event by reference: a borrowed command to one of the boards, a datum of a transfer without
/// the lines of its cycle, or a command to the arbiter.
#[derive(Debug, Drop)]
pub enum EventRef<'a> {
    /// A command to the board with this index.
    Board { board: usize, cmd: &'a BoardCmd },
    /// A datum of a transfer to the board with this index.
    Datum { board: usize, cycle: DatumCycle<'a> },
    /// A command to the arbiter.
    Bus(ArbCmd),
}

impl EventRef<'_> {
    /// Returns the event as a value. A datum becomes its cycle, with the signals computed.
    pub fn to_event(&self) -> Event
        ensures { call_of result ≡ call_asked self.now }
    {
        match self {
            EventRef::Board { board, cmd } => Event::Board {
                board: *board,
                cmd: cmd.copy(),
            },
            EventRef::Datum { board, cycle } => Event::Board {
                board: *board,
                cmd: cycle.to_command(),
            },
            EventRef::Bus(cmd) => Event::Bus(*cmd),
        }
    }
}

/// The reply to an event.
#[derive(Debug, Drop)]
pub enum EventReply {
    /// The reply of a board.
    Board(Reply),
    /// The reply of the arbiter.
    Bus(ArbReply),
}

/// The object that takes an event: the board with this index, or the arbiter.
#[derive(Clone, Copy, Debug, PartialEq, Eq)]
pub enum Target {
    /// The board with this index.
    Board(usize),
    /// The arbiter.
    Bus,
}
