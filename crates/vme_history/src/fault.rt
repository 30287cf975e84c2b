//! Why a text is no log, and why a search comes to no end.
ghost use Rattle.std.specs.Prelude.{◌≡◌};
ghost use Rattle.vme_history.specs.declared.fault.HistoryFault.TheVariants.{Memory};

use std::alloc::AllocError;
use thiserror::Error;
use vme_explore::ExploreFault;
use vme_grammar::LineFault;

/// Why a search comes to no end.
#[derive(Clone, Copy, Debug, PartialEq, Eq)]
pub enum HistoryFault {
    /// More stages were found than the limit allows.
    Limit,
    /// An allocation failed.
    Memory,
}

impl From<AllocError> for HistoryFault {
    ghost from_gives = { λ _ fault. fault ≡ Memory };

    fn from(_error: AllocError) -> HistoryFault {
        HistoryFault::Memory
    }
}

impl From<ExploreFault> for HistoryFault {
    fn from(fault: ExploreFault) -> HistoryFault {
        match fault {
            ExploreFault::Limit => HistoryFault::Limit,
            ExploreFault::Memory => HistoryFault::Memory,
        }
    }
}

/// What is wrong with a line of a log. Its `Display` text is what a program reports.
#[derive(Clone, Copy, Debug, PartialEq, Eq, Error)]
pub enum LogProblem {
    /// The line has no ` -> `, or nothing after it.
    #[error("no `SLOT LINE -> REPLY`")]
    NoReply,
    /// The line does not begin with the slot of a board and a space.
    #[error("no slot of a board")]
    NoBoard,
    /// What follows the slot requests nothing.
    #[error("no request")]
    Nothing,
    /// What follows the slot is refused as a line of a script.
    #[error("{0}")]
    Refused(LineFault),
    /// An attempt at the line may access a board more than once.
    #[error("a block, a put or a take, which is not judged: it accesses boards more than once")]
    Several,
}

/// Why a text is no log.
#[derive(Clone, Copy, Debug, PartialEq, Eq)]
pub enum LogFault {
    /// The line with this number is none of a log.
    Line(usize, LogProblem),
    /// An allocation failed.
    Memory,
}
