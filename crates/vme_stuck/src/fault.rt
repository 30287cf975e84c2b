//! Why a search for dead ends ends early.
ghost use Rattle.std.specs.Prelude.{◌≡◌};

use std::alloc::AllocError;
use thiserror::Error;
use vme_explore::ExploreFault;

/// Why a search for dead ends ended early.
#[derive(Clone, Copy, Debug, PartialEq, Eq, Error)]
pub enum StuckFault {
    /// More states were found than the limit allows.
    #[error("limit")]
    Limit,
    /// An allocation failed.
    #[error("memory")]
    Memory,
    /// The state after a turn is not found among the states. No configuration is known to lead here.
    #[error("a state is lost")]
    Lost,
}

impl From<AllocError> for StuckFault {
    fn from(_error: AllocError) -> StuckFault {
        StuckFault::Memory
    }
}

impl From<ExploreFault> for StuckFault {
    fn from(fault: ExploreFault) -> StuckFault {
        match fault {
            ExploreFault::Limit => StuckFault::Limit,
            ExploreFault::Memory => StuckFault::Memory,
        }
    }
}
