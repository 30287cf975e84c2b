//! The faults of a report and of a run of scripts.
ghost use Rattle.std.specs.Prelude.{◌≡◌};
ghost use Rattle.vme_report.specs.declared.fault.RunFault.TheVariants.{Memory, Write};

use std::alloc::AllocError;
use thiserror::Error;
use vme_io::Failed;

/// Why a run of scripts has no report, or ended before all of it was written.
#[derive(Clone, Copy, Debug, PartialEq, Eq, Error)]
pub enum RunFault {
    /// U1: a thread could not be started.
    #[error("U1")]
    Thread,
    /// U2: an allocation failed.
    #[error("U2")]
    Memory,
    /// U3: an object has taken as many steps as can be counted.
    #[error("U3")]
    Spent,
    /// U4: the sink failed.
    #[error("U4")]
    Write,
}

impl From<AllocError> for RunFault {
    ghost from_gives = { λ _ fault. fault ≡ Memory };

    fn from(_error: AllocError) -> RunFault {
        RunFault::Memory
    }
}

impl From<Failed> for RunFault {
    ghost from_gives = { λ _ fault. fault ≡ Write };

    fn from(_failed: Failed) -> RunFault {
        RunFault::Write
    }
}
