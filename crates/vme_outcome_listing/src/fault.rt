//! Why a run of the engine ends early.
ghost use Rattle.std.specs.Prelude.{◌≡◌};
ghost use Rattle.vme_engines.specs.declared.fault.ProgramFault.TheVariants.{Memory};
ghost use Rattle.vme_engines.specs.Faults.{fault_of_run};
ghost use Rattle.vme_outcome_listing.specs.declared.fault.OutcomesFault.TheVariants.{Program};
ghost use Rattle.vme_outcome_listing.specs.Ends.{fault_of_explore};

use std::alloc::AllocError;
use thiserror::Error;
use vme_engines::ProgramFault;
use vme_explore::ExploreFault;
use vme_report::RunFault;

/// Why a run ended early.
#[derive(Clone, Copy, Debug, PartialEq, Eq, Error)]
pub enum OutcomesFault {
    /// The input cannot be read, is too long or is not a configuration; the output cannot be
    /// written; or an allocation failed.
    #[error("{0}")]
    Program(ProgramFault),
    /// A line of the condition with this index can be in no outcome of the file.
    #[error("condition {0}")]
    Condition(usize),
    /// A script has no line at the place with this index of those that are kept.
    #[error("line {0}")]
    Line(usize),
    /// There are more states than the limit.
    #[error("limit")]
    Limit,
}

impl From<AllocError> for OutcomesFault {
    ghost from_gives = { λ _ end. end ≡ Program Memory };

    fn from(_error: AllocError) -> OutcomesFault {
        OutcomesFault::Program(ProgramFault::Memory)
    }
}

impl From<ProgramFault> for OutcomesFault {
    ghost from_gives = { λ fault end. end ≡ Program fault };

    fn from(fault: ProgramFault) -> OutcomesFault {
        OutcomesFault::Program(fault)
    }
}

impl From<RunFault> for OutcomesFault {
    ghost from_gives = { λ fault end. end ≡ Program (fault_of_run fault) };

    fn from(fault: RunFault) -> OutcomesFault {
        OutcomesFault::Program(ProgramFault::from(fault))
    }
}

impl From<ExploreFault> for OutcomesFault {
    ghost from_gives = { λ fault end. end ≡ fault_of_explore fault };

    fn from(fault: ExploreFault) -> OutcomesFault {
        match fault {
            ExploreFault::Limit => OutcomesFault::Limit,
            ExploreFault::Memory => OutcomesFault::Program(ProgramFault::Memory),
        }
    }
}
