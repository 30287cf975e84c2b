//! Why a run of the program ends early, and its exit status.
ghost use Rattle.std.specs.Prelude.{◌≡◌};
ghost use Rattle.vme_engines.specs.declared.fault.ProgramFault.TheVariants.{Memory};
ghost use Rattle.vme_engines.specs.Faults.{exit_status_of, fault_of_run};

use std::alloc::AllocError;
use thiserror::Error;
use vme_report::RunFault;
use vme_script::ConfigFault;
use vme_shared::Status;

/// Why a run ended early. Its `Display` text is what the program reports.
#[derive(Clone, Copy, Debug, PartialEq, Eq, Error)]
pub enum ProgramFault {
    /// F1: the input cannot be read.
    #[error("read")]
    Read,
    /// F2: the input is longer than its limit.
    #[error("too long")]
    TooLong,
    /// F3: the output cannot be written.
    #[error("write")]
    Write,
    /// F4: an allocation failed.
    #[error("memory")]
    Memory,
    /// F5: a thread could not be started.
    #[error("thread")]
    Thread,
    /// F6: an object has taken as many steps as can be counted.
    #[error("spent")]
    Spent,
    /// The input is not a configuration, with its refusal.
    #[error("{0}")]
    Config(ConfigFault),
}

impl From<AllocError> for ProgramFault {
    ghost from_gives = { λ _ fault. fault ≡ Memory };

    fn from(_error: AllocError) -> ProgramFault {
        ProgramFault::Memory
    }
}

impl From<RunFault> for ProgramFault {
    ghost from_gives = { λ fault program_fault. program_fault ≡ fault_of_run fault };

    fn from(fault: RunFault) -> ProgramFault {
        match fault {
            RunFault::Thread => ProgramFault::Thread,
            RunFault::Memory => ProgramFault::Memory,
            RunFault::Spent => ProgramFault::Spent,
            RunFault::Write => ProgramFault::Write,
        }
    }
}

/// Returns the program's exit status for the end of a run: 0 for `Clean`, 1 for `Marked`, 2 if the
/// input is not a configuration, and 3 after any other fault.
pub fn exit_status(end: &Result<Status, ProgramFault>) -> u8
    ensures status { result ≡ exit_status_of end.now }
{
    match end {
        Ok(Status::Clean) => 0,
        Ok(Status::Marked) => 1,
        Err(ProgramFault::Config(_)) => 2,
        Err(_) => 3,
    }
}
