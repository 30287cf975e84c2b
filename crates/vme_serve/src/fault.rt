//! Why a session ends early.
ghost use Rattle.std.specs.Prelude.{◌≡◌};
ghost use Rattle.vme_serve.specs.declared.fault.SessionFault.TheVariants.{Memory, Write};

use std::alloc::AllocError;
use thiserror::Error;
use vme_io::Failed;

/// Why a session ended before the end of its input. Its `Display` text is what a program reports.
#[derive(Clone, Copy, Debug, PartialEq, Eq, Error)]
pub enum SessionFault {
    /// An allocation failed.
    #[error("memory")]
    Memory,
    /// The input cannot be read.
    #[error("read")]
    Read,
    /// The output cannot be written.
    #[error("write")]
    Write,
    /// A line has 2^64 - 1 bytes or more, or the input as many lines.
    #[error("too long")]
    TooLong,
}

impl From<AllocError> for SessionFault {
    ghost from_gives = { λ _ fault. fault ≡ Memory };

    fn from(_error: AllocError) -> SessionFault {
        SessionFault::Memory
    }
}

impl From<Failed> for SessionFault {
    ghost from_gives = { λ _ fault. fault ≡ Write };

    fn from(_failed: Failed) -> SessionFault {
        SessionFault::Write
    }
}
