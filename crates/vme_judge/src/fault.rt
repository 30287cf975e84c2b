//! How a judgement ends.
ghost use Rattle.std.specs.Prelude.{◌≡◌};
ghost use Rattle.vme_judge.specs.declared.fault.JudgeFault.TheVariants.{Memory, Write};

use std::alloc::AllocError;
use thiserror::Error;
use vme_io::Failed;

/// How a judgement ended.
#[derive(Clone, Copy, Debug, PartialEq, Eq)]
pub enum Status {
    /// The trace is legal.
    Legal,
    /// It is not.
    Illegal,
    /// The text is no trace, or there is nothing in it that can be judged.
    Rejected,
}

/// Why a judgement came to no end. Its `Display` text is what a program reports.
#[derive(Clone, Copy, Debug, PartialEq, Eq, Error)]
pub enum JudgeFault {
    /// The trace cannot be read.
    #[error("read")]
    Read,
    /// The output cannot be written.
    #[error("write")]
    Write,
    /// An allocation failed.
    #[error("memory")]
    Memory,
    /// The trace has 2^64 - 1 pieces or more.
    #[error("too long")]
    TooLong,
}

impl From<AllocError> for JudgeFault {
    ghost from_gives = { λ _ fault. fault ≡ Memory };

    fn from(_error: AllocError) -> JudgeFault {
        JudgeFault::Memory
    }
}

impl From<Failed> for JudgeFault {
    ghost from_gives = { λ _ fault. fault ≡ Write };

    fn from(_failed: Failed) -> JudgeFault {
        JudgeFault::Write
    }
}
