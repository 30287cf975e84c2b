//! The refusals of configurations and of scripts.
ghost use Rattle.std.specs.Prelude.{◌≡◌};
ghost use Rattle.vme_script.specs.declared.fault.ConfigFault.TheVariants.{OutOfMemory};
ghost use Rattle.vme_script.specs.declared.fault.ScriptFault.TheVariants as script;
ghost use Rattle.vme_script.specs.Answers.{as_config_fault};

use std::alloc::{AllocError, AllocFailed};
use thiserror::Error;
use vme_config_toml::DocumentFault;
use vme_grammar::LineFault;

/// Why a text is not a configuration. Its `Display` text begins with the number of the refusal. The
/// text of `OutOfMemory` is `memory`.
///
/// The variants are in the order in which they are checked, except `OutOfMemory`. The word of the
/// arbiter is checked after `Overlap`.
#[derive(Clone, Copy, Debug, PartialEq, Eq, Error)]
pub enum ConfigFault {
    /// C6: the text is not TOML.
    #[error("C6")]
    NotToml,
    /// C7: a key is unknown, a required key is absent, a value has another kind, or a whole number
    /// is below 0 or above 2^32 - 1.
    #[error("C7")]
    BadKey,
    /// C11: there is no board.
    #[error("C11")]
    NoBoard,
    /// C4: there are more than 21 boards.
    #[error("C4")]
    TooMany,
    /// C8: a slot is not from 1 to 21, or not above the slot of the board before.
    #[error("C8")]
    BadSlot,
    /// C9: a request level is above 3.
    #[error("C9")]
    BadLevel,
    /// C10: a word does not name a space or an arbiter, no slave has the width, or a slave of fewer
    /// than 32 data lines has unaligned transfers.
    #[error("C10")]
    BadWord,
    /// C5: a size is not from 4 to 1,048,576 bytes, or not a multiple of four.
    #[error("C5")]
    BadSize,
    /// C3: a base is not a multiple of four.
    #[error("C3")]
    Misaligned,
    /// C2: a range goes past the last address of its space.
    #[error("C2")]
    OutsideSpace,
    /// C1: two boards of one space share an address.
    #[error("C1")]
    Overlap,
    /// C12: tries, rounds or turns are out of range, or a turn is that of a slot without a board.
    #[error("C12")]
    BadSchedule,
    /// C13: there are more than 16 mailboxes; or a mailbox has a code other than those of data and
    /// short access, an address that is not a multiple of four, or a number of slots that is not
    /// from 1 to 64; or its bytes are not wholly within one board that its code selects; or that
    /// board has no quad bytes or no read-modify-writes; or it shares a byte with an earlier
    /// mailbox.
    #[error("C13")]
    BadMailbox,
    /// C14: a script is refused, with the slot of its board.
    #[error("C14 slot {slot} {refusal}")]
    BadScript { slot: u16, refusal: ScriptRefusal },
    /// An allocation failed.
    #[error("memory")]
    OutOfMemory,
}

impl ConfigFault {
    /// Returns the number of the refusal, as `C7`; of a script that of its line's refusal, as `S4`.
    pub fn code(self) -> &'static str {
        match self {
            ConfigFault::NotToml => "C6",
            ConfigFault::BadKey => "C7",
            ConfigFault::NoBoard => "C11",
            ConfigFault::TooMany => "C4",
            ConfigFault::BadSlot => "C8",
            ConfigFault::BadLevel => "C9",
            ConfigFault::BadWord => "C10",
            ConfigFault::BadSize => "C5",
            ConfigFault::Misaligned => "C3",
            ConfigFault::OutsideSpace => "C2",
            ConfigFault::Overlap => "C1",
            ConfigFault::BadSchedule => "C12",
            ConfigFault::BadMailbox => "C13",
            ConfigFault::BadScript { refusal, .. } => refusal.code(),
            ConfigFault::OutOfMemory => "memory",
        }
    }
}

impl From<AllocError> for ConfigFault {
    ghost from_gives = { λ _ fault. fault ≡ OutOfMemory };

    fn from(_error: AllocError) -> ConfigFault {
        ConfigFault::OutOfMemory
    }
}

impl<T: Drop> From<AllocFailed<T>> for ConfigFault {
    ghost from_gives = { λ _ fault. fault ≡ OutOfMemory };

    fn from(_error: AllocFailed<T>) -> ConfigFault {
        ConfigFault::OutOfMemory
    }
}

impl From<DocumentFault> for ConfigFault {
    ghost from_gives = { λ fault refusal. refusal ≡ as_config_fault fault };

    fn from(fault: DocumentFault) -> ConfigFault {
        match fault {
            DocumentFault::NotToml => ConfigFault::NotToml,
            DocumentFault::BadKey => ConfigFault::BadKey,
            DocumentFault::OutOfMemory => ConfigFault::OutOfMemory,
        }
    }
}

/// Why a text is not a script. Its `Display` text is the number of the line and that of the
/// refusal.
#[derive(Clone, Copy, Debug, PartialEq, Eq, Error)]
pub enum ScriptRefusal {
    /// S1 to S7, S9: a line is refused, with its number from 1. In a file, S6 also refuses a line
    /// that names an undeclared mailbox, and S9 a line that accesses bytes of a declared one.
    #[error("line {number} {fault}")]
    BadLine { number: u16, fault: LineFault },
    /// S8: the text has more than 1,000 lines. The text of the fault names line 1001, the first
    /// line over the limit.
    #[error("line 1001 S8")]
    TooManyLines,
}

impl ScriptRefusal {
    /// Returns the number of the refusal, as `S4`.
    pub fn code(self) -> &'static str {
        match self {
            ScriptRefusal::TooManyLines => "S8",
            ScriptRefusal::BadLine { fault, .. } => match fault {
                LineFault::LineTooLong => "S1",
                LineFault::UnknownWord => "S2",
                LineFault::WordCount => "S3",
                LineFault::BadCode => "S4",
                LineFault::BadAddress => "S5",
                LineFault::BadNumber => "S6",
                LineFault::BadBytes => "S7",
                LineFault::MailboxBytes => "S9",
            },
        }
    }
}

/// Why there is no script of a text.
#[derive(Clone, Copy, Debug, PartialEq, Eq, Error)]
pub enum ScriptFault {
    /// The text is refused.
    #[error("{0}")]
    Refused(ScriptRefusal),
    /// An allocation failed.
    #[error("memory")]
    OutOfMemory,
}

impl From<ScriptRefusal> for ScriptFault {
    ghost from_gives = { λ refusal fault. fault ≡ script.Refused refusal };

    fn from(refusal: ScriptRefusal) -> ScriptFault {
        ScriptFault::Refused(refusal)
    }
}

impl From<AllocError> for ScriptFault {
    ghost from_gives = { λ _ fault. fault ≡ script.OutOfMemory };

    fn from(_error: AllocError) -> ScriptFault {
        ScriptFault::OutOfMemory
    }
}

impl<T: Drop> From<AllocFailed<T>> for ScriptFault {
    ghost from_gives = { λ _ fault. fault ≡ script.OutOfMemory };

    fn from(_error: AllocFailed<T>) -> ScriptFault {
        ScriptFault::OutOfMemory
    }
}
