//! Why a file has no split file.
use std::alloc::AllocError;
use thiserror::Error;
use vme_script::ConfigFault;

/// Why a file has no split file. Its `Display` text is what is reported.
#[derive(Clone, Copy, Debug, PartialEq, Eq, Error)]
pub enum SplitFault {
    /// The file is no configuration.
    #[error("{0}")]
    Config(ConfigFault),
    /// The slot has no board.
    #[error("no board is in slot {slot}")]
    NoBoard { slot: u16 },
    /// A line that is to be split was not found in the file.
    #[error("line {number} of the script in slot {slot} is not found in the file")]
    NotFound { slot: u16, number: u16 },
    /// The split file would be refused, as where it has more lines than a script may have.
    #[error("the split file would be refused: {0}")]
    Refused(ConfigFault),
    /// An allocation failed.
    #[error("memory")]
    Memory,
}

impl From<ConfigFault> for SplitFault {
    fn from(fault: ConfigFault) -> SplitFault {
        match fault {
            ConfigFault::OutOfMemory => SplitFault::Memory,
            _ => SplitFault::Config(fault),
        }
    }
}

impl From<AllocError> for SplitFault {
    fn from(_error: AllocError) -> SplitFault {
        SplitFault::Memory
    }
}
