//! Why a text is no map of lines.
ghost use Rattle.std.specs.Prelude.{◌≡◌};
ghost use Rattle.vme_line_map.specs.declared.fault.LinesFault.TheVariants.{Memory};

use std::alloc::{AllocError, AllocFailed};
use thiserror::Error;

/// What is wrong with the value of a key. Its `Display` text is what a program reports.
#[derive(Clone, Copy, Debug, PartialEq, Eq, Error)]
pub enum LinesProblem {
    #[error("no such key")]
    UnknownKey,
    #[error("expected a text, the name of a variable")]
    NotText,
    #[error("expected a table")]
    NotTable,
    #[error("expected a slot, 1 to 21")]
    NotSlot,
    #[error("expected a name of 1 to 255 bytes")]
    BadName,
    #[error("expected `{{FIRST..LAST}}` with two numbers of lines")]
    BadRange,
    #[error("expected `[N]` or `[N:M]` with numbers below 65536")]
    BadBits,
    #[error("more bits than there are lines")]
    TooManyBits,
    #[error("more than 500 variables are mapped")]
    TooMany,
}

/// Why a text is no map of lines.
#[derive(Clone, Copy, Debug, PartialEq, Eq)]
pub enum LinesFault {
    /// The text is not UTF-8, or not TOML.
    NotToml,
    /// The problem of a key of `[lines]` (slot 0) or of `[slot.N]`. The key is its first bytes.
    Key {
        slot: u8,
        key: [u8; 16],
        problem: LinesProblem,
    },
    /// An allocation failed.
    Memory,
}

impl From<AllocError> for LinesFault {
    ghost from_gives = { λ _ fault. fault ≡ Memory };

    fn from(_error: AllocError) -> LinesFault {
        LinesFault::Memory
    }
}

impl<T: Drop> From<AllocFailed<T>> for LinesFault {
    ghost from_gives = { λ _ fault. fault ≡ Memory };

    fn from(_error: AllocFailed<T>) -> LinesFault {
        LinesFault::Memory
    }
}
