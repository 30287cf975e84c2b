//! Why a text is no dump in which the lines of a bus can be read.
ghost use Rattle.std.specs.Prelude.{◌≡◌};
ghost use Rattle.vme_vcd_reader.specs.declared.fault.VcdFault.TheVariants.{Memory};
ghost use Rattle.vme_vcd_reader.specs.FaultTexts.{fault_text, wanted_of};

use std::alloc::{AllocError, AllocFailed};

/// Why a text is no dump in which the lines of a bus can be read. A number is the index of a wanted
/// variable in the map.
#[derive(Clone, Copy, Debug, PartialEq, Eq)]
pub enum VcdFault {
    /// A word of the header is not after a keyword.
    NoKeyword,
    /// A word that is read has more than 255 bytes.
    WordTooLong,
    /// More than 64 scopes are open.
    ScopesTooDeep,
    /// A scope ends that is not open.
    NoScope,
    /// `$var` without a size, an identifier and a name.
    BadVariable,
    /// More variables are mapped than are kept.
    TooManyMapped,
    /// The dump lacks a variable that somebody named.
    Absent(u16),
    /// Several variables have the name.
    Ambiguous(u16),
    /// The variable has more than 64 bits, or other bits than the map says.
    BadWidth(u16),
    /// The dump lacks lines without which nothing is judged.
    LacksLines(u16),
    /// A time that is no number below 2^64.
    BadTime,
    /// A time below the one before it.
    TimeFalls,
    /// A level or digit of a vector that no dump has.
    BadValue,
    /// A value without the identifier of a variable.
    NoIdentifier,
    /// A word that is no change, time or keyword.
    UnknownWord,
    /// The text ends in the header.
    EndsInHeader,
    /// The text ends in a change.
    EndsInChange,
    /// An allocation failed.
    Memory,
}

impl VcdFault {
    /// Returns what a program reports.
    pub fn text(self) -> &'static str
        ensures { result.now ≡ fault_text self }
    {
        match self {
            VcdFault::NoKeyword => "no header of a dump: expected a keyword such as `$var`",
            VcdFault::WordTooLong => "a word of more than 255 bytes",
            VcdFault::ScopesTooDeep => "more than 64 scopes are open",
            VcdFault::NoScope => "no scope is open here",
            VcdFault::BadVariable => "expected `$var KIND SIZE IDENTIFIER NAME $end`",
            VcdFault::TooManyMapped => "more than 1000 variables are mapped",
            VcdFault::Absent(_) => "no variable has this name",
            VcdFault::Ambiguous(_) => "several variables have this name; write more of its path",
            VcdFault::BadWidth(_) => "the variable has other bits, or more than 64",
            VcdFault::LacksLines(_) =>
                "the dump lacks this line; `--lines` says which variable it is",
            VcdFault::BadTime => "no time below 2^64",
            VcdFault::TimeFalls => "the time falls",
            VcdFault::BadValue => "no level of a line",
            VcdFault::NoIdentifier => "a value without the identifier of a variable",
            VcdFault::UnknownWord => "no change, time or keyword",
            VcdFault::EndsInHeader => "the text ends before `$enddefinitions $end`",
            VcdFault::EndsInChange => "the text ends in a change",
            VcdFault::Memory => "memory",
        }
    }

    /// Returns the index of the wanted variable that it is about.
    pub fn wanted(self) -> Option<u16>
        ensures { result ≡ wanted_of self }
    {
        match self {
            VcdFault::Absent(index)
            | VcdFault::Ambiguous(index)
            | VcdFault::BadWidth(index)
            | VcdFault::LacksLines(index) => Some(index),
            _ => None,
        }
    }
}

impl From<AllocError> for VcdFault {
    ghost from_gives = { λ _ fault. fault ≡ Memory };

    fn from(_error: AllocError) -> VcdFault {
        VcdFault::Memory
    }
}

impl<T: Drop> From<AllocFailed<T>> for VcdFault {
    ghost from_gives = { λ _ fault. fault ≡ Memory };

    fn from(_error: AllocFailed<T>) -> VcdFault {
        VcdFault::Memory
    }
}
