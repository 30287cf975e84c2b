//! Why a text is no bus log.
use std::fmt;

/// Why a line is none of a bus log. Its `Display` text is what a program reports.
#[derive(Clone, Copy, Debug, PartialEq, Eq)]
pub enum LogFault {
    /// The line has more than 255 bytes before its comment.
    LineTooLong,
    /// The first word after the time is none of a datum or an access.
    NoEntry,
    /// The line ends before its last word.
    Missing(&'static str),
    /// A word is not the one that has this name.
    BadWord(&'static str),
    /// There is a word after the last one.
    MoreWords,
}

impl fmt::Display for LogFault {
    ghost use Rattle.std.specs.Prelude.{Some};
    ghost use Rattle.vme_bus_log.specs.FaultTexts.{fault_text};

    ghost output = { λ fault. Some (fault_text fault) };

    fn fmt<W: fmt::Write>(&self, f: &mut fmt::Formatter<W>) -> fmt::Result {
        match self {
            LogFault::LineTooLong => f.write_str("a line of more than 255 bytes"),
            LogFault::NoEntry => f.write_str(
                "no line of a bus log: it has neither `n=` nor `lp` after the time",
            ),
            LogFault::Missing(name) => write!(f, "the line ends before `{name}`"),
            LogFault::BadWord(name) => write!(f, "expected `{name}`, and a value that it takes"),
            LogFault::MoreWords => f.write_str("more words than a line of a bus log has"),
        }
    }
}

impl std::error::Error for LogFault {}
