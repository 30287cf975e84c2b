//! The engines of `bendrika check` and `bendrika cycles`: they read an input, find its faults and
//! warnings, and print each with its line and column, its message and its help.
//!
//! [`check_engine`] reads a configuration file, [`request_check_engine`] request lines. Each reads a
//! source of bytes, writes to a sink, and returns how many findings there are, or a fault.
//! [`findings_of`] and [`request_finding`] find without printing.
#![tactic(auto)]

mod check;
mod cycles;
mod device;
mod findings;
mod report;
mod texts;

pub use check::{CheckEnd, check_engine};
pub use cycles::request_check_engine;
pub use device::InputReader;
pub use findings::{RequestRefusal, findings_of, no_file_is_both, request_finding};
pub use report::{Counts, Form, shown_name, summary, unread};
pub use vme_faults::{
    BoardCause, BoardName, Cause, CycleCause, DataLength, DocumentCause, FileWarning, Finding,
    Lack, LineCause, LineForm, LineWarning, MailboxCause, ScheduleCause, Severity, TomlError,
    ValueKind, the_first_is_reported,
};
pub use vme_positions::{Key, Place, TableName};
