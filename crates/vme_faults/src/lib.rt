//! The faults of a configuration file and of its lines that can be distinguished, and the warnings
//! of a lawful file.
//!
//! A [`Finding`] is a cause, with the values that its text names, and its place in the document. The
//! crate writes no texts and counts no columns. C1 to C14, K1 to K9 and S1 to S9 are the refusals of
//! a file, of a request and of a line, with the numbers of `docs/GUIDE.md`.
#![tactic(auto)]

mod cause;
mod collect;
mod cycle;
mod fields;
mod finding;
mod form;
mod laws;
mod mailboxes;
mod ranges;
mod schedule;
mod script;
mod section;
mod tables;
mod warnings;
mod words;

pub use cause::{
    BoardCause, BoardName, Cause, CycleCause, DataLength, DocumentCause, FileWarning, Lack,
    LineCause, LineForm, LineWarning, MailboxCause, ScheduleCause, Severity, TomlError, ValueKind,
};
pub use collect::faults_of;
pub use cycle::{faulty_word, request_cause};
pub use fields::{LocatedCause, cause_of};
pub use finding::{Finding, find};
pub use form::form_of;
pub use laws::the_first_is_reported;
pub use warnings::warnings_of;
pub use words::{WordSpan, span_of};
