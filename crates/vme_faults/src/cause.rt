//! The causes of findings. A cause has the values that its text names, and allocates nothing.
ghost use Rattle.std.specs.Prelude.{◌≡◌};
ghost use Rattle.vme_faults.specs.Causes.{refusal_of, severity_of};

mod cycle;
mod document;
mod line;
mod place;
mod warning;

pub use cycle::CycleCause;
pub use document::{DocumentCause, TomlError, ValueKind};
pub use line::{DataLength, LineCause, LineForm};
use vme_positions::Place;
use vme_script::ConfigFault;
pub use vme_script::{BoardCause, BoardName, MailboxCause, ScheduleCause};
pub use warning::{FileWarning, Lack, LineWarning};

/// Whether a finding is an error or a warning.
#[derive(Clone, Copy, Debug, PartialEq, Eq)]
pub enum Severity {
    /// The file or the request line is refused.
    Error,
    /// The file or the request line is lawful, and probably not what was meant.
    Warning,
}

/// What is wrong.
#[derive(Clone, Copy, Debug, PartialEq, Eq)]
pub enum Cause {
    /// A fault of the document: C6, C7, C11 and C4.
    Document(DocumentCause),
    /// A fault of a board: C8, C9, C10, C5, C3, C2 and C1.
    Board(BoardCause),
    /// A fault of the arbiter or of the turns: C10 and C12.
    Schedule(ScheduleCause),
    /// A fault of a mailbox: C13.
    Mailbox(MailboxCause),
    /// A fault of a script's line: C14. `slot` is that of the script's board, or `None` if that
    /// slot is absent or refused. `line` is the number of the line, from 1.
    Script {
        slot: Option<u16>,
        line: u16,
        cause: LineCause,
    },
    /// The refusal of the file, without values and without a place, if no fault that was found has
    /// this refusal.
    Refused(ConfigFault),
    /// A warning of a file's turns, mailboxes or numbers.
    File(FileWarning),
    /// A warning of a script's line, with the slot of its board and its number from 1.
    Line {
        slot: u16,
        line: u16,
        warning: LineWarning,
    },
    /// A request line that is refused by the grammar: S1 to S7.
    RequestLine(LineCause),
    /// A request line whose request is refused: K1 to K9.
    RequestCycle(CycleCause),
    /// A request line whose code or address does not select the board of `vme cycles`: a warning.
    RequestBoard,
}

impl Cause {
    /// Returns whether the cause is an error or a warning.
    pub fn severity(self) -> Severity
        ensures { result ≡ severity_of self }
    {
        match self {
            Cause::File(_) | Cause::Line { .. } | Cause::RequestBoard => Severity::Warning,
            Cause::Document(_)
            | Cause::Board(_)
            | Cause::Schedule(_)
            | Cause::Mailbox(_)
            | Cause::Script { .. }
            | Cause::Refused(_)
            | Cause::RequestLine(_)
            | Cause::RequestCycle(_) => Severity::Error,
        }
    }

    /// Returns the number of the refusal, as `C7`, or the name of the warning, as `no-turns`. A
    /// script's line has the number of the line's refusal, as `S4`. A line whose request is always
    /// refused is a warning with the number of that refusal, as `K8`.
    pub fn code(self) -> &'static str {
        match self {
            Cause::Document(cause) => cause.refusal().code(),
            Cause::Board(cause) => cause.refusal().code(),
            Cause::Schedule(cause) => cause.refusal().code(),
            Cause::Mailbox(cause) => cause.refusal().code(),
            Cause::Script { cause, line, .. } => cause.refusal(line).code(),
            Cause::RequestLine(cause) => cause.refusal(1).code(),
            Cause::Refused(fault) => fault.code(),
            Cause::File(warning) => warning.name(),
            Cause::Line { warning, .. } => warning.name(),
            Cause::RequestCycle(cause) => cause.code(),
            Cause::RequestBoard => "no-answer",
        }
    }

    /// Returns the refusal of a file whose first fault this is; `None` for a warning and for a
    /// request line.
    ///
    /// The refusal of a script has the slot 0 if the slot of its board is absent or refused. In
    /// such a file another fault comes first.
    pub fn refusal(self) -> Option<ConfigFault>
        ensures { result ≡ refusal_of self }
    {
        match self {
            Cause::Document(cause) => Some(cause.refusal()),
            Cause::Board(cause) => Some(cause.refusal()),
            Cause::Schedule(cause) => Some(cause.refusal()),
            Cause::Mailbox(cause) => Some(cause.refusal()),
            Cause::Script { slot, line, cause } => Some(ConfigFault::BadScript {
                slot: slot.unwrap_or(0),
                refusal: cause.refusal(line),
            }),
            Cause::Refused(fault) => Some(fault),
            Cause::File(_)
            | Cause::Line { .. }
            | Cause::RequestLine(_)
            | Cause::RequestCycle(_)
            | Cause::RequestBoard => None,
        }
    }

    /// Returns the other place that the text of the cause names, if there is one: that of an
    /// earlier board or mailbox.
    pub fn other_place(self) -> Option<Place> {
        match self {
            Cause::Board(cause) => place::other_board(cause),
            Cause::Mailbox(cause) => place::other_mailbox(cause),
            _ => None,
        }
    }
}
