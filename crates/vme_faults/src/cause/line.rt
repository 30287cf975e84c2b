//! Faults of a line.
ghost use Rattle.std.specs.Prelude.{◌≡◌};
ghost use Rattle.vme_faults.specs.Causes.{line_fault, script_refusal};

use vme_script::{BoardName, LineFault, ScriptRefusal};

/// The form of a line: its command, and the function of a read-modify-write if it is known.
#[derive(Clone, Copy, Debug, PartialEq, Eq)]
pub enum LineForm {
    /// `r`.
    Read,
    /// `w`.
    Write,
    /// `br`.
    BlockRead,
    /// `bw`.
    BlockWrite,
    /// `bf`.
    BlockFill,
    /// `m` whose function is absent or unknown.
    Modify,
    /// `m` with `set`.
    ModifySet,
    /// `m` with `xchg`.
    ModifyExchange,
    /// `m` with `add`.
    ModifyAdd,
    /// `m` with `cas`.
    ModifyCompare,
    /// `lr`.
    LocalRead,
    /// `lw`.
    LocalWrite,
    /// `lm` whose function is absent or unknown.
    LocalModify,
    /// `lm` with `set`.
    LocalModifySet,
    /// `lm` with `xchg`.
    LocalModifyExchange,
    /// `lm` with `add`.
    LocalModifyAdd,
    /// `lm` with `cas`.
    LocalModifyCompare,
    /// `await`.
    Await,
    /// `lock`.
    Lock,
    /// `unlock`.
    Unlock,
    /// `put`.
    Put,
    /// `take`.
    Take,
}

/// The numbers of bytes that a word may have.
#[derive(Clone, Copy, Debug, PartialEq, Eq)]
pub enum DataLength {
    /// This many.
    Exactly(u8),
    /// From 1 to 8.
    UpTo8,
    /// 1, 2 or 4.
    PowerOfTwo,
    /// One or more.
    Any,
}

/// A fault of a line: S1 to S9. The place is the faulty word unless a variant states another.
#[derive(Clone, Copy, Debug, PartialEq, Eq)]
pub enum LineCause {
    /// S1: the line has this many bytes, more than 80. The place is the bytes from the 81st on.
    TooLong {
        bytes: usize,
    },
    /// S2: no command has this name.
    UnknownCommand,
    /// S2: a comment does not begin in the first column. The place is the `#`.
    IndentedComment,
    /// S2: the command belongs to scripts, and this is a request line.
    ScriptCommand {
        form: LineForm,
    },
    /// S2: no function has this name.
    UnknownFunction,
    /// S3: a line of this form has `wanted` words after the first one, and this line has `found`.
    /// The place is from the first word too many to the end of the line, or the end if words are
    /// missing.
    WordCount {
        form: LineForm,
        wanted: usize,
        found: usize,
    },
    /// S4: the code is not two hexadecimal digits.
    BadCode,
    /// S5: the address is not eight hexadecimal digits.
    BadAddress,
    /// S5: the offset is not eight hexadecimal digits.
    BadOffset,
    /// S6: the number of bytes is not a digit from 1 to 8.
    BadByteCount,
    /// S6: the number of bytes of a local line is not 1, 2 or 4.
    BadLocalByteCount,
    /// S6: the number of data is not one to four decimal digits.
    BadDataCount,
    /// S6: the number of a mailbox is not one or two decimal digits.
    BadMailboxNumber,
    /// S6: the file declares this many mailboxes, and none has the number.
    NoMailbox {
        number: u8,
        declared: usize,
    },
    /// S7: a character of the word is no hexadecimal digit.
    NoHexDigits,
    /// S7: the word has this odd number of hexadecimal digits.
    OddDigits {
        digits: usize,
    },
    /// S7: the word has `found` bytes, two digits each, and a line of this form has `wanted`.
    WrongLength {
        form: LineForm,
        found: usize,
        wanted: DataLength,
    },
    /// S8: the script has this many lines, more than 1,000. The place is the whole line 1,001.
    TooManyLines {
        lines: usize,
    },
    /// S9: the line accesses the bytes of the board at the offsets from `low` to `high`, and the
    /// mailbox with the index `mailbox` has those from `mailbox_low` to `mailbox_high`. The place
    /// is the address or the offset.
    TouchesMailbox {
        board: BoardName,
        low: u32,
        high: u32,
        mailbox: usize,
        mailbox_low: u32,
        mailbox_high: u32,
    },
}

impl LineCause {
    /// Returns the refusal of the line, or `None` for a script that has too many lines.
    pub(crate) fn fault(self) -> Option<LineFault>
        ensures { result ≡ line_fault self }
    {
        match self {
            LineCause::TooLong { .. } => Some(LineFault::LineTooLong),
            LineCause::UnknownCommand
            | LineCause::IndentedComment
            | LineCause::ScriptCommand { .. }
            | LineCause::UnknownFunction => Some(LineFault::UnknownWord),
            LineCause::WordCount { .. } => Some(LineFault::WordCount),
            LineCause::BadCode => Some(LineFault::BadCode),
            LineCause::BadAddress | LineCause::BadOffset => Some(LineFault::BadAddress),
            LineCause::BadByteCount
            | LineCause::BadLocalByteCount
            | LineCause::BadDataCount
            | LineCause::BadMailboxNumber
            | LineCause::NoMailbox { .. } => Some(LineFault::BadNumber),
            LineCause::NoHexDigits | LineCause::OddDigits { .. } | LineCause::WrongLength { .. } =>
                Some(LineFault::BadBytes),
            LineCause::TooManyLines { .. } => None,
            LineCause::TouchesMailbox { .. } => Some(LineFault::MailboxBytes),
        }
    }

    /// Returns the refusal of a script whose line with this number, from 1, has the fault.
    pub(crate) fn refusal(self, number: u16) -> ScriptRefusal
        ensures { result ≡ script_refusal number (line_fault self) }
    {
        match self.fault() {
            Some(fault) => ScriptRefusal::BadLine { number, fault },
            None => ScriptRefusal::TooManyLines,
        }
    }
}
