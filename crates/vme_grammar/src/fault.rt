//! The refusals of a line.
use thiserror::Error;

/// Why a line is refused. Its `Display` text is the number of the refusal.
#[derive(Clone, Copy, Debug, PartialEq, Eq, Error)]
pub enum LineFault {
    /// S1: the line has more than 80 bytes.
    #[error("S1")]
    LineTooLong,
    /// S2: the first word is not a command, or the word at the place of a function does not name
    /// one.
    #[error("S2")]
    UnknownWord,
    /// S3: the line has too few or too many words.
    #[error("S3")]
    WordCount,
    /// S4: the word of the address modifier code is not two hexadecimal digits.
    #[error("S4")]
    BadCode,
    /// S5: the word of the address or offset is not eight hexadecimal digits.
    #[error("S5")]
    BadAddress,
    /// S6: the number of bytes, the number of data or the number of a mailbox is malformed.
    #[error("S6")]
    BadNumber,
    /// S7: the word of the bytes is malformed or has the wrong length.
    #[error("S7")]
    BadBytes,
    /// S9: the line accesses bytes of a mailbox. Only a script whose file declares the mailbox
    /// gives this fault; reading a line by itself does not.
    #[error("S9")]
    MailboxBytes,
}
