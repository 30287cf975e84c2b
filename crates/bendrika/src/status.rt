//! The exit statuses.

/// How a run of the program ended.
#[derive(Clone, Copy, Debug, PartialEq, Eq)]
pub(crate) enum Status {
    /// The command did what it was asked to, and found no error.
    Done,
    /// An input has an error, a condition on the outcomes fails, there is a dead end, or a trace is illegal.
    Errors,
    /// The words are wrong, the file of another command than `check` is no configuration, or a text
    /// is no trace.
    WrongWords,
    /// An input or a device failed, or an allocation.
    Fault,
    /// There are more states than the limit.
    Limit,
}

impl Status {
    /// Returns the exit status.
    pub(crate) fn code(self) -> u8 {
        match self {
            Status::Done => 0,
            Status::Errors => 1,
            Status::WrongWords => 2,
            Status::Fault => 3,
            Status::Limit => 4,
        }
    }
}
