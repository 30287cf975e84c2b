/// How far a task has come.
#[derive(Clone, Copy, Debug, PartialEq, Eq)]
pub enum Phase {
    /// Before the first call.
    New,
    /// The slot requests the bus.
    Requesting,
    /// The slot polls whether it holds the bus.
    Polling,
    /// The task makes call `i` on the board: datum `i`, or the one command to a local port.
    Transferring { i: u16 },
    /// The slot releases the bus. `berr` is the number of data before a bus error, if one came.
    Releasing { berr: Option<u16> },
    /// The outcome is known. `berr` is the number of data before a bus error, if one came.
    Finished { berr: Option<u16> },
    /// The arbiter denied a command, or a reply did not fit, was absent or came too early.
    Denied,
}
