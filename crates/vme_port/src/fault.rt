/// The reasons why a port can't be opened.
#[derive(Debug, Drop)]
pub enum PortFault {
    /// An allocation failed.
    OutOfMemory,
    /// The number of passes is not 1 to 21.
    BadCount,
}

/// The reasons why a try adds no entry.
#[derive(Debug, Drop)]
pub enum TryFault {
    /// Another pass holds the object.
    Busy,
    /// The history of the object has 2^64 - 1 entries.
    Spent,
}

/// The fault of a call of an object whose history has 2^64 - 1 entries, the most that are counted.
#[derive(Debug, Drop)]
pub struct Spent;
