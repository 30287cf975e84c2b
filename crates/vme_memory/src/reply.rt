use vme_lanes::Datum;

/// The reply of a board to one command.
#[derive(Debug, Drop, PartialEq, Eq)]
pub enum Reply {
    /// The bytes that were read, in order of address.
    Bytes(Datum),
    /// A write was done.
    Done,
    /// A bus error (BERR*): nothing was read and no byte has changed.
    Berr,
}
