use vme_cycle::Block;
use vme_lanes::Datum;

/// The outcome of a transfer over the bus, or of a command to a board's local port.
#[derive(Debug, PartialEq, Eq, Drop)]
pub enum Outcome {
    /// All bytes that were read, in order of address.
    Read(Block),
    /// All bytes were written.
    Done,
    /// The bytes that a read-modify-write found.
    Old(Datum),
    /// A bus error of a board or of the bus timer:
    /// IEEE 1014-1987, 2.3.3 (bus timer).
    Berr {
        /// The number of data that were answered before the error.
        count: u16,
        /// The bytes that were read before the error, in order of address.
        bytes: Block,
    },
    /// The arbiter denied a command, or a reply did not fit, was absent or came too early.
    Denied,
}

/// An `Outcome` by reference: it borrows the bytes that the task holds.
#[derive(Clone, Copy, Debug, PartialEq, Eq)]
pub enum OutcomeRef<'a> {
    /// All bytes that were read, in order of address.
    Read(&'a [u8]),
    /// All bytes were written.
    Done,
    /// The bytes that a read-modify-write found.
    Old(&'a [u8]),
    /// A bus error of a board or of the bus timer:
    /// IEEE 1014-1987, 2.3.3 (bus timer).
    Berr {
        /// The number of data that were answered before the error.
        count: u16,
        /// The bytes that were read before the error, in order of address.
        bytes: &'a [u8],
    },
    /// The arbiter denied a command, or a reply did not fit, was absent or came too early.
    Denied,
}
