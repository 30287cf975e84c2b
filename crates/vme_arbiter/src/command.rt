/// A command to the arbiter. A slot is in range from 1 to 21, and a level from 0 to 3, the bus
/// request lines BR0* to BR3*: IEEE 1014-1987, 3.2 (arbitration bus lines).
#[derive(Clone, Copy, Debug, PartialEq, Eq)]
pub enum ArbCmd {
    /// A slot requests the bus, on the bus request line of a level.
    Ask {
        /// The slot that requests the bus.
        slot: u16,
        /// The level of the request; 3 is the greatest.
        level: u8,
    },
    /// A slot checks whether it holds the bus.
    Look {
        /// The slot that checks.
        slot: u16,
    },
    /// A slot releases the bus.
    Done {
        /// The slot that releases the bus.
        slot: u16,
    },
}

/// The reply of the arbiter to a command.
#[derive(Clone, Copy, Debug, PartialEq, Eq)]
pub enum ArbReply {
    /// The slot holds the bus.
    Granted,
    /// The slot waits for the bus.
    Waiting,
    /// The slot held the bus and no longer holds it.
    Freed,
    /// Nothing changed: a request out of range or by a slot that holds the bus or waits for it, a
    /// check by a slot that neither holds nor waits, or a release by a slot that does not hold the
    /// bus.
    Denied,
}
