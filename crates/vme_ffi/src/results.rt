//! The numbers of results that this library alone has.

/// The lines show no cycle.
pub(crate) const BAD_LINES: u8 = 0x22;

/// A level in the state of an arbiter is out of range.
pub(crate) const BAD_STATE: u8 = 0x24;
