//! What a line of a bus log says.

/// A datum as a bus log has it. `true` of a line is high.
#[derive(Clone, Copy, Debug, PartialEq, Eq)]
pub struct LogDatum {
    /// The time of its answer.
    pub time: Option<u64>,
    /// The number of data since AS* fell.
    pub index: u32,
    /// AM5 to AM0.
    pub am: u8,
    /// A31 to A02 as at the fall of AS*, as a multiple of four.
    pub address: u32,
    pub ds1: bool,
    pub ds0: bool,
    pub a01: bool,
    pub lword: bool,
    pub write: bool,
    /// D31 to D00 in the lower half; in the upper half A31 to A01 and LWORD* where they carry data.
    pub lines: u64,
    /// The bits of `lines` that carry nothing.
    pub idle: u64,
    /// Whether the datum has eight bytes.
    pub is_wide: bool,
    /// Whether the answer is DTACK*; else it is BERR*.
    pub is_acknowledged: bool,
    /// The slot that drives BBSY*, if it is known.
    pub slot: Option<u8>,
}

/// An access by the local port of the board in a slot.
#[derive(Clone, Copy, Debug, PartialEq, Eq)]
pub struct LogAccess {
    /// The time of its answer.
    pub time: Option<u64>,
    pub slot: u8,
    pub is_write: bool,
    pub offset: u32,
    /// The number of bytes: 1, 2 or 4.
    pub len: u8,
    /// The bytes, the first one highest.
    pub bytes: u32,
}

/// What a line of a bus log says.
#[derive(Clone, Copy, Debug, PartialEq, Eq)]
pub enum LogEntry {
    /// Nothing: the line is blank or a comment, or is not at its end.
    Nothing,
    Datum(LogDatum),
    Access(LogAccess),
}
