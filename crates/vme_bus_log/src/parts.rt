//! The parts of a line of a datum.

/// The number of a datum, its code and its address.
#[derive(Clone, Copy)]
pub(crate) struct Names {
    pub(crate) index: u32,
    pub(crate) am: u8,
    pub(crate) address: u32,
}

/// The levels of lines at its answer.
#[derive(Clone, Copy)]
pub(crate) struct Levels {
    pub(crate) ds1: bool,
    pub(crate) ds0: bool,
    pub(crate) a01: bool,
    pub(crate) lword: bool,
    pub(crate) write: bool,
}

/// Its data, the answer and the slot that drives BBSY*.
#[derive(Clone, Copy)]
pub(crate) struct Answer {
    pub(crate) lines: u64,
    pub(crate) idle: u64,
    pub(crate) is_wide: bool,
    pub(crate) is_acknowledged: bool,
    pub(crate) slot: Option<u8>,
}
