use vme_decode::Entry;
use vme_memory::Class;

/// One board: where it responds, and to which cycles.
#[derive(Clone, Copy, Debug, PartialEq, Eq)]
pub struct BoardRule {
    /// Its entry of the address map.
    pub entry: Entry,
    /// The class of its slave.
    pub class: Class,
}

/// Bytes of a board that something may write that the trace does not show.
#[derive(Clone, Copy, Debug, PartialEq, Eq)]
pub struct Open {
    /// The board, by its place in the list.
    pub board: usize,
    /// The offset of the first byte.
    pub from: u32,
    /// The offset after the last byte.
    pub to: u32,
}

/// A board, and where its bytes begin among those of all boards.
#[derive(Clone, Copy, Debug, PartialEq, Eq)]
pub(crate) struct Row {
    pub(crate) start: usize,
    pub(crate) size: u32,
    pub(crate) class: Class,
}

/// The read half of what may be a read-modify-write.
#[derive(Clone, Copy, Debug, PartialEq, Eq)]
pub(crate) struct Half {
    pub(crate) board: usize,
    pub(crate) offset: u32,
    pub(crate) len: u8,
    /// Whether a local write to its bytes has come since.
    pub(crate) torn: bool,
}
