/// What is known of a byte of a board.
#[derive(Clone, Copy, Debug, PartialEq, Eq)]
pub enum Byte {
    /// Something that the trace does not show may write it at any time.
    Open,
    /// Nothing has shown it.
    Unseen,
    /// It has this value.
    Known(u8),
}
