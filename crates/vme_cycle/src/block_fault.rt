/// Why there is no block of some bytes.
#[derive(Clone, Copy, Debug, PartialEq, Eq)]
pub enum BlockFault {
    /// There are more bytes than a block can have.
    TooLong,
    /// An allocation failed.
    Memory,
}
