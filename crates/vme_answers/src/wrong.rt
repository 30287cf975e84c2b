use vme_protocol::Rule;

/// Why an answer is not that of a board.
#[derive(Clone, Copy, Debug, PartialEq, Eq)]
pub struct Wrong {
    /// J21 to J24.
    pub rule: Rule,
    /// The board that the map selects, by its place in the list.
    pub board: Option<usize>,
    /// The offset of the first byte.
    pub offset: u32,
    /// The number of bytes.
    pub len: u8,
    /// What was known of the bytes.
    pub known: [Option<u8>; 8],
}
