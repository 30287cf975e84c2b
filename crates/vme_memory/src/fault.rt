/// Why there is no memory of some size.
#[derive(Clone, Copy, Debug, PartialEq, Eq)]
pub enum MemoryFault {
    /// C5: the size is not from 4 to 1,048,576 bytes, or is not a multiple of four.
    BadSize,
    /// An allocation failed.
    OutOfMemory,
}
