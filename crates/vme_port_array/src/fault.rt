/// The reasons why an array can't be opened.
#[derive(Debug, Drop)]
pub enum ArrayFault {
    /// An allocation failed.
    OutOfMemory,
    /// The number of passes is not 1 to 21, or the number of objects is not 1 to 64.
    BadCount,
}
