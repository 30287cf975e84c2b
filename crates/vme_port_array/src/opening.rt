//! What an array keeps of its opening, for its contracts.
use std::snapshot::Snapshot;

/// How an array was opened: with which objects, and for how many passes.
#[derive(Drop)]
pub struct Opening<O> {
    /// The objects that the array was opened with, in the order of their indexes.
    pub starts: Snapshot<Vec<O>>,
    /// The number of passes, 1 to 21.
    pub passes: usize,
}
