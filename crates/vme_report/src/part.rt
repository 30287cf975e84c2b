//! The parts of a report.
/// The parts of a report. Each part contains all boards.
#[derive(Clone, Copy, Debug, PartialEq, Eq)]
pub(crate) enum Part {
    /// The replies to the lines of the scripts.
    Replies,
    /// The steps of the boards, and which processors made them.
    Counts,
    /// The rows of the memories.
    Memory,
}
