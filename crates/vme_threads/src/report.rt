use vme_memory::ByteMemory;
use vme_shared::LineReply;

/// The report's entry for one board.
#[derive(Drop)]
pub struct BoardReport {
    /// The slot of the board.
    pub slot: u16,
    /// The memory of the board after the run.
    pub memory: ByteMemory,
    /// The number of steps that the board made.
    pub steps: u64,
    /// How many of these steps each processor made, in order of slots.
    pub made: Vec<u64>,
}

/// The report of a run of all processors.
#[derive(Drop)]
pub struct Report {
    /// For each processor, in order of slots: the number of each line of its script that is neither
    /// blank nor a comment, with the reply to that line.
    pub lines: Vec<Vec<(u16, LineReply)>>,
    /// The entries of the boards, in order of slots.
    pub boards: Vec<BoardReport>,
    /// The number of steps that the arbiter made.
    pub arbiter_steps: u64,
    /// How many of these steps each processor made, in order of slots.
    pub arbiter_made: Vec<u64>,
}
