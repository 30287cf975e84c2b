//! A board of a report.
use std::marker::Model;
use vme_memory::ByteMemory;
use vme_shared::LineReply;

/// The parts of a board that a report describes. They are borrowed, so nothing is copied.
#[derive(Drop)]
pub struct BoardReportRef<'a> {
    /// The slot of the board.
    pub slot: u16,
    /// The number of each line of its processor's script that requests something, with the line's
    /// reply.
    pub lines: &'a [(u16, LineReply)],
    /// The board's memory after the run.
    pub memory: &'a ByteMemory,
    /// The number of steps that the board took.
    pub steps: u64,
    /// The number of these steps that each board's processor made, in order of slots.
    pub made: &'a [u64],
}

impl<'a> Model for BoardReportRef<'a> {
    ghost use Rattle.vme_report.specs.Boards.{BoardText};

    ghost Value = { BoardText };

    ghost view = { λ b. record { slot = b.slot; lines = b.lines.now; bytes = b.memory.now.bytes; steps = b.steps; made = b.made.now } };
}
