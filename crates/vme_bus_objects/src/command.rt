use vme_arbiter::ArbCmd;
use vme_memory::BoardCmd;

/// A command to an object of the bus, by the kind of object that it is meant for.
#[derive(Debug, Drop)]
pub enum BusCommand {
    /// A command to a board.
    Board(BoardCmd),
    /// A command to the arbiter.
    Arbiter(ArbCmd),
}
