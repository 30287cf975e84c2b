ghost use Rattle.std.specs.Prelude.{◌≡◌};

use crate::command::BusCommand;
use vme_arbiter::Arbiter;
use vme_core::EventReply;
use vme_memory::{ByteMemory, Reply};
use vme_object::Object;

/// An object of the bus: the memory of a board, or the arbiter. A command for the other kind of
/// object leaves it unchanged, and the reply is a bus error.
#[derive(Drop)]
pub enum BusObject {
    /// The memory of a board.
    Board(ByteMemory),
    /// The arbiter of the bus.
    Arbiter(Arbiter),
}

impl Object for BusObject {
    ghost use Rattle.vme_bus_objects.specs.Objects.{bus_object_step};

    type Cmd = BusCommand;

    type Reply = EventReply;

    ghost step = { bus_object_step };

    fn apply(&mut self, cmd: &BusCommand) -> EventReply {
        match self {
            BusObject::Board(memory) => match cmd {
                BusCommand::Board(cmd) => EventReply::Board(memory.apply(cmd)),
                BusCommand::Arbiter(_) => EventReply::Board(Reply::Berr),
            },
            BusObject::Arbiter(arbiter) => match cmd {
                BusCommand::Board(_) => EventReply::Board(Reply::Berr),
                BusCommand::Arbiter(cmd) => EventReply::Bus(arbiter.apply(cmd)),
            },
        }
    }
}
