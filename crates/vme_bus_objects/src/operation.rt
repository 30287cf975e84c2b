ghost use Rattle.std.specs.Prelude.{◌≡◌};

use crate::object::BusObject;
use vme_arbiter::ArbCmd;
use vme_core::EventReply;
use vme_memory::{ByteMemory, Reply};
use vme_object::{Object, Operation};

/// An operation on a board's memory, performed on an object of the bus. Its command is that of the
/// operation, to a board. On the arbiter it changes nothing, and the reply is a bus error.
#[derive(Drop)]
pub struct BoardOperation<'a, A> {
    /// The operation on the memory.
    pub operation: &'a A,
}

impl<A: Operation<ByteMemory>> Operation<BusObject> for BoardOperation<'_, A> {
    ghost use Rattle.vme_bus_objects.specs.declared.command.BusCommand.TheVariants as commands;

    ghost command = { λ o. commands.Board (A.command o.operation.now) };

    #[inline(always)]
    fn perform(&self, object: &mut BusObject) -> EventReply {
        match object {
            BusObject::Board(memory) => EventReply::Board(self.operation.perform(memory)),
            BusObject::Arbiter(_) => EventReply::Board(Reply::Berr),
        }
    }
}

/// A command to the arbiter, performed on an object of the bus. On a board it changes nothing, and
/// the reply is a bus error.
#[derive(Drop)]
pub struct ArbiterOperation<'a> {
    /// The command.
    pub cmd: &'a ArbCmd,
}

impl Operation<BusObject> for ArbiterOperation<'_> {
    ghost use Rattle.vme_bus_objects.specs.declared.command.BusCommand.TheVariants as commands;

    ghost command = { λ o. commands.Arbiter o.cmd.now };

    #[inline(always)]
    fn perform(&self, object: &mut BusObject) -> EventReply {
        match object {
            BusObject::Board(_) => EventReply::Board(Reply::Berr),
            BusObject::Arbiter(arbiter) => EventReply::Bus(arbiter.apply(self.cmd)),
        }
    }
}
