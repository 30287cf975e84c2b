ghost use Rattle.std.specs.Prelude.{◌≡◌};

use vme_arbiter::ArbCmd;
use vme_bus_objects::BusObject;
use vme_core::EventReply;
use vme_memory::Reply;
use vme_object::{Object, Operation};

/// A command to the arbiter, as an operation that stands in the call of a port, so that its reply does
/// not go through memory. On a board it changes nothing, and the reply is a bus error.
#[derive(Drop)]
pub(crate) struct BusOperation<'a> {
    /// The command.
    pub(crate) cmd: &'a ArbCmd,
}

impl Operation<BusObject> for BusOperation<'_> {
    ghost use Rattle.vme_bus_objects.specs.declared.command.BusCommand.TheVariants as commands;

    ghost command = { λ o. commands.Arbiter o.cmd.now };

    #[inline(always)]
    fn perform(&self, object: &mut BusObject) -> EventReply {
        if let BusObject::Arbiter(arbiter) = object {
            return EventReply::Bus(arbiter.apply(self.cmd));
        }
        EventReply::Board(Reply::Berr)
    }
}
