//! A use of `vme_bus_objects`.
ghost use Rattle.std.specs.Prelude.{◌≡◌};

use vme_arbiter::{ArbCmd, ArbReply, Arbiter};
use vme_bus_objects::{BusCommand, BusObject};
use vme_core::EventReply;
use vme_object::Object;

/// Returns the reply to a request for the free bus by slot 5. The arbiter is an object of the bus.
pub fn first_request() -> EventReply
    ensures { result ≡ EventReply.Bus ArbReply.Granted }
{
    let mut object = BusObject::Arbiter(Arbiter::new());
    object.apply(&BusCommand::Arbiter(ArbCmd::Ask { slot: 5, level: 3 }))
}
