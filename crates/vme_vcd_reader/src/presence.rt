//! Which lines a dump has.
ghost use Rattle.std.specs.Prelude.{◌≡◌};
ghost use Rattle.vme_vcd_reader.specs.Presences.{with_lines};

use crate::bus::with_slot;
use vme_line_map::Group;

/// Which lines a dump has, beside those without which nothing is judged. Slot N is bit N - 1.
#[derive(Clone, Copy, Debug, PartialEq, Eq)]
pub struct Presence {
    pub bus_error: bool,
    pub interrupt_acknowledge: bool,
    pub busy: bool,
    /// The slots with what they drive on BBSY*.
    pub drivers: u32,
    /// The slots with BRn*.
    pub requests: u32,
    /// The slots with BGnIN*.
    pub grants: u32,
    /// The slots with the lines of their local port.
    pub ports: u32,
}

impl Presence {
    /// None of them.
    pub const NONE: Presence = Presence {
        bus_error: false,
        interrupt_acknowledge: false,
        busy: false,
        drivers: 0,
        requests: 0,
        grants: 0,
        ports: 0,
    };

    /// Returns these lines and those of a group.
    pub(crate) fn with_lines(self, group: Group) -> Presence
        ensures { result ≡ with_lines self group }
    {
        let mut presence = self;
        match group {
            Group::BusError => presence.bus_error = true,
            Group::InterruptAcknowledge => presence.interrupt_acknowledge = true,
            Group::Busy => presence.busy = true,
            Group::SlotBusy(slot) => presence.drivers = with_slot(self.drivers, slot, true),
            Group::SlotRequest(slot) => presence.requests = with_slot(self.requests, slot, true),
            Group::SlotGrant(slot) => presence.grants = with_slot(self.grants, slot, true),
            Group::PortDone(slot) => presence.ports = with_slot(self.ports, slot, true),
            _ => {}
        }
        presence
    }
}
