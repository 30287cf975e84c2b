//! A use of `vme_core`.
ghost use Rattle.std.specs.Prelude.{◌<◌};
ghost use Rattle.vme_core.specs.Machines.{process_count};

use vme_arbiter::ArbCmd;
use vme_core::{Core, Event, Spent, Target};

/// Requests the bus for processor 0 and returns how many steps the arbiter has made.
pub fn request_bus(core: &mut Core, slot: u16) -> Result<u64, Spent>
    requires { 0 < process_count core.old }
{
    core.apply(0, &Event::Bus(ArbCmd::Ask { slot, level: 3 }))?;
    Ok(core.steps(Target::Bus))
}
