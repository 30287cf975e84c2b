//! A use of `vme_master`.
ghost use Rattle.std.specs.Prelude.{◌≡◌, ◌<◌};
ghost use Rattle.vme_core.specs.Machines.{process_count};
ghost use Rattle.vme_core.specs.EventRefs.{CanCount};

use vme_core::{Core, Target};
use vme_master::Task;
use vme_memory::BoardCmd;

/// Performs a command of processor 0 on the local port of board 0, and returns whether it ended.
pub fn perform_local(core: &mut Core, cmd: BoardCmd) -> bool
    requires who { 0 < process_count core.old }
    requires can { CanCount core.old (Target.Board 0) }
    ensures { process_count core.new ≡ process_count core.old }
{
    let mut task = Task::local(0, cmd);
    task.advance(None);
    task.step_on(core, 0)
}
