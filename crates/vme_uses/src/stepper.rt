//! A use of `vme_stepper`.
ghost use Rattle.std.specs.Prelude.{◌≡◌, IfOk, ◌∷◌, []};
ghost use Rattle.vme_stepper.specs.Reports.{run_status};

use std::alloc::Global;
use vme_io::RoomSink;
use vme_report::RunFault;
use vme_script::Config;
use vme_shared::Status;
use vme_stepper::run_steps;

/// Runs two turns of slot 2 and then one of slot 1, and returns the status of the replies.
pub fn three_turns(alloc: Global, config: &Config) -> Result<Status, RunFault>
    ensures { IfOk result (λ status. status ≡ run_status config.now (2 ∷ 2 ∷ 1 ∷ [])) }
{
    let mut sink = RoomSink::new(alloc, usize::MAX, 4096)?;
    run_steps(alloc, config, &[2, 2, 1], &mut sink)
}
