//! A use of `vme_run`.
ghost use Rattle.std.specs.Prelude.{◌≡◌, ℕ, List};
ghost use Rattle.vme_script.specs.Lawful.{IsLawful};
ghost use Rattle.vme_stepper.specs.Turns.{state_after};
ghost use Rattle.vme_threads.specs.OneOrder.{IsReportOfOneOrder};
ghost use Rattle.vme_run.specs.Orders.{IsReportOfState};

use vme_run::a_run_of_threads_is_a_run_of_turns;
use vme_runner::Report;
use vme_script::Config;

/// Returns the arbiter's steps in a report of one order: those that it makes in some turns.
pub fn arbiter_steps(config: &Config, report: &Report) -> u64
    requires lawful { IsLawful config.now }
    requires order { IsReportOfOneOrder config.now report.now }
    ensures report { (slots : List ℕ) × IsReportOfState config.now report.now (state_after config.now slots) }
    ensures steps { (slots : List ℕ) × (result ≡ (state_after config.now slots).machine.bus.steps) }
{
    a_run_of_threads_is_a_run_of_turns();
    report.arbiter_steps
}
