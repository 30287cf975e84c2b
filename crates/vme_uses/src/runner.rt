//! A use of `vme_runner`.
ghost use Rattle.std.specs.Prelude.{IfOk};
ghost use Rattle.vme_object.specs.Each.{Each};
ghost use Rattle.vme_runner.specs.Finished.{AreFinished};

use std::alloc::Global;
use std::sync::Wait;
use std::thread::Threads;
use vme_runner::{Gate, Report, RunFault, no_line_is_unfinished, run_threads};
use vme_script::Config;

/// Runs the scripts on threads. By a law of runs, no line of the report is unfinished.
pub fn run_to_the_end<R: Threads + Wait + Sync, G: Gate + Sync>(
    rt: &R,
    alloc: Global,
    config: &Config,
    gate: &G,
) -> Result<Report, RunFault>
    ensures { IfOk result (λ report. Each (λ who lines. AreFinished lines.items) report.lines.items) }
{
    no_line_is_unfinished();
    run_threads(rt, alloc, config, gate)
}
