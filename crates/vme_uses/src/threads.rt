//! A use of `vme_threads`.
ghost use Rattle.std.specs.Prelude.{IfOk};
ghost use Rattle.vme_threads.specs.OneOrder.{IsReportOfOneOrder};

use std::alloc::Global;
use std::sync::Wait;
use std::thread::Threads;
use vme_report::RunFault;
use vme_script::Config;
use vme_threads::{Gate, Report, run_threads};

// A gate that is always open.
struct Open;

impl Gate for Open {
    fn before(&self, _slot: u16, _line: u16) {}

    fn after(&self, _slot: u16, _line: u16) {}
}

/// Runs the scripts, one thread a processor.
pub fn run<R: Threads + Wait + Sync>(
    rt: &R,
    alloc: Global,
    config: &Config,
) -> Result<Report, RunFault>
    ensures { IfOk result (IsReportOfOneOrder config.now) }
{
    run_threads(rt, alloc, config, &Open)
}
