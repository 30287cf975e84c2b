//! Runs of scripts, and their reports.
ghost use Rattle.std.specs.Prelude.{◌≡◌, false, IfOk, IfErr, OnOk, OnErr};
ghost use Rattle.std.specs.Io.KnownBytes.{Appends};
ghost use Rattle.vme_io.specs.Prefixes.{AppendsPrefix};
ghost use Rattle.vme_report.specs.Ends.{IsReportFault, is_write_end};
ghost use Rattle.vme_stepper.specs.Schedules.{file_turns};
ghost use Rattle.vme_stepper.specs.Reports.{run_text, run_status};

use crate::stepper::Stepper;
use std::alloc::Global;
use vme_io::Sink;
use vme_report::RunFault;
use vme_script::Config;
use vme_shared::Status;

/// Runs the scripts by turns of the processors in `slots`, one after another, and appends the
/// report to `sink`. Returns the status of the replies.
///
/// A turn of a slot without a board, or of a processor with no line left, changes nothing. No turn
/// allocates.
///
/// # Errors
///
/// `Memory`: an allocation failed. `Write`: the sink failed. A prefix of the report may have been
/// appended.
pub fn run_steps<W: Sink>(
    alloc: Global,
    config: &Config,
    slots: &[u16],
    sink: &mut W,
) -> Result<Status, RunFault>
    requires { W.is_marked sink.old ≡ false }
    ensures text { OnOk result
        (Appends (W.contents sink.old) (W.contents sink.new) (run_text config.now slots.now)) }
    ensures prefix { OnErr result
        (AppendsPrefix (W.contents sink.old) (W.contents sink.new) (run_text config.now slots.now)) }
    ensures status { IfOk result (λ status. status ≡ run_status config.now slots.now) }
    ensures write { W.is_marked sink.new ≡ is_write_end result }
    ensures faults { IfErr result IsReportFault }
{
    let Ok(mut stepper) = Stepper::new(alloc, config) else {
        return Err(RunFault::Memory);
    };
    stepper.run(config, slots);
    stepper.report(alloc, config, sink)
}

/// Runs the scripts by the turns of the configuration's file, and appends the report to `sink`.
/// Returns the status of the replies.
///
/// The turns are those of the file's schedule, and then its rounds over all slots in order. The
/// memory does not grow with their number.
///
/// # Errors
///
/// `Memory`: an allocation failed. `Write`: the sink failed. A prefix of the report may have been
/// appended.
pub fn run_configured<W: Sink>(
    alloc: Global,
    config: &Config,
    sink: &mut W,
) -> Result<Status, RunFault>
    requires { W.is_marked sink.old ≡ false }
    ensures text { OnOk result (Appends (W.contents sink.old) (W.contents sink.new)
        (run_text config.now (file_turns config.now))) }
    ensures prefix { OnErr result (AppendsPrefix (W.contents sink.old) (W.contents sink.new)
        (run_text config.now (file_turns config.now))) }
    ensures status { IfOk result (λ status. status ≡ run_status config.now (file_turns config.now)) }
    ensures write { W.is_marked sink.new ≡ is_write_end result }
    ensures faults { IfErr result IsReportFault }
{
    let Ok(mut stepper) = Stepper::new(alloc, config) else {
        return Err(RunFault::Memory);
    };
    stepper.run_configured(config);
    stepper.report(alloc, config, sink)
}
