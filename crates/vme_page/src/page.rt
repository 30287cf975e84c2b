//! A page of a run.
ghost use Rattle.std.specs.Prelude.{◌≡◌, false, IfErr, OnOk};
ghost use Rattle.vme_report.specs.Ends.{IsReportFault, is_write_end};
ghost use Rattle.vme_page.specs.Pages.{AppendsPage};

use crate::diagrams::write_diagrams;
use crate::head::page_head;
use crate::note::page_end;
use std::alloc::Global;
use vme_io::{Sink, write_all};
use vme_report::RunFault;
use vme_script::Config;
use vme_stepper::run_configured;
use vme_trace::EventRange;

/// Runs the scripts of a configuration by the turns of its file, and writes a page: the timing
/// diagrams of some events, the scripts and the report. Its title is the last part of the path `name`.
///
/// The diagrams are written while the run goes on, which is left after the first event past those
/// that they show. The report is that of a second run, by `run_configured`. The memory does not grow
/// with the number of turns.
///
/// # Errors
///
/// `Memory`: an allocation failed. `Write`: the writer failed. A prefix of the page was written.
pub fn write_page<W: Sink>(
    alloc: Global,
    name: &str,
    config: &Config,
    range: EventRange,
    writer: &mut W,
) -> Result<(), RunFault>
    requires { W.is_marked writer.old ≡ false }
    ensures page { OnOk result
        (AppendsPage config.now (W.contents writer.old) (W.contents writer.new)) }
    ensures write { W.is_marked writer.new ≡ is_write_end result }
    ensures faults { IfErr result IsReportFault }
{
    let head = page_head(alloc, name)?;
    write_all(writer, head.as_slice())?;
    write_diagrams(alloc, range, config, writer)?;
    run_configured(alloc, config, writer)?;
    write_all(writer, page_end())?;
    Ok(())
}
