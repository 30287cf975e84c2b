//! A trace of a run, turn by turn.
ghost use Rattle.std.specs.Prelude.{◌≡◌, ◌≤◌, ◌<◌, ◌-◌, ◌^◌, false, length, IfErr, OnOk, OnErr};
ghost use Rattle.std.specs.Io.KnownBytes.{Appends};
ghost use Rattle.vme_io.specs.Prefixes.{AppendsPrefix, GathersOrStops};
ghost use Rattle.vme_report.specs.Ends.{IsReportFault, is_write_end};
ghost use Rattle.vme_script.specs.Lawful.{IsLawful};
ghost use Rattle.vme_stepper.specs.Turns.{board_in_slot, initial_state};
ghost use Rattle.vme_stepper.specs.Schedules.{file_turns};
ghost use Rattle.vme_stepper.specs.Steppers.{stepper_of, stepper_turn_at, IsStepperOf, StepsWithin};
ghost use Rattle.vme_trace.specs.Observations.{observed_at};
ghost use Rattle.vme_trace.specs.Selections.{next_progress};
ghost use Rattle.vme_trace.specs.Values.{start_values};
ghost use Rattle.vme_trace.specs.Dumps.{next_text, next_values, vcd_text};
ghost use Rattle.vme_trace.specs.Traces.{turn_text, turn_progress, turn_values};

use crate::dump::{Change, Shown, print_ending, print_next, start_values};
use crate::observation::{Observation, observe_turn};
use crate::progress::{Progress, Selection};
use crate::turns::FileTurns;
use std::alloc::Global;
use vme_io::{Sink, WRITE_SIZE, flush_if_full, write_all};
use vme_report::RunFault;
use vme_script::Config;
use vme_stepper::{Stepper, board_in_slot};

/// Runs the scripts of a configuration by the turns of its file, and writes what the lines of the
/// bus and of the local ports show in the selected events.
///
/// The text is written while the run goes on. The memory does not grow with the number of turns.
///
/// # Errors
///
/// `Memory`: an allocation failed. `Write`: the writer failed. A prefix of the text was written.
pub fn write_trace<W: Sink>(
    alloc: Global,
    selection: Selection,
    config: &Config,
    writer: &mut W,
) -> Result<(), RunFault>
    requires { W.is_marked writer.old ≡ false }
    ensures text { OnOk result (Appends (W.contents writer.old) (W.contents writer.new)
        (vcd_text selection config.now (file_turns config.now))) }
    ensures prefix { OnErr result (AppendsPrefix (W.contents writer.old) (W.contents writer.new)
        (vcd_text selection config.now (file_turns config.now))) }
    ensures write { W.is_marked writer.new ≡ is_write_end result }
    ensures faults { IfErr result IsReportFault }
{
    let Ok(mut stepper) = Stepper::new(alloc, config) else {
        return Err(RunFault::Memory);
    };
    let mut text = Vec::with_capacity(alloc, WRITE_SIZE)?;
    let mut values = start_values(alloc, config.boards())?;
    trace_turns(
        alloc,
        selection,
        &mut stepper,
        config,
        &mut values,
        &mut text,
        writer,
    )?;
    write_all(writer, text.as_slice())?;
    Ok(())
}

/// Gathers the text of the turns of the file and of the end.
fn trace_turns<'a, W: Sink>(
    alloc: Global,
    selection: Selection,
    stepper: &mut Stepper<'a>,
    config: &'a Config,
    values: &mut Vec<Shown>,
    text: &mut Vec<u8>,
    writer: &mut W,
) -> Result<(), RunFault>
    requires values { values.old.items ≡ start_values (length config.now.boards) }
    requires lawful { IsLawful config.now }
    requires opening { stepper.old ≡ stepper_of config.now (initial_state config.now) }
    requires stepper { IsStepperOf config.now stepper.old }
    requires unmarked { W.is_marked writer.old ≡ false }
    ensures gathers { GathersOrStops result (W.contents writer.old) (W.contents writer.new)
        text.old.items text.new.items (vcd_text selection config.now (file_turns config.now)) }
    ensures write { W.is_marked writer.new ≡ is_write_end result }
    ensures faults { IfErr result IsReportFault }
{
    let mut turns = FileTurns::new(config);
    let mut changes = Vec::new(alloc);
    let mut progress = Progress::start(selection);
    while let Some(slot) = turns.next(config) {
        trace_turn(
            stepper,
            config,
            slot,
            &mut progress,
            values,
            &mut changes,
            text,
            writer,
        )?;
    }
    print_ending(text, config, progress, values.as_slice())?;
    Ok(())
}

/// Performs a turn and gathers the text of its event, if it has one that is shown.
fn trace_turn<'a, W: Sink>(
    stepper: &mut Stepper<'a>,
    config: &'a Config,
    slot: u16,
    progress: &mut Progress,
    values: &mut Vec<Shown>,
    changes: &mut Vec<Change>,
    text: &mut Vec<u8>,
    writer: &mut W,
) -> Result<(), RunFault>
    requires stepper { IsStepperOf config.now stepper.old }
    requires capacity { StepsWithin (2 ^ 64 - 2) stepper.old.machine }
    requires few { progress.old.number < 2 ^ 32 - 1 }
    requires within { progress.old.shown ≤ progress.old.number }
    requires unmarked { W.is_marked writer.old ≡ false }
    ensures turn { OnOk result
        (stepper.new ≡ stepper_turn_at config.now stepper.old (board_in_slot config.now slot)) }
    ensures sound { OnOk result (IsStepperOf config.now stepper.new) }
    ensures progress { OnOk result (progress.new ≡ turn_progress progress.old
        (observed_at config.now stepper.old (board_in_slot config.now slot))) }
    ensures values { OnOk result (values.new.items ≡ turn_values config.now progress.old
        (observed_at config.now stepper.old (board_in_slot config.now slot)) values.old.items) }
    ensures gathers { GathersOrStops result (W.contents writer.old) (W.contents writer.new)
        text.old.items text.new.items (turn_text config.now progress.old values.old.items
        (observed_at config.now stepper.old (board_in_slot config.now slot))) }
    ensures write { W.is_marked writer.new ≡ is_write_end result }
    ensures faults { IfErr result IsReportFault }
{
    let Some(board) = board_in_slot(config, slot) else {
        return Ok(());
    };
    let Some(event) = observe_turn(stepper, config, board) else {
        return Ok(());
    };
    gather_event(config, progress, values, changes, &event, text, writer)
}

/// Gathers the text of the next event, if it is shown.
#[tactic(auto, using(vme_io::proofs::lemmas::Gathering::printed_gathers, vme_io::proofs::lemmas::Gathering::printed_prefix, vme_io::proofs::lemmas::Gathering::nothing_prefix))]
fn gather_event<W: Sink>(
    config: &Config,
    progress: &mut Progress,
    values: &mut Vec<Shown>,
    changes: &mut Vec<Change>,
    event: &Observation,
    text: &mut Vec<u8>,
    writer: &mut W,
) -> Result<(), RunFault>
    requires few { progress.old.number < 2 ^ 32 - 1 }
    requires within { progress.old.shown ≤ progress.old.number }
    requires unmarked { W.is_marked writer.old ≡ false }
    ensures progress { OnOk result (progress.new ≡ next_progress progress.old event.now) }
    ensures values { OnOk result
        (values.new.items ≡ next_values config.now progress.old event.now values.old.items) }
    ensures gathers { GathersOrStops result (W.contents writer.old) (W.contents writer.new)
        text.old.items text.new.items (next_text config.now progress.old values.old.items event.now) }
    ensures write { W.is_marked writer.new ≡ is_write_end result }
    ensures faults { IfErr result IsReportFault }
{
    print_next(text, config, progress, values, changes, event)?;
    flush_if_full(text, writer)?;
    Ok(())
}
