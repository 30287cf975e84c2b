//! The diagrams of a run, turn by turn.
ghost use Rattle.std.specs.Prelude.{◌≡◌, ◌≤◌, ◌<◌, ◌+◌, ◌-◌, ◌^◌, ◌∷◌, ◌++◌, [], List, false, IfErr, IfSome, OnOk};
ghost use Rattle.std.specs.Option.{option_to_list};
ghost use Rattle.vme_report.specs.Ends.{IsReportFault, is_write_end};
ghost use Rattle.vme_script.specs.Lawful.{IsLawful};
ghost use Rattle.vme_stepper.specs.Turns.{board_in_slot, initial_state};
ghost use Rattle.vme_stepper.specs.Steppers.{stepper_of, stepper_turn_at, IsStepperOf, StepsWithin};
ghost use Rattle.vme_trace.specs.Observations.{observed_at};
ghost use Rattle.vme_trace.specs.Turns.{turns_left, IsTurnsOf};
ghost use Rattle.vme_trace.specs.declared.observation.Observation.{Observation};
ghost use Rattle.vme_page.specs.Drawings.{ShowsRun, ShowsFirst};
ghost use Rattle.vme_page.specs.Pages.{Grows};

use crate::drawing::Drawing;
use std::alloc::Global;
use vme_io::{Sink, WRITE_SIZE, flush_if_full, write_all};
use vme_report::RunFault;
use vme_script::Config;
use vme_stepper::{Stepper, board_in_slot};
use vme_trace::{EventRange, FileTurns, Observation, observe_turn};

/// Writes the diagrams of some events, a note if others are not shown, and the begin of the report.
pub(crate) fn write_diagrams<W: Sink>(
    alloc: Global,
    range: EventRange,
    config: &Config,
    writer: &mut W,
) -> Result<(), RunFault>
    requires { W.is_marked writer.old ≡ false }
    ensures grows { OnOk result (Grows (W.contents writer.old) (W.contents writer.new)) }
    ensures write { W.is_marked writer.new ≡ is_write_end result }
    ensures faults { IfErr result IsReportFault }
{
    let Ok(mut stepper) = Stepper::new(alloc, config) else {
        return Err(RunFault::Memory);
    };
    let mut drawing = Drawing::new(alloc, config)?;
    let mut text = Vec::with_capacity(alloc, WRITE_SIZE)?;
    draw_turns(config, range, &mut stepper, &mut drawing, &mut text, writer)?;
    write_all(writer, text.as_slice())?;
    Ok(())
}

/// Gathers the diagrams of the turns of the file, and what follows them. It leaves the run after the
/// first event past those that are shown.
fn draw_turns<'a, W: Sink>(
    config: &'a Config,
    range: EventRange,
    stepper: &mut Stepper<'a>,
    drawing: &mut Drawing,
    text: &mut Vec<u8>,
    writer: &mut W,
) -> Result<(), RunFault>
    requires drawing { ShowsRun config.now [] drawing.old }
    requires lawful { IsLawful config.now }
    requires opening { stepper.old ≡ stepper_of config.now (initial_state config.now) }
    requires stepper { IsStepperOf config.now stepper.old }
    requires unmarked { W.is_marked writer.old ≡ false }
    ensures shows { OnOk result (ShowsFirst config.now drawing.new) }
    ensures grows { OnOk result (Grows (W.contents writer.old) (W.contents writer.new)) }
    ensures write { W.is_marked writer.new ≡ is_write_end result }
    ensures faults { IfErr result IsReportFault }
{
    let mut turns = FileTurns::new(config);
    while let Some(slot) = next_turn(&mut turns, config, range, drawing.count()) {
        draw_turn(config, slot, range, drawing, stepper, text, writer)?;
    }
    drawing.print_ending(text, config, range)?;
    Ok(())
}

/// Returns the slot of the next turn, or `None` if none is left, or after an event past those that
/// are shown.
fn next_turn(turns: &mut FileTurns, config: &Config, range: EventRange, count: u32) -> Option<u16>
    requires { IsTurnsOf config.now turns.old }
    ensures next { IfSome result (λ slot.
        turns_left config.now turns.old ≡ slot ∷ turns_left config.now turns.new) }
    ensures board { IsTurnsOf config.now turns.new }
{
    if range.last < count {
        return None;
    }
    match turns.next(config) {
        Some(slot) => Some(slot),
        None => None,
    }
}

/// Performs a turn, and gathers its event if it is shown.
fn draw_turn<'a, W: Sink>(
    config: &'a Config,
    slot: u16,
    range: EventRange,
    drawing: &mut Drawing,
    stepper: &mut Stepper<'a>,
    text: &mut Vec<u8>,
    writer: &mut W,
) -> Result<(), RunFault>
    requires few { drawing.old.count < 2 ^ 32 - 1 }
    requires stepper { IsStepperOf config.now stepper.old }
    requires capacity { StepsWithin (2 ^ 64 - 2) stepper.old.machine }
    requires unmarked { W.is_marked writer.old ≡ false }
    ensures sound { OnOk result (IsStepperOf config.now stepper.new) }
    ensures turn { OnOk result
        (stepper.new ≡ stepper_turn_at config.now stepper.old (board_in_slot config.now slot)) }
    ensures count { OnOk result (drawing.new.count ≤ drawing.old.count + 1) }
    ensures shows { (events : List Observation) → ShowsRun config.now events drawing.old →
        OnOk result (ShowsRun config.now (events ++ option_to_list
        (observed_at config.now stepper.old (board_in_slot config.now slot))) drawing.new) }
    ensures grows { OnOk result (Grows (W.contents writer.old) (W.contents writer.new)) }
    ensures write { W.is_marked writer.new ≡ is_write_end result }
    ensures faults { IfErr result IsReportFault }
{
    let Some(board) = board_in_slot(config, slot) else {
        return Ok(());
    };
    match observe_turn(stepper, config, board) {
        Some(event) => gather_event(config, &event, range, drawing, text, writer),
        None => Ok(()),
    }
}

/// Gathers an event if it is shown.
fn gather_event<W: Sink>(
    config: &Config,
    event: &Observation,
    range: EventRange,
    drawing: &mut Drawing,
    text: &mut Vec<u8>,
    writer: &mut W,
) -> Result<(), RunFault>
    requires few { drawing.old.count < 2 ^ 32 - 1 }
    requires unmarked { W.is_marked writer.old ≡ false }
    ensures count { OnOk result (drawing.new.count ≡ drawing.old.count + 1) }
    ensures shows { (events : List Observation) → ShowsRun config.now events drawing.old →
        OnOk result (ShowsRun config.now (events ++ event.now ∷ []) drawing.new) }
    ensures grows { OnOk result (Grows (W.contents writer.old) (W.contents writer.new)) }
    ensures write { W.is_marked writer.new ≡ is_write_end result }
    ensures faults { IfErr result IsReportFault }
{
    drawing.draw(text, config, range, event)?;
    flush_if_full(text, writer)?;
    Ok(())
}
