//! Laws of runs. Each function's contract is a law; its body is empty.
ghost use Rattle.std.specs.Prelude.{◌≡◌, ◌<◌, ◌∷◌, ◌++◌, ℕ, List, Some, None, length, filter, not, is_none};
ghost use Rattle.vme_arbiter.specs.Arbitration.{holds};
ghost use Rattle.vme_core.specs.declared.event.Target.{Target};
ghost use Rattle.vme_core.specs.Machines.{IsThere, steps_of};
ghost use Rattle.vme_script.specs.Configurations.{Configuration};
ghost use Rattle.vme_script.specs.Lawful.{IsLawful};
ghost use Rattle.vme_stepper.specs.Turns.{initial_state, state_after};
ghost use Rattle.vme_line_task.specs.Scripts.{slot_at};
ghost use Rattle.vme_trace.specs.declared.observation.Observation.{Observation};
ghost use Rattle.vme_trace.specs.Observations.{observations};
ghost use Rattle.vme_trace.specs.declared.dump.change.Code.{Code};
ghost use Rattle.vme_trace.specs.declared.dump.change.Value.{Value};
ghost use Rattle.vme_trace.specs.declared.dump.change.Value.TheVariants.{Low, High, Released, Number, Grants};
ghost use Rattle.vme_trace.specs.Changes.{level_of, no_lanes};
ghost use Rattle.vme_trace.specs.declared.dump.variable.Variable.{Variable};
ghost use Rattle.vme_trace.specs.Variables.{code_of};
ghost use Rattle.vme_trace_laws.specs.Shown.{data_lines, upper_data_lines, IsStrobe, IsAnswer};
ghost use Rattle.vme_trace_laws.specs.Events.{grant_lines_in, IsPortLine};
ghost use Rattle.vme_trace_laws.specs.Steps.{IsRunShown, AreDataInOrder};
ghost use Rattle.vme_trace_laws.specs.Counts.{is_shown_on, all_steps};
ghost use Rattle.vme_trace_laws.specs.Values.{event_number, holder_shown, holder_line, bus_busy_line, busy_line};
ghost use Rattle.vme_trace.specs.Shown.{value_after_run, value_in_run};

use crate::events::events_end_at_rest;

/// States that each event is shown once. The events of turns of any slots are the steps of a run of
/// the machine, in order; one of a transfer shows the datum whose command the step is. The data of each
/// transfer are shown one after another, from the first on. Each board's memory has made as many steps,
/// which the report prints, as events are shown on the board, and the arbiter as many as events are shown
/// on it.
pub fn each_event_is_shown_once()
    ensures run { (config : Configuration) (slots : List ℕ) → IsRunShown config
        (initial_state config).machine (observations config slots) (state_after config slots).machine }
    ensures data { (config : Configuration) (slots : List ℕ) → IsLawful config →
        AreDataInOrder config (initial_state config).machine None (observations config slots) }
    ensures steps { (config : Configuration) (slots : List ℕ) (target : Target) →
        IsThere (state_after config slots).machine target →
        steps_of (state_after config slots).machine target
        ≡ Some (length (filter (is_shown_on target) (observations config slots))) }
    ensures all { (config : Configuration) (slots : List ℕ) →
        all_steps (state_after config slots).machine ≡ length (observations config slots) }
    ensures number { (config : Configuration) (slots : List ℕ) (before : Value) → IsLawful config →
        0 < length (observations config slots) →
        value_after_run event_number (length config.boards) (observations config slots) before
        ≡ Number 32 (length (observations config slots)) }
{}

/// States that at most one slot drives BBSY* at any edge of any event of a run, and that after turns
/// of any slots it is the slot that holds the bus (IEEE 1014-1987, 3.2). The variables of the bus show
/// the same: the holder is that of the arbiter, and BBSY* is low if there is one.
pub fn one_slot_drives_busy()
    ensures slot { (config : Configuration) (slots : List ℕ) (board : ℕ) → IsLawful config →
        board < length config.boards →
        value_after_run (busy_line board) (length config.boards) (observations config slots) High
        ≡ level_of (not (holds (state_after config slots).machine.bus.object (slot_at config board))) }
    ensures one { (config : Configuration) (slots : List ℕ) (events later : List Observation)
        (o : Observation) (k a b : ℕ) → IsLawful config →
        a < length config.boards → b < length config.boards →
        observations config slots ≡ events ++ o ∷ later →
        value_in_run (busy_line a) (length config.boards) events o High k ≡ Low →
        value_in_run (busy_line b) (length config.boards) events o High k ≡ Low → a ≡ b }
    ensures holder { (config : Configuration) (slots : List ℕ) → IsLawful config →
        value_after_run holder_line (length config.boards) (observations config slots) Released
        ≡ holder_shown (state_after config slots).machine.bus.object.holder }
    ensures busy { (config : Configuration) (slots : List ℕ) → IsLawful config →
        value_after_run bus_busy_line (length config.boards) (observations config slots) High
        ≡ level_of (is_none (state_after config slots).machine.bus.object.holder) }
{}

/// States that after turns of any slots the data strobes, DTACK* and BERR* are high, the data lines
/// released, the grant lines of each slot high, and the local port of each board idle
/// (IEEE 1014-1987, 2 and 3.3).
pub fn runs_end_at_rest()
    ensures strobes { (config : Configuration) (slots : List ℕ) (line : Code) → IsStrobe line →
        value_after_run line (length config.boards) (observations config slots) High ≡ High }
    ensures answers { (config : Configuration) (slots : List ℕ) (line : Code) → IsAnswer line →
        value_after_run line (length config.boards) (observations config slots) High ≡ High }
    ensures data { (config : Configuration) (slots : List ℕ) →
        value_after_run data_lines (length config.boards) (observations config slots) no_lanes
        ≡ no_lanes }
    ensures upper { (config : Configuration) (slots : List ℕ) →
        value_after_run upper_data_lines (length config.boards) (observations config slots) no_lanes
        ≡ no_lanes }
    ensures grants { (config : Configuration) (slots : List ℕ) (board : ℕ) →
        board < length config.boards → value_after_run (grant_lines_in board)
        (length config.boards) (observations config slots) (Grants 15) ≡ Grants 15 }
    ensures ports { (config : Configuration) (slots : List ℕ) (board : ℕ) (variable : Variable) →
        board < length config.boards → IsPortLine board variable → value_after_run (code_of variable)
        (length config.boards) (observations config slots) Low ≡ Low }
{
    events_end_at_rest();
}
