ghost use Rattle.std.specs.Prelude.{◌≡◌, ◌≢◌, ◌⊎◌, ℕ, List, Option, Some, None, All, slice_get};
ghost use Rattle.vme_memory.specs.Steps.{Command};
ghost use Rattle.vme_arbiter.specs.declared.command.ArbReply.TheVariants as arb_replies;
ghost use Rattle.vme_arbiter.specs.Orderly.{IsOrderly};
ghost use Rattle.vme_core.specs.declared.event.EventReply.TheVariants as replies;
ghost use Rattle.vme_core.specs.Runs.{Transition};
ghost use Rattle.vme_core.specs.Calls.{Call, OnBoard, machine_step};
ghost use Rattle.vme_script.specs.Configurations.{Configuration};
ghost use Rattle.vme_script.specs.Lawful.{IsLawful};
ghost use Rattle.vme_line_task.specs.Traces.{ScriptState};
ghost use Rattle.vme_line_task.specs.Tenures.{IsLocal, IsGranted};
ghost use Rattle.vme_stepper.specs.Turns.{SystemState, turn, state_after};
ghost use Rattle.vme_runner.specs.TurnCalls.{turn_call};
ghost use Rattle.vme_runner.specs.Transitions.{AreRun};

/// A turn changes the boards and the arbiter by its one call, or not at all if it makes no call.
pub fn a_turn_makes_its_call_alone()
    ensures call { (config : Configuration) (system : SystemState) (slot board : ℕ) (call : Call) →
        turn_call config system slot ≡ Some (board, call) →
        (turn config system slot).machine ≡ (machine_step system.machine board call).0 }
    ensures none { (config : Configuration) (system : SystemState) (slot : ℕ) →
        turn_call config system slot ≡ None →
        (turn config system slot).machine ≡ system.machine }
{}

/// After any turns of any slots of a lawful configuration, the arbiter's state is orderly, with at
/// most one holder. If the next turn of a slot makes a call on a board, the call is a command of a
/// local port or the slot holds the bus. The reply to the next call is not a denial, and no line
/// that has ended was denied the bus.
pub fn commands_are_the_holders()
    ensures orderly { (config : Configuration) (slots : List ℕ) → IsLawful config →
        IsOrderly (state_after config slots).machine.bus.object }
    ensures holder { (config : Configuration) (slots : List ℕ) (slot board place : ℕ)
        (command : Option Command) → IsLawful config →
        turn_call config (state_after config slots) slot ≡ Some (board, OnBoard place command) →
        IsLocal command ⊎ ((state_after config slots).machine.bus.object.holder ≡ Some slot) }
    ensures granted { (config : Configuration) (slots : List ℕ) (slot board : ℕ) (call : Call) →
        IsLawful config → turn_call config (state_after config slots) slot ≡ Some (board, call) →
        (machine_step (state_after config slots).machine board call).1
        ≢ replies.Bus arb_replies.Denied }
    ensures answers { (config : Configuration) (slots : List ℕ) (board : ℕ) (c : ScriptState) →
        IsLawful config → slice_get (state_after config slots).script_states board ≡ Some c →
        All IsGranted c.ended }
{}

/// The turns of a lawful configuration are a run of transitions, with at most one transition for
/// each turn. Each board and the arbiter are in the state that their own part of the run leads to,
/// and have counted that part. Each processor has followed its script by its own transitions.
pub fn turns_are_a_run_of_transitions()
    ensures { (config : Configuration) (slots : List ℕ) → IsLawful config →
        (run : List Transition) × AreRun config slots run }
{}
