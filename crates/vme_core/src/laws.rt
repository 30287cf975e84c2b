ghost use Rattle.std.specs.Prelude.{◌++◌, ◌∷◌, ℕ, List, []};
ghost use Rattle.vme_object.specs.Each.{AllAt};
ghost use Rattle.vme_memory.specs.Boards.{Board};
ghost use Rattle.vme_memory.specs.Locals.{board_step};
ghost use Rattle.vme_arbiter.specs.Arbitration.{Arbitration, arbiter_step};
ghost use Rattle.vme_core.specs.CountedStates.{IsCountedReplay};
ghost use Rattle.vme_core.specs.Runs.{Machine, Transition, IsRun, move, target_of, board_part, bus_part};
ghost use Rattle.vme_core.specs.Calls.{call_of, machine_step};
ghost use Rattle.vme_core.specs.Machines.{opening, IsThere};
ghost use Rattle.vme_core.specs.declared.event.Event.{Event};

/// States that runs compose: the empty run leaves the machine unchanged, and a second run continues
/// where the first ends.
pub fn runs_compose()
    ensures nothing { (m : Machine) → IsRun [] m m }
    ensures goes_on { (first then : List Transition) (a b c : Machine) →
        IsRun first a b → IsRun then b c → IsRun (first ++ then) a c }
{}

/// States that after a run from an opening state each board's memory, and the arbiter, is the
/// replay of its own part of the run. Its steps are the entries of that part, and the steps of each
/// processor are that processor's entries.
#[tactic(auto, using(crate::proofs::lemmas::CountedStates::run_replays))]
pub fn opening_is_replayed()
    ensures boards { (memories : List Board) (bus : Arbitration) (k : ℕ) (run : List Transition) (after : Machine) →
        IsRun run (opening memories bus k) after →
        AllAt (λ x memory b. IsCountedReplay board_step memory (board_part x run) k b) memories after.boards }
    ensures bus { (memories : List Board) (bus : Arbitration) (k : ℕ) (run : List Transition) (after : Machine) →
        IsRun run (opening memories bus k) after → IsCountedReplay arbiter_step bus (bus_part run) k after.bus }
{}

/// States that the call of an event is a run of one transition, with the reply of that call.
#[tactic(auto, using(crate::proofs::lemmas::Calls::did_call))]
pub fn a_call_is_a_run_of_one()
    ensures { (m : Machine) (who : ℕ) (event : Event) → IsThere m (target_of event) →
        IsRun (move who event (machine_step m who (call_of event)).1 ∷ []) m
        (machine_step m who (call_of event)).0 }
{}
