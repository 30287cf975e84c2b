//! Laws of bus requests and grants. Each function's contract is a law; its body is empty.
ghost use Rattle.std.specs.Prelude.{◌≡◌, ◌≢◌, ◌≤◌, ◌<◌, ◌+◌, ◌∷◌, ◌++◌, ℕ, List, Some, length, not};
ghost use Rattle.vme_arbiter.specs.Arbitration.{pends};
ghost use Rattle.vme_stepper.specs.Turns.{state_after};
ghost use Rattle.vme_script.specs.Configurations.{Configuration};
ghost use Rattle.vme_script.specs.Lawful.{IsLawful};
ghost use Rattle.vme_line_task.specs.Scripts.{slot_at, level_at};
ghost use Rattle.vme_trace.specs.declared.observation.Observation.{Observation};
ghost use Rattle.vme_trace.specs.declared.observation.grant.Grant.{Grant};
ghost use Rattle.vme_trace.specs.Observations.{observations};
ghost use Rattle.vme_trace.specs.declared.dump.change.Value.{Value};
ghost use Rattle.vme_trace.specs.declared.dump.change.Value.TheVariants.{Low, High, Grants};
ghost use Rattle.vme_trace.specs.declared.dump.edge.TheConstants.{BUSY_FALLS, REQUEST_RISES};
ghost use Rattle.vme_trace.specs.Changes.{level_of};
ghost use Rattle.vme_trace.specs.Slots.{grant_edge};
ghost use Rattle.vme_trace.specs.Events.{event_changes};
ghost use Rattle.vme_trace.specs.Shown.{value_at, value_after_run, value_in_run};
ghost use Rattle.vme_trace_laws.specs.Events.{grant_lines_in};
ghost use Rattle.vme_trace_laws.specs.Values.{bus_busy_line, busy_line};
ghost use Rattle.vme_trace_laws.specs.Grants.{request_line, IsGrantEdge, low_on};

/// States that a grant ends at the slot that takes it (IEEE 1014-1987, 3.3). While it is shown, BGnIN*
/// of its level is low at that slot and at each slot before it on the daisy chain; at slots behind it, at
/// other edges and in other events all grant lines are high. The slot drives BBSY* low before the grant
/// ends, and then releases its bus request line.
pub fn grants_end_at_the_slot_that_takes_them()
    ensures low { (boards n : ℕ) (o : Observation) (board k : ℕ) → board < boards →
        value_at (grant_lines_in board) (event_changes boards n o) (Grants 15) k ≢ Grants 15 →
        (g : Grant) × (o.grant ≡ Some g) × (board ≤ g.board) × IsGrantEdge o k }
    ensures chain { (boards n : ℕ) (o : Observation) (g : Grant) (board k : ℕ) (before : Value) →
        o.grant ≡ Some g → g.level ≤ 3 → board < boards → board ≤ g.board → IsGrantEdge o k →
        value_at (grant_lines_in board) (event_changes boards n o) before k ≡ low_on g.level }
    ensures taken { (boards n : ℕ) (o : Observation) (g : Grant) (k : ℕ) (before : Value) →
        o.grant ≡ Some g → g.board < boards → grant_edge o.activity + BUSY_FALLS ≤ k →
        value_at (busy_line g.board) (event_changes boards n o) before k ≡ Low }
    ensures released { (boards n : ℕ) (o : Observation) (g : Grant) (k : ℕ) (before : Value) →
        o.grant ≡ Some g → g.board < boards → grant_edge o.activity + REQUEST_RISES ≤ k →
        value_at (request_line g.board) (event_changes boards n o) before k ≡ High }
{}

/// States that after turns of any slots each grant goes to a slot that requests the bus, while BBSY* is
/// high (IEEE 1014-1987, 3.3): when the grant begins, the slot's bus request line is low, and BBSY* is
/// high. The grant is on the level of the slot's board. After the turns the bus request line of a slot
/// is low exactly if its request is pending.
pub fn grants_go_to_slots_that_request()
    ensures slot { (config : Configuration) (slots : List ℕ) (events later : List Observation)
        (o : Observation) (g : Grant) → IsLawful config →
        observations config slots ≡ events ++ o ∷ later → o.grant ≡ Some g →
        (g.board < length config.boards) × (g.slot ≡ slot_at config g.board)
        × (g.level ≡ level_at config g.board) × (g.level ≤ 3) }
    ensures pending { (config : Configuration) (slots : List ℕ) (board : ℕ) → IsLawful config →
        board < length config.boards →
        value_after_run (request_line board) (length config.boards) (observations config slots) High
        ≡ level_of (not (pends (state_after config slots).machine.bus.object (slot_at config board))) }
    ensures request { (config : Configuration) (slots : List ℕ) (events later : List Observation)
        (o : Observation) (g : Grant) → IsLawful config →
        observations config slots ≡ events ++ o ∷ later → o.grant ≡ Some g →
        value_in_run (request_line g.board) (length config.boards) events o High
        (grant_edge o.activity) ≡ Low }
    ensures free { (config : Configuration) (slots : List ℕ) (events later : List Observation)
        (o : Observation) (g : Grant) → IsLawful config →
        observations config slots ≡ events ++ o ∷ later → o.grant ≡ Some g →
        value_in_run bus_busy_line (length config.boards) events o High (grant_edge o.activity)
        ≡ High }
{}
