//! The law that polls that wait change no line. The function's contract is the law.
ghost use Rattle.std.specs.Prelude.{◌≡◌, ◌<◌, ℕ, true, None};
ghost use Rattle.vme_trace.specs.declared.observation.Observation.{Observation};
ghost use Rattle.vme_trace.specs.declared.dump.change.Value.{Value};
ghost use Rattle.vme_trace.specs.Events.{event_changes};
ghost use Rattle.vme_trace.specs.Selections.{waits};
ghost use Rattle.vme_trace.specs.Shown.{value_at};
ghost use Rattle.vme_trace.specs.Variables.{bus_code, slot_code};

/// States that an event that is a poll that waits, which grants nothing, changes no variable but the
/// number of the event, whose it is, and the number of the slot's line (IEEE 1014-1987, 3.3). The
/// first two have the letters `A` and `B`, the last one `a`. So a dump that leaves such events out
/// shows the same lines.
pub fn waiting_polls_change_no_line()
    ensures bus { (boards n : ℕ) (o : Observation) (letter k : ℕ) (before : Value) →
        waits o ≡ true → o.grant ≡ None → 66 < letter →
        value_at (bus_code letter) (event_changes boards n o) before k ≡ before }
    ensures slots { (boards n : ℕ) (o : Observation) (board letter k : ℕ) (before : Value) →
        waits o ≡ true → o.grant ≡ None → 97 < letter →
        value_at (slot_code board letter) (event_changes boards n o) before k ≡ before }
{}
