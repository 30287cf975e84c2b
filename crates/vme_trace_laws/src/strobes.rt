//! Laws of AS* and the data strobes over runs. Each function's contract is a law.
ghost use Rattle.std.specs.Prelude.{◌≡◌, ◌∷◌, ◌++◌, ℕ, List, [], Some, None, length, is_none, if◌then◌else◌};
ghost use Rattle.vme_script.specs.Configurations.{Configuration};
ghost use Rattle.vme_script.specs.Lawful.{IsLawful};
ghost use Rattle.vme_trace.specs.declared.observation.Observation.{Observation};
ghost use Rattle.vme_trace.specs.Observations.{observations};
ghost use Rattle.vme_trace.specs.declared.dump.change.Code.{Code};
ghost use Rattle.vme_trace.specs.declared.dump.change.Value.TheVariants.{Low, High};
ghost use Rattle.vme_trace.specs.declared.dump.handshake.Handshake.{Handshake};
ghost use Rattle.vme_trace.specs.Changes.{level_of};
ghost use Rattle.vme_trace.specs.Handshakes.{first_handshake};
ghost use Rattle.vme_trace_laws.specs.Shown.{address_strobe, address_strobe_before, IsStrobe};
ghost use Rattle.vme_trace_laws.specs.Transfers.{open_transfer, transfer_board};
ghost use Rattle.vme_trace_laws.specs.Values.{busy_line};
ghost use Rattle.vme_trace.specs.Shown.{value_after_run, value_in_run};

use crate::events::{events_end_at_rest, events_keep_the_rules};

/// States that AS* is low while a transfer is open, from its first event to its last and over all
/// events between them, and high while none is (IEEE 1014-1987, 2). So AS* before each event is as
/// `events_keep_the_rules` has it: high if the event begins a transfer, and low if it goes on with one,
/// which is of the same board. At each edge of a run a data strobe is low only while AS* is, and AS*
/// only while the slot of the transfer's board drives BBSY*.
pub fn the_address_strobe_stays_low_in_a_transfer()
    ensures after { (config : Configuration) (slots : List ℕ) → IsLawful config →
        value_after_run address_strobe (length config.boards) (observations config slots) High
        ≡ level_of (is_none (open_transfer (observations config slots))) }
    ensures own { (config : Configuration) (slots : List ℕ) (events later : List Observation)
        (o : Observation) (t : Handshake) → IsLawful config →
        observations config slots ≡ events ++ o ∷ later → first_handshake o.activity o.reply ≡ Some t →
        open_transfer events ≡ (if t.opens then None else Some o.board) }
    ensures before { (config : Configuration) (slots : List ℕ) (events later : List Observation)
        (o : Observation) (t : Handshake) → IsLawful config →
        observations config slots ≡ events ++ o ∷ later → first_handshake o.activity o.reply ≡ Some t →
        value_after_run address_strobe (length config.boards) events High ≡ address_strobe_before t }
    ensures between { (config : Configuration) (slots : List ℕ) (events later : List Observation)
        (o : Observation) (a b k : ℕ) → IsLawful config →
        observations config slots ≡ events ++ o ∷ later →
        open_transfer events ≡ Some a → open_transfer (events ++ o ∷ []) ≡ Some b →
        value_in_run address_strobe (length config.boards) events o High k ≡ Low }
    ensures strobe { (config : Configuration) (slots : List ℕ) (events later : List Observation)
        (o : Observation) (line : Code) (k : ℕ) → IsLawful config →
        observations config slots ≡ events ++ o ∷ later → IsStrobe line →
        value_in_run line (length config.boards) events o High k ≡ Low →
        value_in_run address_strobe (length config.boards) events o High k ≡ Low }
    ensures busy { (config : Configuration) (slots : List ℕ) (events later : List Observation)
        (o : Observation) (k : ℕ) → IsLawful config →
        observations config slots ≡ events ++ o ∷ later →
        value_in_run address_strobe (length config.boards) events o High k ≡ Low →
        (board : ℕ) × (transfer_board events o ≡ Some board)
        × (value_in_run (busy_line board) (length config.boards) events o High k ≡ Low) }
{
    events_end_at_rest();
    events_keep_the_rules();
}
