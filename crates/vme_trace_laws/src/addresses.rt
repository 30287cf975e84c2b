//! The law of the address over the events of a transfer. The function's contract is the law.
ghost use Rattle.std.specs.Prelude.{◌≡◌, ◌<◌, ◌∷◌, ◌++◌, ℕ, List, Some, true, length, All};
ghost use Rattle.vme_script.specs.Configurations.{Configuration};
ghost use Rattle.vme_script.specs.Lawful.{IsLawful};
ghost use Rattle.vme_trace.specs.declared.observation.Observation.{Observation};
ghost use Rattle.vme_trace.specs.Observations.{observations};
ghost use Rattle.vme_trace.specs.declared.dump.change.Code.{Code};
ghost use Rattle.vme_trace.specs.declared.dump.change.Value.{Value};
ghost use Rattle.vme_trace.specs.declared.dump.handshake.Handshake.{Handshake};
ghost use Rattle.vme_trace.specs.Handshakes.{first_handshake};
ghost use Rattle.vme_trace.specs.Events.{event_changes};
ghost use Rattle.vme_trace.specs.Shown.{value_at, value_in_run};
ghost use Rattle.vme_trace.specs.Changes.{level_of};
ghost use Rattle.vme_trace_laws.specs.Shown.{write_line};
ghost use Rattle.vme_trace_laws.specs.Addresses.{IsAddressLine, CarriesNoData, KeepsWrite, EachHandshake, IsAmid, release_edge_of};

/// States that AM5 to AM0, A31 to A01, LWORD* and WRITE* have the values of a transfer's first cycle
/// from the begin of the first event until the transfer ends, at each edge of each event, also of other
/// processors (IEEE 1014-1987, 2.3.7). For WRITE* it is no read-modify-write, in which that line falls;
/// for the others the address lines carry no data.
pub fn the_address_stays_over_a_transfer()
    ensures begins { (boards n : ℕ) (o : Observation) (t : Handshake) (line : Code)
        (value before : Value) (k : ℕ) → EachHandshake CarriesNoData o →
        first_handshake o.activity o.reply ≡ Some t → t.opens ≡ true → IsAddressLine line t value →
        k < release_edge_of o → value_at line (event_changes boards n o) before k ≡ value }
    ensures stays { (config : Configuration) (lawful : IsLawful config) (slots : List ℕ)
        (events between later : List Observation) (o p : Observation) (t : Handshake) (line : Code)
        (value before : Value) (k : ℕ) →
        observations config slots ≡ events ++ o ∷ (between ++ p ∷ later) →
        first_handshake o.activity o.reply ≡ Some t → t.opens ≡ true →
        All (IsAmid CarriesNoData) (o ∷ between) → EachHandshake CarriesNoData p →
        IsAddressLine line t value → k < release_edge_of p →
        value_in_run line (length config.boards) (events ++ o ∷ between) p before k ≡ value }
    ensures write { (config : Configuration) (lawful : IsLawful config) (slots : List ℕ)
        (events between later : List Observation) (o p : Observation) (t : Handshake)
        (before : Value) (k : ℕ) →
        observations config slots ≡ events ++ o ∷ (between ++ p ∷ later) →
        first_handshake o.activity o.reply ≡ Some t → t.opens ≡ true →
        All (IsAmid KeepsWrite) (o ∷ between) → EachHandshake KeepsWrite p → k < release_edge_of p →
        value_in_run write_line (length config.boards) (events ++ o ∷ between) p before k
        ≡ level_of t.lines.write }
{}
