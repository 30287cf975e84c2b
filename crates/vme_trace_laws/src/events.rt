ghost use Rattle.std.specs.Prelude.{◌≡◌, ◌≢◌, ◌≤◌, ◌<◌, ◌⊎◌, ℕ, suc, true, IsTrue, Some};
ghost use Rattle.vme_trace.specs.declared.observation.Observation.{Observation};
ghost use Rattle.vme_trace.specs.declared.dump.handshake.Handshake.{Handshake};
ghost use Rattle.vme_trace.specs.declared.dump.change.Code.{Code};
ghost use Rattle.vme_trace.specs.declared.dump.change.Value.{Value};
ghost use Rattle.vme_trace.specs.declared.dump.change.Value.TheVariants.{Low, High, Lanes, Grants};
ghost use Rattle.vme_trace.specs.Changes.{no_lanes};
ghost use Rattle.vme_trace.specs.declared.dump.edge.TheConstants.{END, STROBES_RISE};
ghost use Rattle.vme_trace.specs.declared.dump.variable.Variable.{Variable};
ghost use Rattle.vme_trace.specs.Variables.{code_of};
ghost use Rattle.vme_trace.specs.Handshakes.{edge_of, second_handshake};
ghost use Rattle.vme_trace.specs.Bus.{lower_lanes};
ghost use Rattle.vme_trace.specs.Slots.{selects, has_ended};
ghost use Rattle.vme_trace.specs.Events.{event_changes};
ghost use Rattle.vme_trace_laws.specs.Shown.{address_strobe, data_lines, upper_data_lines, first_strobe, second_strobe, acknowledge, bus_error, IsStrobe, IsAnswer};
ghost use Rattle.vme_trace.specs.Shown.{value_at};
ghost use Rattle.vme_trace_laws.specs.Events.{IsHandshakeOf, IsWithin, HasStrobes, event_line, event_strobe, grant_lines_in, selected_line, IsPortLine};

/// States the rules of strobes and answers (IEEE 1014-1987, 2) of a whole event with no handshake,
/// one, or two, as in a read-modify-write. A data strobe is low only while AS* is, and AS* stays low
/// from the first handshake to the end of the second. DTACK* or BERR* falls only while a data strobe
/// is low, if the locations have one, and rises only when both are high; they are not both low.
pub fn events_keep_the_rules()
    ensures strobe { (boards n : ℕ) (o : Observation) (line : Code) (k : ℕ) → IsStrobe line →
        event_line boards n o line k ≡ Low → event_strobe boards n o k ≡ Low }
    ensures between { (boards n : ℕ) (o : Observation) (t : Handshake) (k : ℕ) →
        second_handshake o.activity o.reply ≡ Some t → 1 ≤ k → k < edge_of t STROBES_RISE →
        event_strobe boards n o k ≡ Low }
    ensures falls { (boards n : ℕ) (o : Observation) (line : Code) (k : ℕ) →
        IsAnswer line → HasStrobes o →
        event_line boards n o line k ≢ Low → event_line boards n o line (suc k) ≡ Low →
        (event_line boards n o first_strobe (suc k) ≡ Low)
        ⊎ (event_line boards n o second_strobe (suc k) ≡ Low) }
    ensures rises { (boards n : ℕ) (o : Observation) (line strobe : Code) (k : ℕ) →
        IsAnswer line → IsStrobe strobe →
        event_line boards n o line k ≡ Low → event_line boards n o line (suc k) ≢ Low →
        event_line boards n o strobe (suc k) ≢ Low }
    ensures one { (boards n : ℕ) (o : Observation) (k : ℕ) →
        event_line boards n o acknowledge k ≡ Low → event_line boards n o bus_error k ≢ Low }
{}

/// States that in a whole event the data lines have the bytes of the datum as long as an answer and a
/// data strobe are low within a handshake that carries data (IEEE 1014-1987, 2). In a
/// read-modify-write these are the bytes that were read, and then those that are written.
pub fn events_show_their_data()
    ensures { (boards n : ℕ) (o : Observation) (t : Handshake) (line strobe : Code) (k : ℕ)
        (before : Value) → IsHandshakeOf o t → IsTrue t.carries → IsAnswer line →
        IsStrobe strobe → IsWithin t k →
        event_line boards n o line k ≡ Low → event_line boards n o strobe k ≡ Low →
        value_at data_lines (event_changes boards n o) before k ≡ Lanes (lower_lanes t.lines.lanes) }
{}

/// States that an event leaves data strobes, DTACK* and BERR* high, the data lines released, the grant
/// lines of each slot high, and the local port of each board idle, if they were so before it; and that
/// AS* is high and its board not selected if a transfer ends with it (IEEE 1014-1987, 2 and 3.3).
pub fn events_end_at_rest()
    ensures strobes { (boards n : ℕ) (o : Observation) (line : Code) → IsStrobe line →
        event_line boards n o line END ≡ High }
    ensures answers { (boards n : ℕ) (o : Observation) (line : Code) → IsAnswer line →
        event_line boards n o line END ≡ High }
    ensures data { (boards n : ℕ) (o : Observation) →
        value_at data_lines (event_changes boards n o) no_lanes END ≡ no_lanes }
    ensures upper { (boards n : ℕ) (o : Observation) →
        value_at upper_data_lines (event_changes boards n o) no_lanes END ≡ no_lanes }
    ensures grants { (boards n : ℕ) (o : Observation) (board : ℕ) → board < boards →
        value_at (grant_lines_in board) (event_changes boards n o) (Grants 15) END ≡ Grants 15 }
    ensures ports { (boards n : ℕ) (o : Observation) (board : ℕ) (variable : Variable) →
        board < boards → IsPortLine board variable →
        value_at (code_of variable) (event_changes boards n o) Low END ≡ Low }
    ensures address_strobe { (boards n : ℕ) (o : Observation) (before : Value) →
        has_ended o ≡ true → value_at address_strobe (event_changes boards n o) before END ≡ High }
    ensures selected { (boards n : ℕ) (o : Observation) (board : ℕ) (before : Value) →
        board < boards → selects o.activity board ≡ true → has_ended o ≡ true →
        value_at (selected_line board) (event_changes boards n o) before END ≡ Low }
{}
