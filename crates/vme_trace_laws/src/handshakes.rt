ghost use Rattle.std.specs.Prelude.{◌≡◌, ◌≢◌, ◌⊎◌, ℕ, suc, false, IsTrue};
ghost use Rattle.vme_trace.specs.declared.dump.handshake.Handshake.{Handshake};
ghost use Rattle.vme_trace.specs.declared.dump.change.Code.{Code};
ghost use Rattle.vme_trace.specs.declared.dump.change.Value.{Value};
ghost use Rattle.vme_trace.specs.declared.dump.change.Value.TheVariants.{Low, Number, Lanes};
ghost use Rattle.vme_trace.specs.Changes.{level_of};
ghost use Rattle.vme_trace.specs.Bus.{address_number, is_wide, lower_lanes, handshake_changes};
ghost use Rattle.vme_trace_laws.specs.Shown.{address_strobe_at, line_at, address_modifier, address_lines, long_word, write_line, first_strobe, second_strobe, data_lines, acknowledge, bus_error, IsStrobe, IsAnswer, HasStrobe};
ghost use Rattle.vme_trace.specs.Shown.{value_at};

/// States that a data strobe is low only while AS* is low (IEEE 1014-1987, 2).
pub fn strobes_are_low_under_the_address_strobe()
    ensures { (t : Handshake) (line : Code) (k : ℕ) →
        IsStrobe line → line_at t line k ≡ Low → address_strobe_at t k ≡ Low }
{}

/// States the order of strobes and answers in a handshake (IEEE 1014-1987, 2). DTACK* or BERR*
/// falls only while a data strobe is low, if the location has one; it rises only when both are high,
/// and no handshake has both answers.
pub fn answers_follow_the_strobes()
    ensures falls { (t : Handshake) (line : Code) (k : ℕ) → IsAnswer line → HasStrobe t →
        line_at t line k ≢ Low → line_at t line (suc k) ≡ Low →
        (line_at t first_strobe (suc k) ≡ Low) ⊎ (line_at t second_strobe (suc k) ≡ Low) }
    ensures rises { (t : Handshake) (line strobe : Code) (k : ℕ) → IsAnswer line → IsStrobe strobe →
        line_at t line k ≡ Low → line_at t line (suc k) ≢ Low →
        line_at t strobe (suc k) ≢ Low }
    ensures one { (t : Handshake) (j k : ℕ) →
        line_at t acknowledge j ≡ Low → line_at t bus_error k ≢ Low }
{}

/// States that the data lines have the bytes of the datum as long as an answer and a data strobe are
/// low (IEEE 1014-1987, 2), if the handshake carries data.
pub fn data_stand_under_the_answer()
    ensures { (t : Handshake) (line strobe : Code) (k : ℕ) (before : Value) →
        IsTrue t.carries → IsAnswer line → IsStrobe strobe →
        line_at t line k ≡ Low → line_at t strobe k ≡ Low →
        value_at data_lines (handshake_changes t) before k ≡ Lanes (lower_lanes t.lines.lanes) }
{}

/// States that, while an answer is low, the address modifier, A31 to A01, LWORD* and WRITE* have the
/// levels of the cycle's lines, in a handshake for which AS* falls (IEEE 1014-1987, 2). For A31 to
/// A01 and LWORD* the address lines carry no data; for WRITE* it does not fall within the handshake.
pub fn the_address_stands_under_the_answer()
    ensures modifier { (t : Handshake) (line : Code) (k : ℕ) (before : Value) → IsTrue t.opens →
        IsAnswer line → line_at t line k ≡ Low →
        value_at address_modifier (handshake_changes t) before k ≡ Number 6 t.lines.am.code }
    ensures address { (t : Handshake) (line : Code) (k : ℕ) (before : Value) → IsTrue t.opens →
        is_wide t ≡ false → t.clears ≡ false → IsAnswer line → line_at t line k ≡ Low →
        value_at address_lines (handshake_changes t) before k ≡ Number 32 (address_number t.lines) }
    ensures long_word { (t : Handshake) (line : Code) (k : ℕ) (before : Value) → IsTrue t.opens →
        is_wide t ≡ false → t.clears ≡ false → IsAnswer line → line_at t line k ≡ Low →
        value_at long_word (handshake_changes t) before k ≡ level_of t.lines.strobes.lword }
    ensures write { (t : Handshake) (line : Code) (k : ℕ) (before : Value) → IsTrue t.opens →
        t.falls ≡ false → IsAnswer line → line_at t line k ≡ Low →
        value_at write_line (handshake_changes t) before k ≡ level_of t.lines.write }
{}
