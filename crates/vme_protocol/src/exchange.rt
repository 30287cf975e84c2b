//! Tests of strobes, data and answers.
ghost use Rattle.std.specs.Prelude.{◌≡◌};
ghost use Rattle.vme_protocol.specs.Exchange.{has_lone_strobe, data_change, write_changes, written_moves, read_moves, answers_alone, falls_under_answer, moves_unanswered, has_two_answers, answer_rises_early, is_late, has_no_row, misplaces};

use crate::lines::{meet, moved};
use crate::sample::{Sample, answer_falls, answer_rises, strobe_falls, strobe_rises};
use crate::transfer::Transfer;
use crate::watch::Watch;

/// Whether a strobe is low without AS*: J6.
#[tactic(auto, unfolding(crate::specs::Exchange::has_lone_strobe))]
pub(crate) fn has_lone_strobe(w: &Watch, s: &Sample) -> bool
    ensures { result ≡ has_lone_strobe w.now s.now }
{
    let is_held = w.scope.is_strict() || !s.has_answer();
    s.address_strobe && (strobe_falls(&w.last, s) || s.has_strobe() && is_held)
}

/// Whether WRITE* changes as a strobe falls, or while one is low.
fn write_changes(w: &Watch, t: &Transfer, s: &Sample) -> bool
    ensures { result ≡ write_changes w.now t.now s.now }
{
    t.judged && s.has_strobe() && w.last.write != s.write
}

/// Whether data change in a write up to the answer.
fn written_moves(w: &Watch, t: &Transfer, s: &Sample) -> bool
    ensures { result ≡ written_moves w.now t.now s.now }
{
    let is_written = s.has_strobe() && !w.last.has_answer() && !s.write;
    is_written && meet(t.data_lanes(s), w.handshake.moved_after(&w.last, s))
}

/// Whether data change in a read under the answer.
fn read_moves(w: &Watch, s: &Sample) -> bool
    ensures { result ≡ read_moves w.now s.now }
{
    let is_read = w.last.has_strobe() && s.has_strobe();
    is_read && meet(w.handshake.lanes, moved(&w.last, s))
}

/// Whether WRITE* or data change: J7.
#[tactic(auto, unfolding(crate::specs::Exchange::data_change))]
pub(crate) fn data_change(w: &Watch, t: &Transfer, s: &Sample) -> bool
    ensures { result ≡ data_change w.now t.now s.now }
{
    write_changes(w, t, s) || written_moves(w, t, s) || w.scope.is_strict() && read_moves(w, s)
}

/// Whether an answer falls while no strobe is low: J8.
#[tactic(auto, unfolding(crate::specs::Exchange::answers_alone))]
pub(crate) fn answers_alone(w: &Watch, s: &Sample) -> bool
    ensures { result ≡ answers_alone w.now s.now }
{
    answer_falls(&w.last, s) && !s.has_strobe()
}

/// Whether the first strobe falls while the last answer is low: J9.
#[tactic(auto, unfolding(crate::specs::Exchange::falls_under_answer))]
pub(crate) fn falls_under_answer(w: &Watch, s: &Sample) -> bool
    ensures { result ≡ falls_under_answer w.now s.now }
{
    let is_first = strobe_falls(&w.last, s) && !w.last.has_strobe();
    is_first && w.last.has_answer() && s.has_answer()
}

/// Whether a strobe rises before the answer, or falls under it: J10.
#[tactic(auto, unfolding(crate::specs::Exchange::moves_unanswered))]
pub(crate) fn moves_unanswered(w: &Watch, s: &Sample) -> bool
    ensures { result ≡ moves_unanswered w.now s.now }
{
    let falls_again = strobe_falls(&w.last, s) && w.last.has_strobe();
    strobe_rises(&w.last, s) && !w.last.has_answer() || falls_again && w.last.has_answer()
}

/// Whether both answers are low: J11.
#[tactic(auto, unfolding(crate::specs::Exchange::has_two_answers))]
pub(crate) fn has_two_answers(s: &Sample) -> bool
    ensures { result ≡ has_two_answers s.now }
{
    !s.dtack && !s.berr
}

/// Whether the answer rises while a strobe is low: J12.
#[tactic(auto, unfolding(crate::specs::Exchange::answer_rises_early))]
pub(crate) fn answer_rises_early(w: &Watch, s: &Sample) -> bool
    ensures { result ≡ answer_rises_early w.now s.now }
{
    answer_rises(&w.last, s) && w.last.has_strobe() && s.has_strobe()
}

/// Whether a strobe has been low for too long: J16.
#[tactic(auto, unfolding(crate::specs::Exchange::is_late))]
pub(crate) fn is_late(w: &Watch, s: &Sample) -> bool
    ensures { result ≡ is_late w.now s.now }
{
    let is_waiting = w.last.has_strobe() && !w.last.has_answer();
    is_waiting && s.time.saturating_sub(w.handshake.since) > w.scope.timeout
}

/// Whether an answer ends a cycle whose code has no row: J2.
#[tactic(auto, unfolding(crate::specs::Exchange::has_no_row))]
pub(crate) fn has_no_row(w: &Watch, t: &Transfer, s: &Sample) -> bool
    ensures { result ≡ has_no_row w.now t.now s.now }
{
    answer_falls(&w.last, s) && t.judged && !t.has_row
}

/// Whether an answer ends a datum that may not come in its transfer: J13.
#[tactic(auto, unfolding(crate::specs::Exchange::misplaces))]
pub(crate) fn misplaces(w: &Watch, t: &Transfer, s: &Sample) -> bool
    ensures { result ≡ misplaces w.now t.now s.now }
{
    answer_falls(&w.last, s) && t.judged && t.breaks_transfer(s)
}
