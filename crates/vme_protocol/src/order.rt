//! Tests of AS*, the address and the lines that have to be defined.
ghost use Rattle.std.specs.Prelude.{◌≡◌};
ghost use Rattle.vme_protocol.specs.Order.{is_undefined, name_undefined, data_undefined, falls_early, is_within, rises_early, address_changes, stands, must_stand, address_moves};

use crate::lines::meet;
use crate::sample::{
    Sample, address_strobe_falls, address_strobe_rises, answer_falls, strobe_falls, strobe_rises,
};
use crate::transfer::Transfer;
use crate::watch::Watch;

/// Whether a line is undefined that has to be defined: J1.
#[tactic(auto, unfolding(crate::specs::Order::is_undefined))]
pub(crate) fn is_undefined(w: &Watch, t: &Transfer, s: &Sample) -> bool
    ensures { result ≡ is_undefined w.now t.now s.now }
{
    s.undefined || name_undefined(w, t, s) || data_undefined(w, t, s)
}

/// Whether the address or AM is undefined as AS* falls, or WRITE* as a strobe falls.
fn name_undefined(w: &Watch, t: &Transfer, s: &Sample) -> bool
    ensures { result ≡ name_undefined w.now t.now s.now }
{
    let is_vague = s.am_undefined || meet(s.lines_undefined, t.counted);
    t.judged
        && (address_strobe_falls(&w.last, s) && is_vague
            || strobe_falls(&w.last, s) && s.write_undefined)
}

/// Whether a lane of the location is undefined in a write up to the answer, or in a read as a strobe
/// rises.
fn data_undefined(w: &Watch, t: &Transfer, s: &Sample) -> bool
    ensures { result ≡ data_undefined w.now t.now s.now }
{
    let vague = w.handshake.vague_after(&w.last, s);
    let is_written = answer_falls(&w.last, s) && !s.write;
    is_written && meet(t.data_lanes(s), vague)
        || strobe_rises(&w.last, s) && meet(w.handshake.lanes, w.last.lines_undefined)
}

/// Whether AS* falls while BBSY* is high, or within a handshake: J3.
#[tactic(auto, unfolding(crate::specs::Order::falls_early))]
pub(crate) fn falls_early(w: &Watch, s: &Sample) -> bool
    ensures { result ≡ falls_early w.now s.now }
{
    address_strobe_falls(&w.last, s) && (w.scope.busy && s.busy || is_within(w))
}

/// Whether the last sample is within a handshake.
fn is_within(w: &Watch) -> bool
    ensures { result ≡ is_within w.now }
{
    if w.scope.is_strict() {
        w.last.has_strobe() || w.last.has_answer()
    } else {
        w.last.has_strobe() && !w.last.has_answer()
    }
}

/// Whether AS* rises between a strobe and its answer: J4. It may rise at the time of the answer.
#[tactic(auto, unfolding(crate::specs::Order::rises_early))]
pub(crate) fn rises_early(w: &Watch, t: &Transfer, s: &Sample) -> bool
    ensures { result ≡ rises_early w.now t.now s.now }
{
    let is_unanswered = w.last.has_strobe() && !w.last.has_answer() && !s.has_answer();
    let is_short = w.scope.is_strict() && (s.has_strobe() || !t.answered);
    address_strobe_rises(&w.last, s) && (is_unanswered || is_short)
}

/// Whether the address lines that count have these levels in a sample.
fn stands(am: u8, lines: u64, counted: u64, s: &Sample) -> bool
    ensures { result ≡ stands am lines counted s.now }
{
    s.am == am
        && !s.am_undefined
        && !meet(s.lines ^ lines, counted)
        && !meet(s.lines_undefined, counted)
}

/// Whether the address has to stand under AS*.
fn must_stand(w: &Watch, t: &Transfer, s: &Sample) -> bool
    ensures { result ≡ must_stand w.now t.now s.now }
{
    let is_second = !t.block && s.has_strobe() && !w.last.has_answer();
    let is_held = if w.scope.is_strict() {
        !t.wide
    } else {
        is_second
    };
    !t.answered || is_held
}

fn address_moves(w: &Watch, t: &Transfer, s: &Sample) -> bool
    ensures { result ≡ address_moves w.now t.now s.now }
{
    if w.last.address_strobe {
        !stands(s.am, s.lines, t.counted, &w.last)
    } else {
        must_stand(w, t, s) && !stands(t.am, t.lines, t.counted, s)
    }
}

/// Whether the address changes as AS* falls, or under AS* up to the answer: J5.
#[tactic(auto, unfolding(crate::specs::Order::address_changes))]
pub(crate) fn address_changes(w: &Watch, t: &Transfer, s: &Sample) -> bool
    ensures { result ≡ address_changes w.now t.now s.now }
{
    !s.address_strobe && t.judged && address_moves(w, t, s)
}
