ghost use Rattle.std.specs.Prelude.{◌≡◌, Option};
ghost use Rattle.vme_protocol.specs.Watching.{started, current, watched, shown, written_at, lines_broken, handshake_broken, transfer_broken, broken, answer_of, next_watch};

use crate::arbitration::{breaks_grants, two_hold};
use crate::datum::Datum;
use crate::exchange::{
    answer_rises_early, answers_alone, data_change, falls_under_answer, has_lone_strobe,
    has_no_row, has_two_answers, is_late, misplaces, moves_unanswered,
};
use crate::handshake::Handshake;
use crate::order::{address_changes, falls_early, is_undefined, rises_early};
use crate::place::Place;
use crate::rule::Rule;
use crate::sample::{Sample, address_strobe_falls, answer_falls, strobe_rises};
use crate::scope::Scope;
use crate::transfer::Transfer;

/// What is remembered of a trace.
#[derive(Clone, Copy, Debug, PartialEq, Eq)]
pub struct Watch {
    /// Which rules are judged.
    pub scope: Scope,
    /// The last sample.
    pub last: Sample,
    /// What is remembered of the transfer, from the fall of AS* on.
    pub transfer: Transfer,
    /// What is remembered of the handshake, from the first strobe's fall on.
    pub handshake: Handshake,
}

impl Watch {
    /// Returns what is remembered after the first sample.
    pub fn new(scope: Scope, first: Sample) -> Watch
        ensures { result ≡ started scope first }
    {
        Watch {
            scope,
            last: first,
            transfer: Transfer::opened(&scope, &first),
            handshake: Handshake::fresh(),
        }
    }

    /// Takes the next sample: returns the datum that it shows, if it shows one.
    ///
    /// # Errors
    ///
    /// The first rule that the sample breaks. The watch is then as it was.
    pub fn push(&mut self, s: &Sample) -> Result<Option<Datum>, Rule>
        ensures answer { result ≡ answer_of self.old s.now }
        ensures next { self.new ≡ next_watch self.old s.now }
    {
        if let Some(rule) = self.broken(s) {
            return Err(rule);
        }
        let datum = self.shown(s);
        self.take(s);
        Ok(datum)
    }

    /// Returns the first rule that a sample breaks.
    #[tactic(auto, unfolding(crate::specs::Watching::broken))]
    pub fn broken(&self, s: &Sample) -> Option<Rule>
        ensures { result ≡ broken self.now s.now }
    {
        if address_strobe_falls(&self.last, s) {
            let transfer = Transfer::opened(&self.scope, s);
            return self.broken_in(&transfer, s);
        }
        self.broken_in(&self.transfer, s)
    }

    /// The first rule that a sample of a transfer breaks.
    #[tactic(auto, unfolding(crate::specs::Watching::broken))]
    fn broken_in(&self, t: &Transfer, s: &Sample) -> Option<Rule>
        requires { t.now ≡ current self.now s.now }
        ensures { result ≡ broken self.now s.now }
    {
        if let Some(rule) = self.lines_broken(t, s) {
            return Some(rule);
        }
        if let Some(rule) = self.handshake_broken(t, s) {
            return Some(rule);
        }
        self.transfer_broken(t, s)
    }

    /// The first rule of AS*, the address, BBSY* and defined lines that a sample breaks.
    #[tactic(auto, unfolding(crate::specs::Watching::lines_broken, crate::specs::Watching::lines_tests))]
    fn lines_broken(&self, t: &Transfer, s: &Sample) -> Option<Rule>
        ensures { result ≡ lines_broken self.now t.now s.now }
    {
        if is_undefined(self, t, s) {
            return Some(Rule::Undefined);
        }
        if two_hold(&self.scope, s) {
            return Some(Rule::TwoHolders);
        }
        if breaks_grants(&self.scope, &self.last, s) {
            return Some(Rule::Grant);
        }
        if falls_early(self, s) {
            return Some(Rule::AddressStrobeFalls);
        }
        if rises_early(self, t, s) {
            return Some(Rule::AddressStrobeRises);
        }
        if address_changes(self, t, s) {
            return Some(Rule::AddressChanges);
        }
        None
    }

    /// The first rule of a handshake that a sample breaks.
    #[tactic(auto, unfolding(crate::specs::Watching::handshake_broken, crate::specs::Watching::handshake_tests))]
    fn handshake_broken(&self, t: &Transfer, s: &Sample) -> Option<Rule>
        ensures { result ≡ handshake_broken self.now t.now s.now }
    {
        if has_lone_strobe(self, s) {
            return Some(Rule::LoneStrobe);
        }
        if data_change(self, t, s) {
            return Some(Rule::DataChange);
        }
        if answers_alone(self, s) {
            return Some(Rule::AnswerAlone);
        }
        if falls_under_answer(self, s) {
            return Some(Rule::StrobeUnderAnswer);
        }
        if moves_unanswered(self, s) {
            return Some(Rule::StrobeRises);
        }
        if has_two_answers(s) {
            return Some(Rule::TwoAnswers);
        }
        if answer_rises_early(self, s) {
            return Some(Rule::AnswerRises);
        }
        if is_late(self, s) {
            return Some(Rule::Timeout);
        }
        None
    }

    /// The first rule of transfers that an answer breaks.
    #[tactic(auto, unfolding(crate::specs::Watching::transfer_broken, crate::specs::Watching::transfer_tests))]
    fn transfer_broken(&self, t: &Transfer, s: &Sample) -> Option<Rule>
        ensures { result ≡ transfer_broken self.now t.now s.now }
    {
        if has_no_row(self, t, s) {
            return Some(Rule::CodeUnknown);
        }
        if misplaces(self, t, s) {
            return Some(Rule::Transfer);
        }
        None
    }

    /// The transfer of a sample, before its answer.
    fn current(&self, s: &Sample) -> Transfer
        ensures { result ≡ current self.now s.now }
    {
        if address_strobe_falls(&self.last, s) {
            Transfer::opened(&self.scope, s)
        } else {
            self.transfer
        }
    }

    /// Takes a sample that breaks no rule: what is remembered of the transfer changes in place.
    #[tactic(auto, unfolding(crate::specs::Watching::watched))]
    fn take(&mut self, s: &Sample)
        ensures { self.new ≡ watched self.old s.now }
    {
        if address_strobe_falls(&self.last, s) {
            self.transfer = Transfer::opened(&self.scope, s);
        }
        self.handshake.take(&self.transfer, &self.last, s);
        if answer_falls(&self.last, s) {
            let place = self.transfer.place_of(s);
            self.transfer.answer(place, s);
        }
        self.last = *s;
    }

    /// The datum that a sample shows.
    #[tactic(auto, unfolding(crate::specs::Watching::shown))]
    fn shown(&self, s: &Sample) -> Option<Datum>
        ensures { result ≡ shown self.now s.now }
    {
        if strobe_rises(&self.last, s) {
            return match self.handshake.reading {
                Some(datum) => Some(Datum {
                    lines: self.last.lines,
                    ..datum
                }),
                None => None,
            };
        }
        if answer_falls(&self.last, s) {
            let transfer = self.current(s);
            return written_at(&transfer, transfer.place_of(s), s);
        }
        None
    }
}

/// The datum at a place of a write, or of a cycle that BERR* answers.
fn written_at(t: &Transfer, place: Option<Place>, s: &Sample) -> Option<Datum>
    ensures { result ≡ written_at t.now place s.now }
{
    match place {
        Some(place) if (!s.write || s.dtack) && !t.is_address_phase(s) => {
            Some(t.datum_at(&place, s))
        }
        _ => None,
    }
}
