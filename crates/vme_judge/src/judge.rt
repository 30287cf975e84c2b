//! The judgement of a trace, sample by sample.
ghost use Rattle.std.specs.Prelude.{◌≡◌, ◌||◌, ◌==◌, ◌++◌, not, string_bytes, Some, None, IfOk, IsNone, is_some, is_none};
ghost use Rattle.vme_judge.specs.Dumps.{passed};
ghost use Rattle.vme_judge.specs.Forgetting.{without_watched};
ghost use Rattle.vme_judge.specs.LogLines.{datum_printed};
ghost use Rattle.vme_judge.specs.Logs.{left_out, unstarted};
ghost use Rattle.vme_judge.specs.Seen.{closed_at, counts_opened, opened_at, with_data, with_datum};
ghost use Rattle.vme_judge.specs.Standing.{answer_finding, begun_after, closed, course_map, course_then, datum_judged, found_by, order_finding, sample_judged, sample_taken, shown_judged, slot_of, standing, stands, state_of, without_begun};

use crate::boards::Board;
use crate::counts::{Counts, count};
use crate::finding::{Asked, Broken, Finding};
use crate::log::log_datum;
use crate::options::Options;
use crate::transfer::{OpenTransfer, driver_of};
use std::alloc::{AllocError, Global};
use vme_answers::{Answers, Wrong};
use vme_bus_log::print_datum;
use vme_protocol::{Datum, Rule, Sample, Scope, Transfer, Watch};
use vme_vcd_reader::{ControlLine, Presence};

/// The place of a sample in the trace.
#[derive(Clone, Copy, Debug)]
pub(crate) struct Spot {
    pub(crate) line: u64,
    pub(crate) time: Option<u64>,
}

/// What is known of a trace so far.
#[derive(Drop)]
pub(crate) struct Judge<'a> {
    pub(crate) alloc: Global,
    pub(crate) options: &'a Options<'a>,
    pub(crate) boards: &'a [Board],
    pub(crate) answers: Option<Answers>,
    pub(crate) watch: Option<Watch>,
    pub(crate) scope: Scope,
    /// The lines that a dump has, once its header was read.
    pub(crate) presence: Presence,
    pub(crate) counts: Counts,
    pub(crate) transfer: Option<OpenTransfer>,
    pub(crate) finding: Option<Finding>,
    /// The number of findings before it.
    pub(crate) found: u64,
    /// Whether AS* was low in the last of the samples that were left out.
    pub(crate) is_under: bool,
    /// What is not written yet: lines of the bus log, and findings after which the judgement went on.
    pub(crate) pending: String,
}

impl Judge<'_> {
    /// Returns whether a sample at rest was seen.
    pub(crate) fn is_begun(&self) -> bool
        ensures { result ≡ (is_some self.now.watch || not (self.now.found == 0)) }
    {
        self.watch.is_some() || self.found != 0
    }

    /// Returns whether the next sample is judged by the one before it.
    pub(crate) fn is_judging(&self) -> bool
        ensures { result ≡ is_some self.now.watch }
    {
        self.watch.is_some()
    }

    /// Takes the next sample, and returns whether the trace is legal so far. After a finding nothing
    /// is taken.
    ///
    /// # Errors
    ///
    /// An allocation failed.
    pub(crate) fn take(
        &mut self,
        sample: &Sample,
        spot: Spot,
        undefined: Option<ControlLine>,
    ) -> Result<bool, AllocError>
        ensures standing { IfOk result (λ _.
            standing self.new ≡ course_then (sample_taken spot undefined sample.now) (standing self.old)) }
        ensures legal { IfOk result (λ legal. legal ≡ stands (standing self.new)) }
    {
        if self.finding.is_some() {
            return Ok(false);
        }
        self.step(sample, spot, undefined)
    }

    /// Takes the next sample.
    fn step(
        &mut self,
        sample: &Sample,
        spot: Spot,
        undefined: Option<ControlLine>,
    ) -> Result<bool, AllocError>
        ensures legal { IfOk result (λ legal. IsNone self.old.finding → legal ≡ is_none self.new.finding) }
        ensures step { IfOk result (λ _. IsNone self.old.finding →
            found_by self.new.finding (state_of self.new)
            ≡ sample_judged spot undefined sample.now (state_of self.old) self.old.watch) }
    {
        let Some(watch) = self.watch.as_mut() else {
            self.leave_out(sample);
            return Ok(true);
        };
        count(&mut self.counts.samples);
        let (before, transfer) = (watch.last, watch.transfer);
        match watch.push(sample) {
            Ok(datum) => self.show(datum, spot, &before, sample),
            Err(rule) => {
                self.breaks(rule, &transfer, spot, &before, sample, undefined);
                Ok(false)
            }
        }
    }

    /// Keeps the rule that a sample breaks.
    fn breaks(
        &mut self,
        rule: Rule,
        transfer: &Transfer,
        spot: Spot,
        before: &Sample,
        sample: &Sample,
        undefined: Option<ControlLine>,
    )
        ensures found { self.new.finding ≡
            Some (order_finding spot undefined before.now sample.now self.old.transfer rule) }
        ensures after { state_of self.new ≡
            begun_after sample.now (without_begun (not before.now.address_strobe) transfer.now (state_of self.old)) }
    {
        let samples = Some((*before, *sample));
        self.find(spot, Broken::Order(rule), samples, undefined);
        if !before.address_strobe {
            self.forget(transfer, false);
        }
        self.begin_after(sample);
    }

    /// Takes a sample that breaks no rule of the order, with the datum that it shows.
    fn show(
        &mut self,
        datum: Option<Datum>,
        spot: Spot,
        before: &Sample,
        sample: &Sample,
    ) -> Result<bool, AllocError>
        ensures legal { IfOk result (λ legal. IsNone self.old.finding → legal ≡ is_none self.new.finding) }
        ensures show { IfOk result (λ _. IsNone self.old.finding →
            found_by self.new.finding (state_of self.new) ≡
            course_map (closed before.now sample.now)
            (shown_judged spot before.now sample.now (state_of self.old) datum)) }
    {
        self.opens(before, sample);
        let Some(datum) = datum else {
            self.closes(before, sample);
            return Ok(true);
        };
        self.note(&datum);
        self.print_datum(&datum, spot, sample)?;
        if !self.answer(&datum, spot, before, sample) {
            return Ok(false);
        }
        self.closes(before, sample);
        Ok(true)
    }

    /// Counts a datum that is not judged. After a finding nothing is counted.
    #[tactic(auto, unfolding(crate::specs::Standing::standing))]
    pub(crate) fn skip(&mut self)
        ensures standing { standing self.new ≡ course_map left_out (standing self.old) }
    {
        if self.finding.is_none() {
            count(&mut self.counts.skipped);
        }
    }

    /// Counts a sample at which nothing has changed. After a finding nothing is counted.
    #[tactic(auto, unfolding(crate::specs::Standing::standing))]
    pub(crate) fn pass(&mut self)
        ensures standing { standing self.new ≡ course_map passed (standing self.old) }
    {
        if self.finding.is_none() {
            count(&mut self.counts.samples);
        }
    }

    /// Forgets at which time AS* fell, which the trace does not show. After a finding nothing is
    /// forgotten.
    #[tactic(auto, unfolding(crate::specs::Standing::standing))]
    pub(crate) fn forget_start(&mut self)
        ensures standing { standing self.new ≡ course_map unstarted (standing self.old) }
    {
        if self.finding.is_some() {
            return;
        }
        if let Some(transfer) = self.transfer.as_mut() {
            transfer.since = None;
        }
    }

    /// Keeps the sample at which the trace is illegal.
    pub(crate) fn find(
        &mut self,
        spot: Spot,
        broken: Broken,
        samples: Option<(Sample, Sample)>,
        undefined: Option<ControlLine>,
    )
        ensures { self.new ≡ record self.old {
          finding = Some (record {
            line = spot.line;
            time = spot.time;
            broken = broken;
            samples = samples;
            transfer = self.old.transfer;
            undefined = undefined;
          });
        } }
    {
        self.finding = Some(Finding {
            line: spot.line,
            time: spot.time,
            broken,
            samples,
            transfer: self.transfer,
            undefined,
        });
    }

    /// Notes that a transfer or a tenure begins at a sample.
    fn opens(&mut self, before: &Sample, sample: &Sample)
        ensures { self.new ≡ record self.old {
          counts = counts_opened before.now sample.now self.old.counts;
          transfer = opened_at before.now sample.now self.old.transfer;
        } }
    {
        if before.address_strobe && !sample.address_strobe {
            self.transfer = Some(OpenTransfer::opened(sample));
            if sample.iack {
                count(&mut self.counts.transfers);
            }
        }
        if before.busy && !sample.busy {
            count(&mut self.counts.tenures);
        }
    }

    /// Notes that a transfer ends at a sample.
    fn closes(&mut self, before: &Sample, sample: &Sample)
        ensures { self.new ≡ record self.old { transfer = closed_at before.now sample.now self.old.transfer } }
    {
        if !before.address_strobe && sample.address_strobe {
            self.transfer = None;
        }
    }

    /// Counts a datum.
    fn note(&mut self, datum: &Datum)
        ensures { self.new ≡ record self.old {
          counts = with_data self.old.counts;
          transfer = with_datum datum.now self.old.transfer;
        } }
    {
        count(&mut self.counts.data);
        if let Some(transfer) = self.transfer.as_mut() {
            transfer.data = u64::from(datum.index);
        }
    }

    /// Prints the line of a datum, if the bus log is printed.
    fn print_datum(&mut self, datum: &Datum, spot: Spot, sample: &Sample) -> Result<(), AllocError>
        ensures rest { IfOk result (λ _. self.new ≡ record self.old { pending = self.new.pending }) }
        ensures line { IfOk result (λ _. string_bytes self.new.pending
            ≡ string_bytes self.old.pending ++ datum_printed self.old.options.now.log spot sample.now datum.now) }
    {
        if !self.options.log {
            return Ok(());
        }
        let slot = driver_of(sample.drivers);
        print_datum(&log_datum(datum, spot.time, slot), &mut self.pending)
    }

    /// Takes the answer to a datum, and returns whether it is that of its board.
    fn answer(&mut self, datum: &Datum, spot: Spot, before: &Sample, sample: &Sample) -> bool
        ensures legal { IsNone self.old.finding → result ≡ is_none self.new.finding }
        ensures answer { IsNone self.old.finding →
            found_by self.new.finding (state_of self.new)
            ≡ datum_judged spot before.now sample.now datum.now (state_of self.old) self.old.answers }
    {
        let Some(answers) = self.answers.as_mut() else {
            return true;
        };
        let Err(wrong) = answers.take(datum) else {
            return true;
        };
        if let Some(board) = wrong.board {
            let end = wrong.offset.saturating_add(u32::from(wrong.len));
            answers.forget(board, wrong.offset, end);
        }
        self.refuse(&wrong, datum, spot, before, sample);
        false
    }

    /// Keeps the datum whose answer is wrong.
    fn refuse(&mut self, wrong: &Wrong, datum: &Datum, spot: Spot, before: &Sample, sample: &Sample)
        ensures found { self.new.finding ≡ Some (answer_finding spot self.old.boards.now before.now sample.now
            self.old.transfer datum.now wrong.now) }
        ensures after { state_of self.new ≡ begun_after sample.now (record (state_of self.old) {
          answers = without_watched self.old.boards.now self.old.watch self.old.answers;
        }) }
    {
        let slot = self.slot_of(wrong);
        let broken = Broken::Answer(*wrong, Asked::Datum(*datum), slot);
        self.find(spot, broken, Some((*before, *sample)), None);
        self.forget_transfer();
        self.begin_after(sample);
    }

    /// Forgets the bytes of the transfer in which an answer is wrong.
    fn forget_transfer(&mut self)
        ensures { self.new ≡ record self.old {
          answers = without_watched self.old.boards.now self.old.watch self.old.answers;
        } }
    {
        if let Some(watch) = &self.watch {
            let transfer = watch.transfer;
            self.forget(&transfer, false);
        }
    }

    /// The slot of the board that answers wrongly, if it is a board.
    fn slot_of(&self, wrong: &Wrong) -> Option<u8>
        ensures { result ≡ slot_of self.now.boards.now wrong.now.board }
    {
        let board = self.boards.get(wrong.board?)?;
        Some(board.slot)
    }
}
