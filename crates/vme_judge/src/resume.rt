//! What follows a finding, where the judgement goes on.
ghost use Rattle.std.specs.Prelude.{◌≡◌, IfOk};
ghost use Rattle.vme_judge.specs.Forgetting.{without_boards, without_bytes, without_opened, without_transfer};
ghost use Rattle.vme_judge.specs.Standing.{begun_after, is_lawful, resumed, standing, stands, state_of, waited};

use crate::boards::Board;
use crate::counts::count;
use crate::judge::Judge;
use crate::transfer::bytes_of;
use crate::verdict::write_found;
use std::alloc::AllocError;
use vme_answers::Answers;
use vme_protocol::{Sample, Transfer, Watch};

impl Judge<'_> {
    /// Leaves a sample out, unless the judgement begins with it: at the first one at rest. After a
    /// finding it has to break no rule by itself, and the bytes of transfers that are left out are not
    /// known.
    pub(crate) fn leave_out(&mut self, sample: &Sample)
        ensures finding { self.new.finding ≡ self.old.finding }
        ensures waits { state_of self.new ≡ waited sample.now (state_of self.old) }
    {
        if sample.is_at_rest() && (self.found == 0 || self.is_lawful(sample)) {
            self.watch = Some(Watch::new(self.scope, *sample));
            count(&mut self.counts.samples);
            return;
        }
        count(&mut self.counts.skipped);
        if self.found != 0 && !self.is_under && !sample.address_strobe {
            self.forget_opened(sample);
        }
        self.is_under = !sample.address_strobe;
    }

    /// Whether a sample breaks no rule beside itself.
    fn is_lawful(&self, sample: &Sample) -> bool
        ensures { result ≡ is_lawful self.now.scope sample.now }
    {
        Watch::new(self.scope, *sample).broken(sample).is_none()
    }

    /// Begins anew with an illegal sample that is at rest, or leaves out what follows up to one.
    pub(crate) fn begin_after(&mut self, sample: &Sample)
        ensures finding { self.new.finding ≡ self.old.finding }
        ensures begins { state_of self.new ≡ begun_after sample.now (state_of self.old) }
    {
        self.transfer = None;
        self.watch = None;
        self.is_under = !sample.address_strobe;
        if !sample.address_strobe {
            self.forget_opened(sample);
        }
        if sample.is_at_rest() && self.is_lawful(sample) {
            self.watch = Some(Watch::new(self.scope, *sample));
        }
    }

    /// Forgets the bytes of the transfer that a sample opens.
    fn forget_opened(&mut self, sample: &Sample)
        ensures { self.new ≡ record self.old {
          answers = without_opened self.old.boards.now self.old.scope sample.now self.old.answers;
        } }
    {
        let transfer = Transfer::opened(&self.scope, sample);
        let is_vague = sample.am_undefined || sample.lines_undefined & transfer.counted != 0;
        self.forget(&transfer, is_vague);
    }

    /// Forgets the bytes that a transfer may write: all, if its code is unknown or its address undefined.
    pub(crate) fn forget(&mut self, transfer: &Transfer, is_vague: bool)
        ensures { self.new ≡ record self.old {
          answers = without_transfer self.old.boards.now transfer.now is_vague self.old.answers;
        } }
    {
        let boards = self.boards;
        if let Some(answers) = self.answers.as_mut() {
            forget_bytes(answers, boards, transfer, is_vague);
        }
    }

    /// Goes on after a finding if the limit allows a further one: it is then to be written.
    ///
    /// # Errors
    ///
    /// An allocation failed.
    #[tactic(auto, unfolding(crate::specs::Standing::standing))]
    pub(crate) fn goes_on(&mut self) -> Result<bool, AllocError>
        ensures resumes { IfOk result (λ _. standing self.new ≡ resumed (standing self.old)) }
        ensures goes { IfOk result (λ goes_on. goes_on ≡ stands (standing self.new)) }
    {
        let Some(finding) = self.finding else {
            return Ok(true);
        };
        if self.found.saturating_add(1) == self.options.limit {
            return Ok(false);
        }
        count(&mut self.found);
        write_found(self.alloc, self.options, &finding, &mut self.pending)?;
        self.finding = None;
        Ok(true)
    }
}

/// Forgets the bytes that a transfer may write: all, if its code is unknown or its address undefined.
fn forget_bytes(answers: &mut Answers, boards: &[Board], transfer: &Transfer, is_vague: bool)
    ensures { answers.new ≡ without_bytes boards.now transfer.now is_vague answers.old }
{
    if !transfer.judged {
        return;
    }
    if is_vague || !transfer.has_row {
        forget_boards(answers, boards);
    } else if let Some((board, offset)) = answers.board_at(transfer.am, transfer.base) {
        answers.forget(board, offset, offset.saturating_add(bytes_of(transfer)));
    }
}

/// Forgets all bytes of the boards.
fn forget_boards(answers: &mut Answers, boards: &[Board])
    ensures { answers.new ≡ without_boards 0 boards.now answers.old }
{
    for (index, board) in boards.iter().enumerate() {
        answers.forget(index, 0, board.entry.size);
    }
}
