//! The accesses of a judgement by local ports, and the rules that ports break.
ghost use Rattle.std.specs.Prelude.{◌≡◌, ◌==◌, ◌++◌, string_bytes, IfOk, IsNone, is_none};
ghost use Rattle.std.specs.List.{position};
ghost use Rattle.std.specs.Option.{option_map};
ghost use Rattle.vme_judge.specs.Dumps.{breach_taken};
ghost use Rattle.vme_judge.specs.Forgetting.{without_slot};
ghost use Rattle.vme_judge.specs.LogLines.{access_printed, log_access};
ghost use Rattle.vme_judge.specs.Logs.{access_judged, access_taken};
ghost use Rattle.vme_judge.specs.Standing.{course_then, found_by, standing, stands, state_of};

use crate::boards::Board;
use crate::counts::count;
use crate::finding::{Asked, Broken};
use crate::judge::{Judge, Spot};
use std::alloc::AllocError;
use vme_answers::Answers;
use vme_bus_log::{LogAccess, print_access};
use vme_protocol::{Local, Rule};

impl Judge<'_> {
    /// Takes a rule that a local port breaks. Any byte of its board may have changed. After a finding
    /// nothing is taken.
    #[tactic(auto, unfolding(crate::specs::Standing::standing, crate::specs::Dumps::breach_taken))]
    pub(crate) fn port_breaks(&mut self, rule: Rule, slot: u8, spot: Spot)
        ensures standing { standing self.new ≡ course_then (breach_taken spot slot rule) (standing self.old) }
    {
        if self.finding.is_some() {
            return;
        }
        self.find(spot, Broken::Port(rule, slot), None, None);
        self.forget_board(slot);
    }

    /// Forgets the bytes of the board in a slot.
    fn forget_board(&mut self, slot: u8)
        ensures { self.new ≡ record self.old {
          answers = option_map (without_slot slot 0 self.old.boards.now) self.old.answers;
        } }
    {
        let boards = self.boards;
        if let Some(answers) = self.answers.as_mut() {
            forget_slot(answers, boards, slot);
        }
    }

    /// Prints the line of an access, if the bus log is printed.
    fn print_access(&mut self, slot: u8, access: &Local, spot: Spot) -> Result<(), AllocError>
        ensures rest { IfOk result (λ _. self.new ≡ record self.old { pending = self.new.pending }) }
        ensures line { IfOk result (λ _. string_bytes self.new.pending
            ≡ string_bytes self.old.pending ++ access_printed self.old.options.now.log spot slot access.now) }
    {
        if !self.options.log {
            return Ok(());
        }
        print_access(&log_access(access, spot.time, slot), &mut self.pending)
    }

    /// Returns the index of the board in a slot.
    fn board_in(&self, slot: u8) -> Option<usize>
        ensures { result ≡ position (λ board. board.slot == slot) self.now.boards.now }
    {
        self.boards.iter().position(|board| board.slot == slot)
    }

    /// Takes an access by the local port in a slot, and returns whether its answer is legal. After a
    /// finding nothing is taken.
    ///
    /// # Errors
    ///
    /// An allocation failed.
    pub(crate) fn access(
        &mut self,
        slot: u8,
        access: &Local,
        spot: Spot,
    ) -> Result<bool, AllocError>
        ensures standing { IfOk result (λ _.
            standing self.new ≡ course_then (access_taken spot slot access.now) (standing self.old)) }
        ensures legal { IfOk result (λ legal. legal ≡ stands (standing self.new)) }
    {
        if self.finding.is_some() {
            return Ok(false);
        }
        let board = self.board_in(slot);
        count(&mut self.counts.accesses);
        self.print_access(slot, access, spot)?;
        Ok(self.access_at(board, slot, access, spot))
    }

    /// Takes an access of a board by its index.
    fn access_at(&mut self, board: Option<usize>, slot: u8, access: &Local, spot: Spot) -> bool
        ensures legal { IsNone self.old.finding → result ≡ is_none self.new.finding }
        ensures access { IsNone self.old.finding →
            found_by self.new.finding (state_of self.new)
            ≡ access_judged spot slot access.now (state_of self.old) board self.old.answers }
    {
        let Some(board) = board else {
            return true;
        };
        let Some(answers) = self.answers.as_mut() else {
            return true;
        };
        let Err(wrong) = answers.take_local(board, access) else {
            return true;
        };
        let end = access.offset.saturating_add(u32::from(access.len));
        answers.forget(board, access.offset, end);
        let broken = Broken::Answer(wrong, Asked::Access(*access), Some(slot));
        self.find(spot, broken, None, None);
        false
    }
}

/// Forgets the bytes of the boards in a slot.
fn forget_slot(answers: &mut Answers, boards: &[Board], slot: u8)
    ensures { answers.new ≡ without_slot slot 0 boards.now answers.old }
{
    for (index, board) in boards.iter().enumerate() {
        if board.slot == slot {
            answers.forget(index, 0, board.entry.size);
        }
    }
}

/// Returns the line of a log for an access by the local port of the board in a slot.
#[tactic(auto, unfolding(crate::specs::LogLines::log_access))]
fn log_access(access: &Local, time: Option<u64>, slot: u8) -> LogAccess
    ensures { result ≡ log_access access.now time slot }
{
    LogAccess {
        time,
        slot,
        is_write: access.write,
        offset: access.offset,
        len: access.len,
        bytes: access.data,
    }
}
