//! Reads that wait for bytes.
ghost use Rattle.std.specs.Prelude.{◌≡◌, ◌≢◌, ◌<◌, option_map, option_copied, is_some, IfSome, IfOk, IfErr};
ghost use Rattle.std.specs.Str.{bytes_eq};
ghost use Rattle.vme_core.specs.Advances.{CanMake, AdvancesOn, ends_by_call};
ghost use Rattle.vme_core.specs.EventRefs.{call_asked};
ghost use Rattle.vme_core.specs.Machines.{process_count};
ghost use Rattle.vme_core.specs.NextSteps.{NotStarted, call_in, result_in};
ghost use Rattle.vme_master.specs.Callers.{AdvancesBy};
ghost use Rattle.vme_master.specs.CurrentData.{task_datum};
ghost use Rattle.vme_master.specs.Machine.{advance, to_do};
ghost use Rattle.vme_line_task.specs.Tables.{awaiting_next, next_wants_retry};
ghost use Rattle.vme_line_task.specs.Attempts.{read_attempts};
ghost use Rattle.vme_line_task.specs.Machine.{attempts_again, attempts_advance, attempts_to_do};
ghost use Rattle.vme_line_task.specs.Events.{reply_in};

use crate::reply::LineReplyRef;
use vme_core::{Core, EventRef, EventReply};
use vme_lanes::Datum;
use vme_master::{Caller, CurrentDatum, Outcome, OutcomeRef, Task};
use vme_shared::LineReply;

/// A read that waits for bytes, which are so few that they lie in the task itself.
#[derive(Debug, Drop)]
pub struct AwaitTask<'a> {
    task: Task<'a>,
    want: Datum,
}

impl<'a> AwaitTask<'a> {
    /// Returns a read, by its task, that waits for `want`.
    pub(crate) fn of(task: Task<'a>, want: Datum) -> AwaitTask<'a>
        ensures task { result.task ≡ task.entry }
        ensures want { result.want ≡ want }
    {
        AwaitTask { task, want }
    }

    /// Gives the read the reply to its event, or `None` at the first call.
    pub(crate) fn advance(&mut self, given: Option<&EventReply>)
        ensures task { self.new ≡ record self.old { task = advance self.old.task (option_copied given.entry) } }
        ensures begun { awaiting_next self.new.want.items (to_do self.new.task) ≢ NotStarted }
    {
        self.task.advance(given);
    }

    /// Performs the next event on `core` for processor `who`, gives the read the reply and returns
    /// whether the line has ended with this event. Another read begins in place of one that ends
    /// with other bytes, if another is left: `left` counts this one too. `advance` begins no other.
    #[inline(always)]
    pub(crate) fn step_on(&mut self, left: &mut u32, core: &mut Core, who: usize) -> bool
        requires who { who < process_count core.old }
        requires can { CanMake core.old (call_in (to_do self.old.task)) }
        ensures step { AdvancesOn attempts_to_do attempts_advance who core.old core.new
            (read_attempts self.old left.old) (read_attempts self.new left.new) }
        ensures ended { result ≡ ends_by_call attempts_to_do (read_attempts self.old left.old) (read_attempts self.new left.new) }
    {
        if !self.task.step_on(core, who) {
            return false;
        }
        self.retry(left);
        self.task.is_finished()
    }

    /// Performs the next event by a call of `caller`, as `step_on` does on a core.
    ///
    /// # Errors
    /// The fault of the call. The read is unchanged.
    pub(crate) fn step_by<E, C: Caller<E>>(
        &mut self,
        left: &mut u32,
        caller: &mut C,
        with: &E,
    ) -> Result<bool, C::Fault>
        requires { IfSome (call_in (to_do self.old.task)) (C.can with.now caller.old) }
        ensures step { IfOk result (λ _. AdvancesBy C.performs attempts_to_do attempts_advance caller.old caller.new
            (read_attempts self.old left.old) (read_attempts self.new left.new)) }
        ensures ended { IfOk result (λ ended.
            ended ≡ ends_by_call attempts_to_do (read_attempts self.old left.old) (read_attempts self.new left.new)) }
        ensures unchanged { IfErr result (λ _. read_attempts self.new left.new ≡ read_attempts self.old left.old) }
    {
        if !self.task.step_by(caller, with)? {
            return Ok(false);
        }
        self.retry(left);
        Ok(self.task.is_finished())
    }

    /// Begins another read, if this one has ended with other bytes than it waits for and another is
    /// left.
    #[inline(always)]
    pub(crate) fn retry(&mut self, left: &mut u32)
        ensures attempts { read_attempts self.new left.new ≡
            attempts_again (read_attempts self.old left.old) (attempts_to_do (read_attempts self.old left.old)) }
        ensures begun { attempts_to_do (read_attempts self.old left.old) ≢ NotStarted →
            attempts_to_do (read_attempts self.new left.new) ≢ NotStarted }
    {
        if *left > 1 && self.wants_retry() {
            *left -= 1;
            self.task.restart();
            self.task.advance(None);
        }
    }

    /// Returns the event that comes next as a reference, if there is one, without the signals of a
    /// cycle.
    pub(crate) fn event_ref(&self) -> Option<EventRef<'_>>
        ensures { option_map call_asked result ≡ call_in (awaiting_next self.now.want.items (to_do self.now.task)) }
    {
        self.task.event_ref()
    }

    /// Returns how far the read has come.
    pub(crate) fn current_datum(&self) -> Option<CurrentDatum<'_>>
        ensures { result ≡ task_datum self.now.task }
    {
        self.task.current_datum()
    }

    /// Returns whether the read has ended.
    pub(crate) fn is_finished(&self) -> bool
        ensures { result ≡ is_some (result_in (awaiting_next self.now.want.items (to_do self.now.task))) }
    {
        self.task.is_finished()
    }

    /// Returns whether the read has ended with other bytes than it waits for.
    fn wants_retry(&self) -> bool
        ensures { result ≡ next_wants_retry (awaiting_next self.now.want.items (to_do self.now.task)) }
    {
        match self.task.outcome() {
            Some(OutcomeRef::Read(bytes)) => !self.is_met(bytes),
            _ => false,
        }
    }

    /// Returns the line's reply by reference, if the read has ended: whether its bytes are those
    /// that it waits for.
    pub(crate) fn reply(&self) -> Option<LineReplyRef<'_>>
        ensures { option_map reply_in result ≡ result_in (awaiting_next self.now.want.items (to_do self.now.task)) }
    {
        Some(match self.task.outcome()? {
            OutcomeRef::Read(bytes) if self.is_met(bytes) => LineReplyRef::Met,
            OutcomeRef::Read(_) => LineReplyRef::Timeout,
            outcome => LineReplyRef::Transfer(outcome),
        })
    }

    /// Consumes the read and returns the line's reply, if the read has ended.
    pub(crate) fn into_reply(self) -> Option<LineReply>
        ensures { result ≡ result_in (awaiting_next self.entry.want.items (to_do self.entry.task)) }
    {
        let wants_retry = self.wants_retry();
        Some(match self.task.into_outcome()? {
            Outcome::Read(_) if wants_retry => LineReply::Timeout,
            Outcome::Read(_) => LineReply::Met,
            outcome => LineReply::Transfer(outcome),
        })
    }

    /// Returns whether these bytes are those that the read waits for.
    fn is_met(&self, bytes: &[u8]) -> bool
        ensures { result ≡ bytes_eq bytes.now self.now.want.items }
    {
        bytes == self.want.as_slice()
    }
}
