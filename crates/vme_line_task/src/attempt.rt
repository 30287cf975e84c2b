//! Attempts at a line, one after another.
ghost use Rattle.std.specs.Prelude.{◌≡◌, ◌≢◌, ◌<◌, option_map, option_copied, is_some, Some, None, IfSome, IfOk, IfErr};
ghost use Rattle.vme_core.specs.EventRefs.{call_asked};
ghost use Rattle.vme_core.specs.Machines.{process_count};
ghost use Rattle.vme_core.specs.NextSteps.{NotStarted, call_in, result_in};
ghost use Rattle.vme_core.specs.Advances.{CanMake, AdvancesOn, ends_by_call};
ghost use Rattle.vme_master.specs.Callers.{AdvancesBy};
ghost use Rattle.vme_master.specs.Machine.{advance, to_do};
ghost use Rattle.vme_shared.specs.Machine.{shared_to_do};
ghost use Rattle.vme_line_task.specs.Attempts.{shared_attempts};
ghost use Rattle.vme_line_task.specs.CurrentData.{attempt_datum, attempt_command};
ghost use Rattle.vme_line_task.specs.Tables.{next_wants_retry, sharing_next};
ghost use Rattle.vme_line_task.specs.Events.{reply_in};
ghost use Rattle.vme_line_task.specs.Machine.{attempt_advance, attempt_to_do, attempts_again, attempts_advance, attempts_to_do};

use crate::reply::LineReplyRef;
use crate::wait::AwaitTask;
use vme_core::{Core, EventRef, EventReply};
use vme_master::{Caller, CurrentDatum, Task, call_event};
use vme_memory::BoardCmd;
use vme_shared::{LineReply, SharedOutcome, SharedTask};

/// Attempts at a line, one of which is the current one.
#[derive(Debug, Drop)]
pub struct Attempts<'a> {
    pub(crate) attempt: AttemptTask<'a>,
    /// The number of attempts that are left, the current one among them.
    pub(crate) left: u32,
}

/// An attempt at a line.
#[derive(Debug, Drop)]
pub enum AttemptTask<'a> {
    /// A transfer over the bus, or a command to the local port.
    Transfer(Task<'a>),
    /// A read that waits for bytes.
    Await(AwaitTask<'a>),
    /// A lock, an unlock, a put or a take.
    Shared(SharedTask<'a>),
}

impl Attempts<'_> {
    /// Gives the current attempt the reply to its event, or `None` at the first call. If the
    /// attempt ends with a reply that asks for another and another is left, that one begins.
    pub(crate) fn advance(&mut self, given: Option<&EventReply>)
        ensures task { self.new ≡ attempts_advance self.old (option_copied given.entry) }
        ensures begun { attempts_to_do self.new ≢ NotStarted }
    {
        self.attempt.advance(given);
        self.retry();
    }

    /// Begins another attempt, if the current one has ended with a reply that asks for another and
    /// another is left.
    fn retry(&mut self)
        ensures task { self.new ≡ attempts_again self.old (attempts_to_do self.old) }
        ensures begun { attempts_to_do self.old ≢ NotStarted → attempts_to_do self.new ≢ NotStarted }
    {
        match &mut self.attempt {
            AttemptTask::Transfer(_) => {}
            AttemptTask::Await(wait) => wait.retry(&mut self.left),
            AttemptTask::Shared(task) => shared_retry(task, &mut self.left),
        }
    }

    /// Performs the current attempt's next event on `core` for processor `who`, gives the attempt
    /// the reply and returns whether the line has ended with this event. Another attempt may begin.
    #[inline(always)]
    pub(crate) fn step_on(&mut self, core: &mut Core, who: usize) -> bool
        requires who { who < process_count core.old }
        requires can { CanMake core.old (call_in (attempts_to_do self.old)) }
        ensures step { AdvancesOn attempts_to_do attempts_advance who core.old core.new self.old self.new }
        ensures ended { result ≡ ends_by_call attempts_to_do self.old self.new }
    {
        match &mut self.attempt {
            AttemptTask::Transfer(task) => task.step_on(core, who),
            AttemptTask::Await(wait) => wait.step_on(&mut self.left, core, who),
            AttemptTask::Shared(task) => shared_step_on(task, &mut self.left, core, who),
        }
    }

    /// Performs the current attempt's next event by a call of `caller`, gives the attempt the reply
    /// and returns whether the line has ended with this event. Another attempt may begin.
    ///
    /// # Errors
    /// The fault of the call. The attempts are unchanged.
    pub(crate) fn step_by<E, C>(&mut self, caller: &mut C, with: &E) -> Result<bool, C::Fault>
    where
        C: Caller<E>,
        requires { IfSome (call_in (attempts_to_do self.old)) (C.can with.now caller.old) }
        ensures step { IfOk result (λ _. AdvancesBy C.performs attempts_to_do attempts_advance caller.old caller.new self.old self.new) }
        ensures ended { IfOk result (λ ended. ended ≡ ends_by_call attempts_to_do self.old self.new) }
        ensures unchanged { IfErr result (λ _. self.new ≡ self.old) }
    {
        match &mut self.attempt {
            AttemptTask::Transfer(task) => transfer_step_by(task, caller, with),
            AttemptTask::Await(wait) => wait.step_by(&mut self.left, caller, with),
            AttemptTask::Shared(task) => shared_step_by(task, &mut self.left, caller, with),
        }
    }
}

impl AttemptTask<'_> {
    fn advance(&mut self, given: Option<&EventReply>)
        ensures task { self.new ≡ attempt_advance self.old (option_copied given.entry) }
        ensures begun { attempt_to_do self.new ≢ NotStarted }
    {
        match self {
            AttemptTask::Transfer(task) => task.advance(given),
            AttemptTask::Await(wait) => wait.advance(given),
            AttemptTask::Shared(task) => task.advance(given),
        }
    }

    /// Returns the event that comes next as a reference, if there is one, without the signals of a
    /// cycle.
    pub(crate) fn event_ref(&self) -> Option<EventRef<'_>>
        ensures { option_map call_asked result ≡ call_in (attempt_to_do self.now) }
    {
        match self {
            AttemptTask::Transfer(task) => task.event_ref(),
            AttemptTask::Await(wait) => wait.event_ref(),
            AttemptTask::Shared(task) => task.event_ref(),
        }
    }

    /// Returns how far the transfer over the bus has come, or `None` for a local command and for a
    /// lock or a mailbox that has ended.
    pub(crate) fn current_datum(&self) -> Option<CurrentDatum<'_>>
        ensures { result ≡ attempt_datum self.now }
    {
        match self {
            AttemptTask::Transfer(task) => task.current_datum(),
            AttemptTask::Await(wait) => wait.current_datum(),
            AttemptTask::Shared(task) => task.current_datum(),
        }
    }

    /// Returns a copy of the command to the local port, if the attempt is one.
    pub(crate) fn local_command(&self) -> Option<BoardCmd>
        ensures { result ≡ attempt_command self.now }
    {
        match self {
            AttemptTask::Transfer(task) => task.local_command(),
            AttemptTask::Await(_) | AttemptTask::Shared(_) => None,
        }
    }

    /// Returns whether the attempt has ended.
    pub(crate) fn is_finished(&self) -> bool
        ensures { result ≡ is_some (result_in (attempt_to_do self.now)) }
    {
        match self {
            AttemptTask::Transfer(task) => task.is_finished(),
            AttemptTask::Await(wait) => wait.is_finished(),
            AttemptTask::Shared(task) => task.outcome().is_some(),
        }
    }

    /// Returns the line's reply by reference, if the attempt has ended.
    pub(crate) fn reply(&self) -> Option<LineReplyRef<'_>>
        ensures { option_map reply_in result ≡ result_in (attempt_to_do self.now) }
    {
        match self {
            AttemptTask::Transfer(task) => Some(LineReplyRef::Transfer(task.outcome()?)),
            AttemptTask::Await(wait) => wait.reply(),
            AttemptTask::Shared(task) => Some(LineReplyRef::Shared(task.outcome()?)),
        }
    }

    /// Consumes the attempt and returns the line's reply, if the attempt has ended.
    pub(crate) fn into_reply(self) -> Option<LineReply>
        ensures { result ≡ result_in (attempt_to_do self.entry) }
    {
        match self {
            AttemptTask::Transfer(task) => Some(LineReply::Transfer(task.into_outcome()?)),
            AttemptTask::Await(wait) => wait.into_reply(),
            AttemptTask::Shared(task) => shared_reply(&task),
        }
    }
}

/// Performs the next event of an attempt at a lock or a mailbox on `core` for processor `who`, gives
/// its task the reply and returns whether the line has ended with this event. Another attempt begins
/// in place of one that ends with a reply that asks for it, if another is left.
fn shared_step_on(task: &mut SharedTask<'_>, left: &mut u32, core: &mut Core, who: usize) -> bool
    requires who { who < process_count core.old }
    requires can { CanMake core.old (call_in (shared_to_do task.old)) }
    ensures step { AdvancesOn attempts_to_do attempts_advance who core.old core.new
        (shared_attempts task.old left.old) (shared_attempts task.new left.new) }
    ensures ended { result ≡ ends_by_call attempts_to_do (shared_attempts task.old left.old) (shared_attempts task.new left.new) }
{
    let had_ended = task.outcome().is_some();
    if task.advance_on_retrying(core, who, *left > 1) {
        *left -= 1;
        return task.outcome().is_some();
    }
    if had_ended {
        return false;
    }
    shared_retry(task, left);
    task.outcome().is_some()
}

/// Performs the next event of a transfer or a local command by a call of `caller`, as
/// `Task::step_by` does. It is a function of its own because that one is always inlined, and
/// `vme run` drives no transfer or local command as a `LineTask`.
///
/// # Errors
/// The fault of the call. The task is unchanged.
fn transfer_step_by<E, C: Caller<E>>(
    task: &mut Task<'_>,
    caller: &mut C,
    with: &E,
) -> Result<bool, C::Fault>
    requires { IfSome (call_in (to_do task.old)) (C.can with.now caller.old) }
    ensures step { IfOk result (λ _. AdvancesBy C.performs to_do advance caller.old caller.new task.old task.new) }
    ensures ended { IfOk result (λ ended. ended ≡ ends_by_call to_do task.old task.new) }
    ensures unchanged { IfErr result (λ _. task.new ≡ task.old) }
{
    task.step_by(caller, with)
}

/// Performs the next event of an attempt at a lock or a mailbox by a call of `caller`, as
/// `shared_step_on` does on a core.
///
/// # Errors
/// The fault of the call. The attempt is unchanged.
fn shared_step_by<E, C: Caller<E>>(
    task: &mut SharedTask<'_>,
    left: &mut u32,
    caller: &mut C,
    with: &E,
) -> Result<bool, C::Fault>
    requires { IfSome (call_in (shared_to_do task.old)) (C.can with.now caller.old) }
    ensures step { IfOk result (λ _. AdvancesBy C.performs attempts_to_do attempts_advance caller.old caller.new
        (shared_attempts task.old left.old) (shared_attempts task.new left.new)) }
    ensures ended { IfOk result (λ ended.
        ended ≡ ends_by_call attempts_to_do (shared_attempts task.old left.old) (shared_attempts task.new left.new)) }
    ensures unchanged { IfErr result (λ _. shared_attempts task.new left.new ≡ shared_attempts task.old left.old) }
{
    let Some(event) = task.event_ref() else {
        return Ok(false);
    };
    let reply = call_event(caller, with, &event)?;
    task.advance(Some(&reply));
    shared_retry(task, left);
    Ok(task.outcome().is_some())
}

/// Begins another attempt at a lock or a mailbox, if the current one has ended with a reply that
/// asks for it and another is left.
fn shared_retry(task: &mut SharedTask<'_>, left: &mut u32)
    ensures attempts { shared_attempts task.new left.new ≡
        attempts_again (shared_attempts task.old left.old) (attempts_to_do (shared_attempts task.old left.old)) }
    ensures begun { attempts_to_do (shared_attempts task.old left.old) ≢ NotStarted →
        attempts_to_do (shared_attempts task.new left.new) ≢ NotStarted }
{
    if *left > 1 && shared_wants_retry(task) {
        *left -= 1;
        task.restart();
        task.advance(None);
    }
}

/// Returns whether a lock or a mailbox has ended with a reply that asks for another attempt.
fn shared_wants_retry(task: &SharedTask<'_>) -> bool
    ensures { result ≡ next_wants_retry (sharing_next (shared_to_do task.now)) }
{
    matches!(
        task.outcome(),
        Some(SharedOutcome::Busy | SharedOutcome::Full | SharedOutcome::Empty)
    )
}

/// Returns the reply of a line to a lock or a mailbox, if its task has ended.
fn shared_reply(task: &SharedTask<'_>) -> Option<LineReply>
    ensures { result ≡ result_in (sharing_next (shared_to_do task.now)) }
{
    Some(LineReply::Shared(task.outcome()?))
}
