//! A line of a script as a task.
ghost use Rattle.std.specs.Prelude.{◌≡◌, ◌≢◌, ◌<◌, ◌≤◌, ◌∷◌, [], ℕ, length, option_map, option_copied, is_some, slice_get, Some, None, IfSome, IfOk, IfErr};
ghost use Rattle.vme_core.specs.EventRefs.{call_asked};
ghost use Rattle.vme_core.specs.Machines.{process_count};
ghost use Rattle.vme_core.specs.NextSteps.{NotStarted, call_in, result_in};
ghost use Rattle.vme_core.specs.Advances.{CanMake, AdvancesOn, ends_by_call};
ghost use Rattle.vme_grammar.specs.declared.line.Line.{Line as AnyLine};
ghost use Rattle.vme_script.specs.Configurations.{Configuration};
ghost use Rattle.vme_master.specs.Callers.{AdvancesBy};
ghost use Rattle.vme_master.specs.Tables.{Inputs};
ghost use Rattle.vme_line_task.specs.Scripts.{HasItsMailbox, lines_at};
ghost use Rattle.vme_line_task.specs.ReadBuffers.{line_read_len};
ghost use Rattle.vme_line_task.specs.CurrentData.{line_datum, line_command};
ghost use Rattle.vme_line_task.specs.Tables.{next_given};
ghost use Rattle.vme_line_task.specs.Machine.{line_started_with, line_started, line_advance, line_to_do, line_given, attempts_left, IsLineBelow};
ghost use Rattle.vme_line_task.specs.declared.attempt.AttemptTask.TheVariants as tasks;
ghost use Rattle.vme_line_task.specs.declared.task.LineTask.TheVariants.{Running};
ghost use Rattle.vme_line_task.specs.Events.{call_of_todo, reply_in, IsTodoBelow};

use crate::attempt::{AttemptTask, Attempts};
use crate::reply::LineReplyRef;
use crate::start::{attempt_of, transfer};
use crate::todo::LineTodo;
use vme_core::{Core, EventRef, EventReply};
use vme_cycle::{BlockBuffer, CycleFault};
use vme_grammar::Line;
use vme_master::{Caller, CurrentDatum, Task};
use vme_memory::BoardCmd;
use vme_script::Config;
use vme_shared::LineReply;

/// A line of a script that has been started.
#[derive(Debug, Drop)]
pub enum LineTask<'a> {
    /// The line's request is refused.
    Refused(CycleFault),
    /// Attempts at the line, one after another.
    Running(Attempts<'a>),
}

impl<'a> LineTask<'a> {
    /// Returns a line of the script of a board's processor before its first call.
    ///
    /// `board` is the board's index in the configuration, and `line` the line's index among those
    /// that request something. A request over the bus reads into `buffer`.
    pub fn start(config: &'a Config, board: usize, line: usize, buffer: BlockBuffer) -> LineTask<'a>
        requires board { board < length config.now.boards }
        requires line { line < length (lines_at config.now board) }
        requires none { buffer.items ≡ [] }
        requires capacity { (one : AnyLine) → slice_get (lines_at config.now board) line ≡ Some one →
            line_read_len one ≤ buffer.capacity }
        ensures line { (one : AnyLine) → slice_get (lines_at config.now board) line ≡ Some one →
            result ≡ line_started config.now board one }
        ensures there { IsLineBelow (length config.now.boards) result }
    {
        let boards = config.boards();
        prove!(board < boards);
        let line = config.script(board).line(line);
        LineTask::of(config, board, line, config.tries(), buffer)
    }

    /// Returns a line of a board's processor before its first call, at which at most `tries` attempts
    /// are made.
    ///
    /// `board` is the board's index in the configuration. A request over the bus reads into
    /// `buffer`.
    pub fn of(
        config: &'a Config,
        board: usize,
        line: &'a Line,
        tries: u32,
        buffer: BlockBuffer,
    ) -> LineTask<'a>
        requires board { board < length config.now.boards }
        requires mailbox { HasItsMailbox config.now line.now }
        requires none { buffer.items ≡ [] }
        requires capacity { line_read_len line.now ≤ buffer.capacity }
        ensures { result ≡ line_started_with config.now board tries line.now }
    {
        match line {
            Line::Bus(request) => match transfer(config, board, request, buffer) {
                Ok(task) => transfer_line(task, tries),
                Err(fault) => LineTask::Refused(fault),
            },
            Line::Local(cmd) => transfer_line(Task::local(board, cmd.copy()), tries),
            _ => LineTask::of_any(config, board, line, tries, buffer),
        }
    }

    /// Returns any line of a board's processor before its first call. `of` calls it for all lines
    /// but transfers and local commands.
    fn of_any(
        config: &'a Config,
        board: usize,
        line: &'a Line,
        tries: u32,
        buffer: BlockBuffer,
    ) -> LineTask<'a>
        requires board { board < length config.now.boards }
        requires mailbox { HasItsMailbox config.now line.now }
        requires none { buffer.items ≡ [] }
        requires capacity { line_read_len line.now ≤ buffer.capacity }
        ensures { result ≡ line_started_with config.now board tries line.now }
    {
        match attempt_of(config, board, line, buffer) {
            Ok(attempt) => LineTask::Running(Attempts {
                attempt,
                left: tries,
            }),
            Err(fault) => LineTask::Refused(fault),
        }
    }

    /// Returns what the line does next. `given` is `None` at the first call, and then the reply to
    /// the event that the call before returned. After the end it returns `Ended` again, and the
    /// line's reply stays the same.
    pub fn next(&mut self, given: Option<EventReply>) -> LineTodo
        ensures task { self.new ≡ line_advance self.old given }
        ensures begun { line_to_do self.new ≢ NotStarted }
        ensures todo { call_of_todo result ≡ call_in (line_to_do self.new) }
        ensures table { (config : Configuration) (board : ℕ) (line : AnyLine) (before : Inputs) →
            self.old ≡ line_given config board line before →
            line_to_do self.new ≡ next_given config board line (given ∷ before) }
        ensures below { (n : ℕ) → IsLineBelow n self.old → IsLineBelow n self.new }
        ensures there { (n : ℕ) → IsLineBelow n self.old → IsTodoBelow n result }
    {
        self.advance(given.as_ref());
        LineTodo::of(self.event_ref())
    }

    /// Gives the line the reply to its event, or `None` at the first call. `event_ref` then returns
    /// the next event, and `reply` the line's reply.
    pub fn advance(&mut self, given: Option<&EventReply>)
        ensures task { self.new ≡ line_advance self.old (option_copied given.entry) }
        ensures begun { line_to_do self.new ≢ NotStarted }
        ensures below { (n : ℕ) → IsLineBelow n self.old → IsLineBelow n self.new }
    {
        if let LineTask::Running(attempts) = self {
            attempts.advance(given);
        }
    }

    /// Returns the event that comes next as a reference, without the signals of a cycle; or `None`
    /// before the first call and after the end.
    pub fn event_ref(&self) -> Option<EventRef<'_>>
        ensures { option_map call_asked result ≡ call_in (line_to_do self.now) }
    {
        let LineTask::Running(attempts) = self else {
            return None;
        };
        attempts.attempt.event_ref()
    }

    /// Performs the next event on `core` for processor `who`, gives the line the reply and returns
    /// whether the line has ended with this event. Without a next event nothing changes. With one,
    /// this is `event_ref`, `Core::apply_ref`, `advance` and `is_finished` in one, and faster.
    #[inline(always)]
    pub fn step_on(&mut self, core: &mut Core, who: usize) -> bool
        requires who { who < process_count core.old }
        requires can { CanMake core.old (call_in (line_to_do self.old)) }
        ensures step { AdvancesOn line_to_do line_advance who core.old core.new self.old self.new }
        ensures below { (n : ℕ) → IsLineBelow n self.old → IsLineBelow n self.new }
        ensures ended { result ≡ ends_by_call line_to_do self.old self.new }
    {
        match self {
            LineTask::Refused(_) => false,
            LineTask::Running(attempts) => attempts.step_on(core, who),
        }
    }

    /// Performs the next event by a call of `caller`, gives the line the reply and returns whether
    /// the line has ended with this event. Without a next event nothing changes. With one, this is
    /// `event_ref`, `call_event`, `advance` and `is_finished` in one, and faster for a transfer and
    /// for a read that waits.
    ///
    /// # Errors
    /// The fault of the call. The line is unchanged.
    pub fn step_by<E, C>(&mut self, caller: &mut C, with: &E) -> Result<bool, C::Fault>
    where
        C: Caller<E>,
        requires { IfSome (call_in (line_to_do self.old)) (C.can with.now caller.old) }
        ensures step { IfOk result (λ _. AdvancesBy C.performs line_to_do line_advance caller.old caller.new self.old self.new) }
        ensures below { IfOk result (λ _. (n : ℕ) → IsLineBelow n self.old → IsLineBelow n self.new) }
        ensures ended { IfOk result (λ ended. ended ≡ ends_by_call line_to_do self.old self.new) }
        ensures unchanged { IfErr result (λ _. self.new ≡ self.old) }
    {
        match self {
            LineTask::Refused(_) => Ok(false),
            LineTask::Running(attempts) => attempts.step_by(caller, with),
        }
    }

    /// Returns how far the transfer over the bus has come, or `None` for a refused line, for a local
    /// command and for a lock or a mailbox that has ended.
    pub fn current_datum(&self) -> Option<CurrentDatum<'_>>
        ensures { result ≡ line_datum self.now }
    {
        match self {
            LineTask::Refused(_) => None,
            LineTask::Running(attempts) => attempts.attempt.current_datum(),
        }
    }

    /// Returns a copy of the line's command to the local port, if it is one.
    pub fn local_command(&self) -> Option<BoardCmd>
        ensures { result ≡ line_command self.now }
    {
        match self {
            LineTask::Refused(_) => None,
            LineTask::Running(attempts) => attempts.attempt.local_command(),
        }
    }

    /// Returns whether the line has ended. It reads less memory than `reply`.
    pub fn is_finished(&self) -> bool
        ensures { result ≡ is_some (result_in (line_to_do self.now)) }
    {
        match self {
            LineTask::Refused(_) => true,
            LineTask::Running(attempts) => attempts.attempt.is_finished(),
        }
    }

    /// Returns the number of attempts that are left, the current one among them. If it falls with a
    /// reply, another attempt has begun, and a driver on a thread may wait before that one. It does
    /// not fall for a transfer or a local command, which is attempted once; it is 0 for a refused
    /// line.
    pub fn attempts_left(&self) -> u32
        ensures { result ≡ attempts_left self.now }
    {
        match self {
            LineTask::Refused(_) => 0,
            LineTask::Running(attempts) => attempts.left,
        }
    }

    /// Returns the line's reply by reference, if the line has ended.
    pub fn reply(&self) -> Option<LineReplyRef<'_>>
        ensures { option_map reply_in result ≡ result_in (line_to_do self.now) }
    {
        match self {
            LineTask::Refused(fault) => Some(LineReplyRef::Refused(*fault)),
            LineTask::Running(attempts) => attempts.attempt.reply(),
        }
    }

    /// Consumes the line and returns its reply, if it has ended. The bytes that were read are moved,
    /// not copied.
    pub fn into_reply(self) -> Option<LineReply>
        ensures { result ≡ result_in (line_to_do self.entry) }
    {
        match self {
            LineTask::Refused(fault) => Some(LineReply::Refused(fault)),
            LineTask::Running(attempts) => attempts.attempt.into_reply(),
        }
    }
}

/// Returns the line of a transfer or a local command, which is attempted once, whatever `left` is.
fn transfer_line(task: Task<'_>, left: u32) -> LineTask<'_>
    ensures { result ≡ Running (record { attempt = tasks.Transfer task.entry; left = left }) }
{
    LineTask::Running(Attempts {
        attempt: AttemptTask::Transfer(task),
        left,
    })
}

/// Returns the number of lines of the script of a board's processor that request something.
pub fn line_count(config: &Config, board: usize) -> usize
    requires { board < length config.now.boards }
    ensures { result ≡ length (lines_at config.now board) }
{
    config.script(board).len()
}
