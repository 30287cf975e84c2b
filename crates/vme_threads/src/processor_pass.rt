ghost use Rattle.std.specs.Prelude.{◌≡◌, ◌<◌, ◌≤◌, ◌∷◌, [], ℕ, length, slice_get, Ok, Some, None, IfOk, IfSome, IsSome};
ghost use Rattle.vme_core.specs.declared.event.Event.TheVariants as events;
ghost use Rattle.vme_core.specs.declared.event.EventReply.TheVariants as replies;
ghost use Rattle.vme_core.specs.NextSteps.{result_in};
ghost use Rattle.vme_core.specs.Runs.{move};
ghost use Rattle.vme_grammar.specs.declared.line.Line.{Line};
ghost use Rattle.vme_line_task.specs.Machine.{line_to_do, IsLineBelow};
ghost use Rattle.vme_line_task.specs.ReadBuffers.{line_read_len};
ghost use Rattle.vme_line_task.specs.Scripts.{lines_at};
ghost use Rattle.vme_script.specs.Configurations.{Configuration};
ghost use Rattle.vme_threads.specs.declared.processor_pass.ProcessorPass.{ProcessorPass as AnyPass};
ghost use Rattle.vme_threads.specs.ProcessorPasses.{MatchesPorts, AddsTransitions};
ghost use Rattle.vme_threads.specs.Progress.{IsLineInProgress};
ghost use Rattle.vme_threads.specs.Rans.{AddsLine};

use crate::ports::Ports;
use crossbeam_utils::Backoff;
use std::sync::Wait;
use std::sync::atomic::Ordering;
use vme_arbiter::{ArbCmd, ArbReply};
use vme_bus_objects::{ArbiterOperation, BoardOperation, BusObject, replies_have_their_kind};
use vme_bus_wait::WaitState;
use vme_core::{DatumCycle, EventReply};
use vme_cycle::BlockBuffer;
use vme_line_task::LineTask;
use vme_master::Caller;
use vme_memory::{BoardCmd, ByteMemory, Reply};
use vme_object::{CommandRef, Operation};
use vme_port::{Spent, TryFault};
use vme_port_array::Pass;
use vme_script::Config;
use vme_shared::LineReply;

/// The pass of one processor. It reaches each board by the board's index, and the arbiter by the
/// index `boards`, after all boards. `who` is the index of the processor's own board. `made` has
/// the number of calls that the processor made of each object, and `wait_state` states how long it
/// has waited for the bus.
#[derive(Drop)]
pub struct ProcessorPass {
    pub(crate) who: usize,
    pub(crate) boards: usize,
    pub(crate) pass: Pass<BusObject>,
    pub(crate) made: Vec<u64>,
    pub(crate) wait_state: WaitState,
}

impl ProcessorPass {
    /// Performs one command on the arbiter, and returns its reply. After a reply `Waiting` it waits
    /// for one round, and after a release it may wake a waiting processor.
    ///
    /// # Errors
    /// `Spent` if the arbiter has made 2^64 - 1 steps.
    pub(crate) fn call_bus<R: Wait>(
        &mut self,
        rt: &R,
        ports: &Ports,
        cmd: &ArbCmd,
    ) -> Result<ArbReply, Spent>
        requires { MatchesPorts ports.now self.old }
        ensures { IfOk result (λ reply.
            AddsTransitions (move self.old.who (events.Bus cmd.now) (replies.Bus reply) ∷ []) self.old self.new) }
    {
        replies_have_their_kind();
        let releases = ports.waiters.releases();
        let operation = ArbiterOperation { cmd };
        let EventReply::Bus(reply) = ports
            .array
            .call_operation(rt, &mut self.pass, self.boards, &operation)?
        else {
            unreachable!()
        };
        self.made[self.boards] += 1;
        match reply {
            ArbReply::Waiting => ports
                .waiters
                .wait(rt, self.who, releases, &mut self.wait_state),
            ArbReply::Granted => ports.waiters.leave(&mut self.wait_state),
            ArbReply::Freed => ports.waiters.release(&mut self.wait_state),
            ArbReply::Denied => {}
        }
        Ok(reply)
    }

    /// Performs one operation on the board at index `board`, and returns the board's reply.
    ///
    /// # Errors
    /// `Spent` if the board has made 2^64 - 1 steps.
    #[inline(always)]
    pub(crate) fn call_board<R: Wait, A: Operation<ByteMemory>>(
        &mut self,
        rt: &R,
        ports: &Ports,
        board: usize,
        cmd: &A,
    ) -> Result<Reply, Spent>
        requires fits { MatchesPorts ports.now self.old }
        requires there { board < self.old.boards }
        ensures { IfOk result (λ reply.
            AddsTransitions (move self.old.who (events.Board board (A.command cmd.now)) (replies.Board reply) ∷ [])
            self.old self.new) }
    {
        replies_have_their_kind();
        let operation = BoardOperation { operation: cmd };
        let EventReply::Board(reply) = ports
            .array
            .call_operation(rt, &mut self.pass, board, &operation)?
        else {
            unreachable!()
        };
        self.made[board] += 1;
        Ok(reply)
    }

    /// Performs one command on the arbiter, and returns its reply, if that needs no wait: if there
    /// is no other processor, and no other pass holds the arbiter. Otherwise nothing changes, and it
    /// returns `None`.
    ///
    /// # Errors
    /// `Spent` if the arbiter has made 2^64 - 1 steps.
    #[inline(always)]
    pub(crate) fn try_bus(&mut self, ports: &Ports, cmd: &ArbCmd) -> Result<Option<ArbReply>, Spent>
        requires { MatchesPorts ports.now self.old }
        ensures made { IfOk result (λ tried. IfSome tried (λ reply.
            AddsTransitions (move self.old.who (events.Bus cmd.now) (replies.Bus reply) ∷ []) self.old self.new)) }
        ensures not_now { result ≡ Ok None → self.new ≡ self.old }
    {
        if self.boards != 1 {
            return Ok(None);
        }
        replies_have_their_kind();
        let operation = ArbiterOperation { cmd };
        match ports
            .array
            .try_operation(&mut self.pass, self.boards, &operation)
        {
            Ok(reply) => {
                let EventReply::Bus(reply) = reply else {
                    unreachable!()
                };
                self.made[self.boards] += 1;
                Ok(Some(reply))
            }
            Err(TryFault::Busy) => Ok(None),
            Err(TryFault::Spent) => Err(Spent),
        }
    }

    /// Performs one operation on the board at index `board`, and returns the board's reply, if no
    /// other pass holds the board. Otherwise nothing changes, and it returns `None`.
    ///
    /// # Errors
    /// `Spent` if the board has made 2^64 - 1 steps.
    #[inline(always)]
    pub(crate) fn try_board<A: Operation<ByteMemory>>(
        &mut self,
        ports: &Ports,
        board: usize,
        cmd: &A,
    ) -> Result<Option<Reply>, Spent>
        requires fits { MatchesPorts ports.now self.old }
        requires there { board < self.old.boards }
        ensures made { IfOk result (λ tried. IfSome tried (λ reply.
            AddsTransitions (move self.old.who (events.Board board (A.command cmd.now)) (replies.Board reply) ∷ [])
            self.old self.new)) }
        ensures not_now { result ≡ Ok None → self.new ≡ self.old }
    {
        replies_have_their_kind();
        let operation = BoardOperation { operation: cmd };
        match ports.array.try_operation(&mut self.pass, board, &operation) {
            Ok(reply) => {
                let EventReply::Board(reply) = reply else {
                    unreachable!()
                };
                self.made[board] += 1;
                Ok(Some(reply))
            }
            Err(TryFault::Busy) => Ok(None),
            Err(TryFault::Spent) => Err(Spent),
        }
    }

    /// Runs one line of the script attempt by attempt, until it has its reply. `line` is the index
    /// among the lines that are neither blank nor comments; `buffer` receives what the line reads
    /// over the bus. It pauses before each further attempt, unless there is no other processor.
    ///
    /// # Errors
    /// `Spent` if an object has made 2^64 - 1 steps, or if the workers of these ports have to stop.
    pub(crate) fn run_attempts<R: Wait>(
        &mut self,
        rt: &R,
        config: &Config,
        ports: &Ports,
        line: usize,
        buffer: BlockBuffer,
    ) -> Result<LineReply, Spent>
        requires fits { MatchesPorts ports.now self.old }
        requires boards { self.old.boards ≡ length config.now.boards }
        requires board { self.old.who < length config.now.boards }
        requires line { line < length (lines_at config.now self.old.who) }
        requires none { buffer.items ≡ [] }
        requires capacity { (one : Line) →
            slice_get (lines_at config.now self.old.who) line ≡ Some one →
            line_read_len one ≤ buffer.capacity }
        ensures { IfOk result (λ answer. AddsLine config.now line answer self.old self.new) }
    {
        let mut task = LineTask::start(config, self.who, line, buffer);
        task.advance(None);
        if task.is_finished() {
            return Ok(task.into_reply().unwrap());
        }
        self.finish_line(rt, ports, &mut task)?;
        Ok(task.into_reply().unwrap())
    }

    /// Performs the events of a line that has begun until it has ended. It pauses before each
    /// further attempt, unless there is no other processor.
    ///
    /// # Errors
    /// `Spent` if an object has made 2^64 - 1 steps, or if the workers of these ports have to stop.
    fn finish_line<R: Wait>(
        &mut self,
        rt: &R,
        ports: &Ports,
        task: &mut LineTask<'_>,
    ) -> Result<(), Spent>
        requires fits { MatchesPorts ports.now self.old }
        requires below { IsLineBelow self.old.boards task.old }
        ensures ended { IfOk result (λ _. IsSome (result_in (line_to_do task.new))) }
        ensures progress { (config : Configuration) (place : ℕ) (before : AnyPass) →
            IsLineInProgress config place before self.old task.old →
            IfOk result (λ _. IsLineInProgress config place before self.new task.new) }
    {
        let backoff = Backoff::new();
        let context = CallContext { rt, ports };
        for _ in rt.forever() {
            if ports.stop.load(Ordering::SeqCst) {
                return Err(Spent);
            }
            let attempts = task.attempts_left();
            if task.step_by(self, &context)? {
                return Ok(());
            }
            self.pause(&backoff, attempts, task.attempts_left());
        }
        unreachable!()
    }

    /// Pauses before a further attempt, so that other processors get the bus, if there are any.
    /// `before` and `left` are the numbers of attempts that were left before and after an event.
    pub(crate) fn pause(&self, backoff: &Backoff, before: u32, left: u32) {
        if self.boards > 1 && left < before {
            backoff.snooze();
        }
    }
}

/// What the calls of a processor need besides its pass.
#[derive(Drop)]
pub(crate) struct CallContext<'a, R> {
    pub(crate) rt: &'a R,
    pub(crate) ports: &'a Ports,
}

impl<R: Wait> Caller<CallContext<'_, R>> for ProcessorPass {
    ghost use Rattle.vme_line_task.specs.Events.{IsCallBelow};
    ghost use Rattle.vme_threads.specs.ProcessorPasses.{MatchesPorts, AddsCall};

    type Fault = Spent;

    ghost can = { λ with pass call. MatchesPorts with.ports.now pass × IsCallBelow pass.boards call };

    ghost performs = { AddsCall };

    fn command_bus(&mut self, with: &CallContext<'_, R>, cmd: &ArbCmd) -> Result<ArbReply, Spent> {
        self.call_bus(with.rt, with.ports, cmd)
    }

    #[inline(always)]
    fn try_command_bus(
        &mut self,
        with: &CallContext<'_, R>,
        cmd: &ArbCmd,
    ) -> Result<Option<ArbReply>, Spent> {
        self.try_bus(with.ports, cmd)
    }

    fn command_board(
        &mut self,
        with: &CallContext<'_, R>,
        board: usize,
        cmd: &BoardCmd,
    ) -> Result<Reply, Spent> {
        self.call_board(with.rt, with.ports, board, &CommandRef { cmd })
    }

    #[inline(always)]
    fn transfer_datum(
        &mut self,
        with: &CallContext<'_, R>,
        board: usize,
        cycle: &DatumCycle<'_>,
    ) -> Result<Reply, Spent> {
        self.call_board(with.rt, with.ports, board, cycle)
    }

    #[inline(always)]
    fn try_datum(
        &mut self,
        with: &CallContext<'_, R>,
        board: usize,
        cycle: &DatumCycle<'_>,
    ) -> Result<Option<Reply>, Spent> {
        self.try_board(with.ports, board, cycle)
    }
}
