//! Lines of a script. A command to the local port of the processor's own board is one call, and a
//! request over the bus is one `Task`. Any other line may need several attempts: it is a
//! `LineTask`.
ghost use Rattle.std.specs.Prelude.{◌≡◌, ◌≢◌, ◌<◌, ◌≤◌, ◌∷◌, [], ℕ, false, length, slice_get, Some, None, IfOk};
ghost use Rattle.vme_core.specs.Calls.{Call};
ghost use Rattle.vme_core.specs.declared.event.EventReply.TheVariants as replies;
ghost use Rattle.vme_core.specs.NextSteps.{Returns, MakesCall};
ghost use Rattle.vme_cycle.specs.Lawful.{transfer_of};
ghost use Rattle.vme_grammar.specs.Grammar.{IsOwnLine};
ghost use Rattle.vme_grammar.specs.declared.line.Line.{Line as AnyLine};
ghost use Rattle.vme_grammar.specs.declared.line.Line.TheVariants as lines;
ghost use Rattle.vme_master.specs.Jobs.{local_job};
ghost use Rattle.vme_master.specs.Machine.{to_do};
ghost use Rattle.vme_master.specs.Tables.{next_of};
ghost use Rattle.vme_script.specs.Configurations.{Configuration};
ghost use Rattle.vme_line_task.specs.Events.{IsCallBelow};
ghost use Rattle.vme_line_task.specs.ReadBuffers.{line_read_len, request_read_len};
ghost use Rattle.vme_line_task.specs.Scripts.{lines_at};
ghost use Rattle.vme_line_task.specs.Tables.{transferring_next};
ghost use Rattle.vme_threads.specs.ProcessorPasses.{MatchesPorts};
ghost use Rattle.vme_threads.specs.Rans.{IsAnsweredBy, AddsLine};

use crate::ports::Ports;
use crate::processor_pass::{CallContext, ProcessorPass};
use crate::read::ReadForm;
use std::sync::Wait;
use std::sync::atomic::Ordering;
use vme_cycle::{Block, BlockBuffer, Request};
use vme_grammar::Line;
use vme_master::{Outcome, Task};
use vme_memory::{BoardCmd, Reply};
use vme_object::CommandRef;
use vme_port::Spent;
use vme_script::Config;
use vme_shared::LineReply;

impl ProcessorPass {
    /// Runs one line of the script until it has its reply. `line` is the index among the lines that
    /// are neither blank nor comments; `buffer` receives what the line reads over the bus. While
    /// another processor has the bus, it waits between two requests to the arbiter, and it pauses
    /// before each further attempt at the line.
    ///
    /// # Errors
    /// `Spent` if an object has made 2^64 - 1 steps, or if the workers of these ports have to stop.
    pub(crate) fn run_line<R: Wait>(
        &mut self,
        rt: &R,
        config: &Config,
        ports: &Ports,
        line: usize,
        buffer: BlockBuffer,
    ) -> Result<LineReply, Spent>
        requires fits { MatchesPorts ports.now self.old }
        requires boards { self.old.boards ≡ length config.now.boards }
        requires board { self.old.who < length config.now.boards }
        requires line { line < length (lines_at config.now self.old.who) }
        requires none { buffer.items ≡ [] }
        requires capacity { (one : AnyLine) →
            slice_get (lines_at config.now self.old.who) line ≡ Some one →
            line_read_len one ≤ buffer.capacity }
        ensures { IfOk result (λ answer. AddsLine config.now line answer self.old self.new) }
    {
        match config.script(self.who).line(line) {
            Line::Local(cmd) if !is_cycle(cmd) => self.run_local(rt, ports, cmd),
            Line::Bus(request) => match ReadForm::of(request) {
                Some(form) => self.run_bus_read(rt, config, ports, request, form, buffer),
                None => self.run_transfer(rt, config, ports, request, buffer),
            },
            Line::Await { am, addr, bytes } => self.run_await(rt, config, ports, *am, *addr, bytes),
            _ => self.run_attempts(rt, config, ports, line, buffer),
        }
    }

    /// Runs a command to the local port of the processor's own board, as one call.
    ///
    /// # Errors
    /// `Spent` if the board has made 2^64 - 1 steps, or if the workers of these ports have to stop.
    fn run_local<R: Wait>(
        &mut self,
        rt: &R,
        ports: &Ports,
        cmd: &BoardCmd,
    ) -> Result<LineReply, Spent>
        requires fits { MatchesPorts ports.now self.old }
        requires there { self.old.who < self.old.boards }
        requires local { IsOwnLine (lines.Local cmd.now) }
        ensures { (config : Configuration) →
            IfOk result (λ answer.
            IsAnsweredBy config (lines.Local cmd.now) answer self.old self.new) }
    {
        if ports.stop.load(Ordering::SeqCst) {
            return Err(Spent);
        }
        let reply = self.call_board(rt, ports, self.who, &CommandRef { cmd })?;
        Ok(LineReply::Transfer(local_outcome(cmd, reply)))
    }

    /// Runs a request over the bus, as one task. `buffer` receives what it reads. While another
    /// processor has the bus, it waits between two requests to the arbiter.
    ///
    /// # Errors
    /// `Spent` if an object has made 2^64 - 1 steps, or if the workers of these ports have to stop.
    fn run_transfer<R: Wait>(
        &mut self,
        rt: &R,
        config: &Config,
        ports: &Ports,
        request: &Request,
        buffer: BlockBuffer,
    ) -> Result<LineReply, Spent>
        requires fits { MatchesPorts ports.now self.old }
        requires boards { self.old.boards ≡ length config.now.boards }
        requires board { self.old.who < length config.now.boards }
        requires none { buffer.items ≡ [] }
        requires capacity { request_read_len (transfer_of request.now) ≤ buffer.capacity }
        ensures { IfOk result (λ answer.
            IsAnsweredBy config.now (lines.Bus request.now) answer self.old self.new) }
    {
        let (slot, level) = (config.slot(self.who), config.level(self.who));
        let mut task = match Task::start(config.map(), slot, level, request, buffer) {
            Ok(task) => task,
            Err(fault) => return Ok(LineReply::Refused(fault)),
        };
        let context = CallContext { rt, ports };
        task.advance(None);
        if task.is_finished() {
            return Ok(LineReply::Transfer(task.into_outcome().unwrap()));
        }
        for _ in rt.forever() {
            if ports.stop.load(Ordering::SeqCst) {
                return Err(Spent);
            }
            if task.step_by(self, &context)? {
                return Ok(LineReply::Transfer(task.into_outcome().unwrap()));
            }
        }
        unreachable!()
    }
}

/// Returns whether a command is a bus cycle, and so not a command to a local port.
fn is_cycle(cmd: &BoardCmd) -> bool
    ensures own { result ≡ false → IsOwnLine (lines.Local cmd.now) }
    ensures other { IsOwnLine (lines.Local cmd.now) → result ≡ false }
{
    matches!(cmd, BoardCmd::Cycle { .. })
}

/// Returns the outcome of a command to a local port, by the board's reply.
fn local_outcome(cmd: &BoardCmd, reply: Reply) -> Outcome
    requires { IsOwnLine (lines.Local cmd.now) }
    ensures { (board : ℕ) →
        next_of (local_job board cmd.now) (Some (replies.Board reply) ∷ None ∷ [])
        ≡ Returns result }
{
    match (cmd, reply) {
        (_, Reply::Berr) => Outcome::Berr {
            count: 0,
            bytes: Block::new(),
        },
        (BoardCmd::LocalWrite { .. }, Reply::Done) => Outcome::Done,
        (BoardCmd::LocalModify { n, .. }, Reply::Bytes(old))
            if old.as_slice().len() == usize::from(*n) => { Outcome::Old(old) }
        (BoardCmd::LocalRead { n, .. }, Reply::Bytes(bytes))
            if bytes.as_slice().len() == usize::from(*n) => {
            let mut read = BlockBuffer::new();
            read.extend_from_slice(bytes.as_slice());
            Outcome::Read(read.into_block())
        }
        _ => Outcome::Denied,
    }
}
