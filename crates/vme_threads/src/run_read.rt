//! Reads over the bus, each by one function from the request of the bus to its release: the events
//! are those of the read's task, without a step of the task for each.
ghost use Rattle.std.specs.Prelude.{◌≡◌, ◌<◌, ◌≤◌, ◌*◌, ◌∷◌, [], ℕ, List, length, Some, Ok, IfOk, IfSome};
ghost use Rattle.vme_cycle.specs.Lawful.{transfer_of};
ghost use Rattle.vme_cycle.specs.Requests.{count_of};
ghost use Rattle.vme_core.specs.declared.event.Event.TheVariants as events;
ghost use Rattle.vme_core.specs.declared.event.EventReply.TheVariants as replies;
ghost use Rattle.vme_core.specs.Runs.{move};
ghost use Rattle.vme_grammar.specs.declared.line.Line.{Line as AnyLine};
ghost use Rattle.vme_grammar.specs.declared.line.Line.TheVariants as lines;
ghost use Rattle.vme_script.specs.Configurations.{Configuration};
ghost use Rattle.vme_threads.specs.declared.processor_pass.ProcessorPass.{ProcessorPass as AnyPass};
ghost use Rattle.vme_line_task.specs.ReadBuffers.{request_read_len};
ghost use Rattle.vme_master.specs.declared.phase.Phase.TheVariants.{Requesting, Polling, Releasing};
ghost use Rattle.vme_threads.specs.ProcessorPasses.{MatchesPorts, AddsTransitions};
ghost use Rattle.vme_threads.specs.Rans.{IsAnsweredBy};
ghost use Rattle.vme_threads.specs.ReadForms.{IsReadOf};
ghost use Rattle.vme_threads.specs.Reads.{job_of, read_task, phase_asked, phase_freed, phase_ended, RunsTask, IsAwaitInProgress};

use crate::ports::Ports;
use crate::processor_pass::ProcessorPass;
use crate::read::{BusRead, ReadEnd, ReadForm};
use crate::take::{has_to_read_again, outcome_of, reply_of};
use crossbeam_utils::Backoff;
use std::sync::Wait;
use std::sync::atomic::Ordering;
use vme_arbiter::{ArbCmd, ArbReply};
use vme_cycle::{BlockBuffer, Request, Transfer};
use vme_lanes::Datum;
use vme_port::Spent;
use vme_script::Config;
use vme_shared::LineReply;

impl ProcessorPass {
    /// Runs a read over the bus. `form` is that of its data; `buffer` receives what it reads. While
    /// another processor has the bus, it waits between two requests to the arbiter.
    ///
    /// # Errors
    /// `Spent` if an object has made 2^64 - 1 steps, or if the workers of these ports have to stop.
    pub(crate) fn run_bus_read<R: Wait>(
        &mut self,
        rt: &R,
        config: &Config,
        ports: &Ports,
        request: &Request,
        form: ReadForm,
        mut buffer: BlockBuffer,
    ) -> Result<LineReply, Spent>
        requires fits { MatchesPorts ports.now self.old }
        requires boards { self.old.boards ≡ length config.now.boards }
        requires board { self.old.who < length config.now.boards }
        requires form { IsReadOf request.now form }
        requires none { buffer.items ≡ [] }
        requires capacity { request_read_len (transfer_of request.now) ≤ buffer.capacity }
        ensures { IfOk result (λ answer.
            IsAnsweredBy config.now (lines.Bus request.now) answer self.old self.new) }
    {
        let transfer = match Transfer::of(request) {
            Ok(transfer) => transfer,
            Err(fault) => return Ok(LineReply::Refused(fault)),
        };
        let (slot, level) = (config.slot(self.who), config.level(self.who));
        let read = BusRead::new(config.map(), slot, level, transfer, form);
        let count = read.count();
        let end = self.run_read(rt, ports, &read, count, &mut buffer)?;
        Ok(LineReply::Transfer(outcome_of(end, buffer)))
    }

    /// Runs a line that reads until it reads the bytes `want`, read by read. It pauses before each
    /// further read, unless there is no other processor.
    ///
    /// # Errors
    /// `Spent` if an object has made 2^64 - 1 steps, or if the workers of these ports have to stop.
    pub(crate) fn run_await<R: Wait>(
        &mut self,
        rt: &R,
        config: &Config,
        ports: &Ports,
        am: u8,
        addr: u32,
        want: &Datum,
    ) -> Result<LineReply, Spent>
        requires fits { MatchesPorts ports.now self.old }
        requires boards { self.old.boards ≡ length config.now.boards }
        requires board { self.old.who < length config.now.boards }
        ensures { IfOk result (λ answer.
            IsAnsweredBy config.now (lines.Await am addr want.now) answer self.old self.new) }
    {
        let bytes = want.as_slice();
        let n = bytes.len() as u8;
        let request = Request::Read { am, addr, n };
        let transfer = match Transfer::of(&request) {
            Ok(transfer) => transfer,
            Err(fault) => return Ok(LineReply::Refused(fault)),
        };
        let (slot, level) = (config.slot(self.who), config.level(self.who));
        let form = ReadForm { block: false, n };
        let read = BusRead::new(config.map(), slot, level, transfer, form);
        self.run_reads(rt, ports, &read, config.tries(), bytes)
    }

    /// Reads until the bytes are those in `want`, or `left` times. It pauses before each further
    /// read, unless there is no other processor.
    ///
    /// # Errors
    /// `Spent` if an object has made 2^64 - 1 steps, or if the workers of these ports have to stop.
    fn run_reads<R: Wait>(
        &mut self,
        rt: &R,
        ports: &Ports,
        read: &BusRead<'_>,
        mut left: u32,
        want: &[u8],
    ) -> Result<LineReply, Spent>
        requires fits { MatchesPorts ports.now self.old }
        requires there { IfSome read.now.place (λ place. place.0 < self.old.boards) }
        requires one { count_of read.now.transfer.request ≡ 1 }
        requires short { read.now.form.n ≤ 8 }
        ensures { (config : Configuration) (line : AnyLine) (before : AnyPass) →
            IsAwaitInProgress config line before self.old (job_of read.now) want.now left →
            IfOk result (λ answer. IsAnsweredBy config line answer before self.new) }
    {
        let backoff = Backoff::new();
        for _ in rt.forever() {
            let mut bytes = BlockBuffer::new();
            let end = self.run_read(rt, ports, read, 1, &mut bytes)?;
            if left <= 1 {
                return Ok(reply_of(end, bytes, want));
            }
            if !has_to_read_again(end, &bytes, want) {
                return Ok(reply_of(end, bytes, want));
            }
            self.pause(&backoff, left, left - 1);
            left -= 1;
        }
        unreachable!()
    }

    /// Requests the bus, reads `count` data and releases the bus. It returns how the read has
    /// ended, and appends to `bytes` what it read.
    ///
    /// # Errors
    /// `Spent` if an object has made 2^64 - 1 steps, or if the workers of these ports have to stop.
    fn run_read<R: Wait>(
        &mut self,
        rt: &R,
        ports: &Ports,
        read: &BusRead<'_>,
        count: u16,
        bytes: &mut BlockBuffer,
    ) -> Result<ReadEnd, Spent>
        requires fits { MatchesPorts ports.now self.old }
        requires there { IfSome read.now.place (λ place. place.0 < self.old.boards) }
        requires count { count ≡ count_of read.now.transfer.request }
        requires none { bytes.old.items ≡ [] }
        requires capacity { read.now.form.n * count ≤ bytes.old.capacity }
        ensures runs { IfOk result (λ end. RunsTask (read_task (job_of read.now) Requesting [])
            (read_task (job_of read.now) (phase_ended end) bytes.new.items) self.old self.new) }
        ensures len { IfOk result (λ _. length bytes.new.items ≤ read.now.form.n * count) }
    {
        if !self.request_bus(rt, ports, read)? {
            return Ok(ReadEnd::Denied);
        }
        let berr = match self.read_data(rt, ports, read, count, bytes)? {
            ReadEnd::Ended { berr } => berr,
            ReadEnd::Denied => return Ok(ReadEnd::Denied),
        };
        if !self.release_bus(rt, ports, read, berr)? {
            return Ok(ReadEnd::Denied);
        }
        Ok(ReadEnd::Ended { berr })
    }

    /// Performs one command on the arbiter, and returns its reply.
    ///
    /// # Errors
    /// `Spent` if the arbiter has made 2^64 - 1 steps, or if the workers of these ports have to
    /// stop.
    #[inline(always)]
    fn ask_bus<R: Wait>(&mut self, rt: &R, ports: &Ports, cmd: &ArbCmd) -> Result<ArbReply, Spent>
        requires { MatchesPorts ports.now self.old }
        ensures { IfOk result (λ reply.
            AddsTransitions (move self.old.who (events.Bus cmd.now) (replies.Bus reply) ∷ []) self.old self.new) }
    {
        if ports.stop.load(Ordering::SeqCst) {
            return Err(Spent);
        }
        match self.try_bus(ports, cmd)? {
            Some(reply) => Ok(reply),
            None => self.call_bus(rt, ports, cmd),
        }
    }

    /// Requests the bus, and polls until the arbiter grants it. Returns whether it was granted.
    ///
    /// # Errors
    /// `Spent` as for `ask_bus`.
    #[inline(always)]
    fn request_bus<R: Wait>(
        &mut self,
        rt: &R,
        ports: &Ports,
        read: &BusRead<'_>,
    ) -> Result<bool, Spent>
        requires { MatchesPorts ports.now self.old }
        ensures { IfOk result (λ granted. RunsTask (read_task (job_of read.now) Requesting [])
            (read_task (job_of read.now) (phase_asked (job_of read.now) granted) []) self.old self.new) }
    {
        let (slot, level) = (read.slot, read.level);
        match self.ask_bus(rt, ports, &ArbCmd::Ask { slot, level })? {
            ArbReply::Granted => Ok(true),
            ArbReply::Waiting => self.poll_bus(rt, ports, read),
            ArbReply::Freed => Ok(false),
            ArbReply::Denied => Ok(false),
        }
    }

    /// Polls until the arbiter grants the bus. Returns whether it was granted.
    ///
    /// # Errors
    /// `Spent` as for `ask_bus`.
    #[inline(never)]
    fn poll_bus<R: Wait>(
        &mut self,
        rt: &R,
        ports: &Ports,
        read: &BusRead<'_>,
    ) -> Result<bool, Spent>
        requires { MatchesPorts ports.now self.old }
        ensures { IfOk result (λ granted. RunsTask (read_task (job_of read.now) Polling [])
            (read_task (job_of read.now) (phase_asked (job_of read.now) granted) []) self.old self.new) }
    {
        for _ in rt.forever() {
            match self.ask_bus(rt, ports, &ArbCmd::Look { slot: read.slot })? {
                ArbReply::Granted => return Ok(true),
                ArbReply::Waiting => {}
                ArbReply::Freed => return Ok(false),
                ArbReply::Denied => return Ok(false),
            }
        }
        unreachable!()
    }

    /// Releases the bus, after a bus error as `berr` states. Returns whether it was freed.
    ///
    /// # Errors
    /// `Spent` as for `ask_bus`.
    #[inline(always)]
    fn release_bus<R: Wait>(
        &mut self,
        rt: &R,
        ports: &Ports,
        read: &BusRead<'_>,
        berr: Option<u16>,
    ) -> Result<bool, Spent>
        requires { MatchesPorts ports.now self.old }
        ensures { IfOk result (λ freed. (bytes : List ℕ) →
            RunsTask (read_task (job_of read.now) (Releasing berr) bytes)
            (read_task (job_of read.now) (phase_freed berr freed) bytes) self.old self.new) }
    {
        match self.ask_bus(rt, ports, &ArbCmd::Done { slot: read.slot })? {
            ArbReply::Freed => Ok(true),
            ArbReply::Granted => Ok(false),
            ArbReply::Waiting => Ok(false),
            ArbReply::Denied => Ok(false),
        }
    }
}
