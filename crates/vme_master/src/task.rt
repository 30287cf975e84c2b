ghost use Rattle.std.specs.Prelude.{◌≡◌, ◌≢◌, ◌<◌, ◌≤◌, ◌+◌, [], ◌∷◌, ◌++◌, length, Ok, Some, None, IsTrue, option_map, option_copied, is_some};
ghost use Rattle.vme_cycle.specs.BlockBuffers.{inline_capacity};
ghost use Rattle.vme_cycle.specs.Requests.{read_len};
ghost use Rattle.vme_cycle.specs.Lawful.{Transfer as LawfulRequest, transfer_of};
ghost use Rattle.vme_core.specs.declared.event.EventReply.TheVariants as replies;
ghost use Rattle.vme_master.specs.declared.job.Job.{Job as AnyJob};
ghost use Rattle.vme_master.specs.Jobs.{bus_job, local_job};
ghost use Rattle.vme_core.specs.EventRefs.{call_asked};
ghost use Rattle.vme_core.specs.NextSteps.{NotStarted, call_in, result_in};
ghost use Rattle.vme_master.specs.CurrentData.{task_datum, job_command};
ghost use Rattle.vme_master.specs.Tables.{Inputs, next_of};
ghost use Rattle.vme_master.specs.Machine.{bytes_of, fresh_task, bus_task, advance, task_given, to_do, is_called, job_read_len, IsPlaced};
ghost use Rattle.vme_master.specs.Events.{call_of_todo, outcome_in};

use crate::current::CurrentDatum;
use crate::expected::ExpectedReply;
use crate::job::{BusJob, Job, LocalJob};
use crate::outcome::{Outcome, OutcomeRef};
use crate::phase::Phase;
use crate::todo::Todo;
use std::marker::Model;
use vme_arbiter::ArbReply;
use vme_core::{EventRef, EventReply};
use vme_cycle::{BlockBuffer, CycleFault, Request, Transfer};
use vme_decode::AddressMap;
use vme_memory::{BoardCmd, Reply};

/// A transfer over the bus or a command to a board's local port, call by call.
///
/// A task reads into a buffer that it is given and allocates nothing. The work of a call does not
/// grow with the calls before.
#[derive(Debug, Drop)]
pub struct Task<'a> {
    pub(crate) job: Job<'a>,
    pub(crate) phase: Phase,
    read: BlockBuffer,
    // Facts of the job that every reply needs.
    expected: ExpectedReply,
    count: u16,
}

impl<'a> Model for Task<'a> {
    ghost use Rattle.vme_master.specs.Machine.{TaskView, IsKept};

    ghost Value = { TaskView };

    ghost view = { λ t. record { job = t.job; phase = t.phase; read = t.read.items } };

    ghost invariant = { λ t. IsKept (record { job = t.job; phase = t.phase; read = t.read.items }) t.read.capacity t.expected t.count };
}

impl<'a> Task<'a> {
    /// Returns the task of a transfer over the bus, which `slot` requests on `level`. The task
    /// borrows the request and reads into `buffer`, whose capacity must be at least the number of
    /// bytes that the request reads. The map selects the board by the first byte:
    /// IEEE 1014-1987, 2.3.5 (addressing).
    ///
    /// # Errors
    ///
    /// The first refusal of the request.
    #[inline(always)]
    pub fn start(
        map: &AddressMap,
        slot: u16,
        level: u8,
        request: &'a Request,
        buffer: BlockBuffer,
    ) -> Result<Task<'a>, CycleFault>
        requires empty { buffer.items ≡ [] }
        requires enough { (t : LawfulRequest) → transfer_of request.now ≡ Ok t →
            read_len t.request ≤ buffer.capacity }
        ensures { result ≡ bus_task map.now slot level (transfer_of request.now) }
    {
        let transfer = Transfer::of(request)?;
        Ok(Task::bus(map, slot, level, transfer, buffer))
    }

    /// Returns the task of a transfer over the bus, which `slot` requests on `level`. The task owns
    /// the request, which may read at most `INLINE_LEN` bytes, 40. The map selects the board by the
    /// first byte: IEEE 1014-1987, 2.3.5 (addressing).
    ///
    /// # Errors
    ///
    /// The first refusal of the request.
    pub fn start_owned(
        map: &AddressMap,
        slot: u16,
        level: u8,
        request: Request,
    ) -> Result<Task<'a>, CycleFault>
        requires { (t : LawfulRequest) → transfer_of request ≡ Ok t →
            read_len t.request ≤ inline_capacity }
        ensures { result ≡ bus_task map.now slot level (transfer_of request) }
    {
        Task::start_owned_into(map, slot, level, request, BlockBuffer::new())
    }

    /// Returns the task of a transfer over the bus, which `slot` requests on `level`. The task owns
    /// the request and reads into `buffer`, whose capacity must be at least the number of bytes that
    /// the request reads. The map selects the board by the first byte: IEEE 1014-1987, 2.3.5
    /// (addressing).
    ///
    /// # Errors
    ///
    /// The first refusal of the request.
    #[inline(always)]
    pub fn start_owned_into(
        map: &AddressMap,
        slot: u16,
        level: u8,
        request: Request,
        buffer: BlockBuffer,
    ) -> Result<Task<'a>, CycleFault>
        requires empty { buffer.items ≡ [] }
        requires enough { (t : LawfulRequest) → transfer_of request ≡ Ok t →
            read_len t.request ≤ buffer.capacity }
        ensures { result ≡ bus_task map.now slot level (transfer_of request) }
    {
        let transfer = Transfer::of_own(request)?;
        Ok(Task::bus(map, slot, level, transfer, buffer))
    }

    /// Returns the task of a command to the local port of the board with index `board`.
    pub fn local(board: usize, cmd: BoardCmd) -> Task<'a>
        ensures { result ≡ fresh_task (local_job board cmd) }
    {
        Task::of(Job::Local(LocalJob { board, cmd }), BlockBuffer::new())
    }

    #[inline(always)]
    fn bus(
        map: &AddressMap,
        slot: u16,
        level: u8,
        transfer: Transfer<'a>,
        buffer: BlockBuffer,
    ) -> Task<'a>
        requires empty { buffer.items ≡ [] }
        requires enough { read_len transfer.request ≤ buffer.capacity }
        ensures { result ≡ fresh_task (bus_job map.now slot level transfer.entry) }
    {
        let place = {
            let plan = transfer.plan();
            map.select_at(plan.am(), plan.addr())
        };
        let job = BusJob {
            slot,
            level,
            transfer,
            place,
        };
        Task::of(Job::Bus(job), buffer)
    }

    #[inline(always)]
    fn of(job: Job<'a>, buffer: BlockBuffer) -> Task<'a>
        requires placed { IsPlaced job }
        requires empty { buffer.items ≡ [] }
        requires enough { job_read_len job ≤ buffer.capacity }
        ensures { result ≡ fresh_task job.entry }
    {
        let (expected, count) = (job.expected(), job.count());
        Task {
            job,
            phase: Phase::New,
            read: buffer,
            expected,
            count,
        }
    }

    /// Returns what the task does next. `reply` is `None` at the first call, and then the reply to
    /// the event that the call before returned. After the end it returns `Finished` again, and the
    /// outcome stays the same.
    pub fn next(&mut self, reply: Option<EventReply>) -> Todo
        ensures task { self.new ≡ advance self.old reply }
        ensures begun { to_do self.new ≢ NotStarted }
        ensures todo { call_of_todo result ≡ call_in (to_do self.new) }
        ensures table { (job : AnyJob) (before : Inputs) → self.old ≡ task_given job before →
            to_do self.new ≡ next_of job (reply ∷ before) }
    {
        self.advance(reply.as_ref());
        Todo::of(self.event_ref())
    }

    /// Gives the task the reply to its event, or `None` at the first call. `event_ref` then returns
    /// the next event, and `outcome` the outcome.
    #[inline(always)]
    pub fn advance(&mut self, reply: Option<&EventReply>)
        ensures task { self.new ≡ advance self.old (option_copied reply.entry) }
        ensures begun { to_do self.new ≢ NotStarted }
    {
        match reply {
            None => self.call(),
            Some(EventReply::Bus(reply)) => self.on_bus_reply(self.phase, *reply),
            Some(EventReply::Board(reply)) => self.on_board_reply(self.phase, reply),
        }
    }

    /// Returns the event that comes next as a reference, without the signals of a cycle; or `None`
    /// before the first call and after the end.
    pub fn event_ref(&self) -> Option<EventRef<'_>>
        ensures { option_map call_asked result ≡ call_in (to_do self.now) }
    {
        self.job.event_ref(self.phase)
    }

    /// Returns the datum that the task is at, if it is a transfer over the bus.
    pub fn current_datum(&self) -> Option<CurrentDatum<'_>>
        ensures { result ≡ task_datum self.now }
    {
        self.job.current_datum(self.phase)
    }

    /// Returns a copy of the command to a local port, if the task is one.
    pub fn local_command(&self) -> Option<BoardCmd>
        ensures { result ≡ job_command self.now.job }
    {
        match &self.job {
            Job::Bus(_) => None,
            Job::Local(job) => Some(job.cmd.copy()),
        }
    }

    /// Returns whether the task has ended. It reads fewer fields than `outcome`.
    pub fn is_finished(&self) -> bool
        ensures { result ≡ is_some (result_in (to_do self.now)) }
    {
        self.job.has_ended(self.phase)
    }

    /// Returns the outcome by reference, if the task has ended.
    pub fn outcome(&self) -> Option<OutcomeRef<'_>>
        ensures { option_map outcome_in result ≡ result_in (to_do self.now) }
    {
        match self.phase {
            Phase::Finished { berr } => Some(self.expected.end_ref(berr, self.read.as_slice())),
            phase if self.job.has_ended(phase) => Some(OutcomeRef::Denied),
            _ => None,
        }
    }

    /// Consumes the task and returns its outcome, if it has ended. The bytes that were read are
    /// moved, not copied.
    pub fn into_outcome(self) -> Option<Outcome>
        ensures { result ≡ result_in (to_do self.entry) }
    {
        let Task {
            job,
            phase,
            read,
            ..
        } = self;
        match phase {
            Phase::Finished { berr } => Some(job.end(berr, read)),
            phase if job.has_ended(phase) => Some(Outcome::Denied),
            _ => None,
        }
    }

    /// Resets the task to its state before the first call.
    pub fn restart(&mut self)
        ensures { self.new ≡ fresh_task self.old.job }
    {
        self.phase = Phase::New;
        self.read.clear();
    }

    /// Handles the first call, and any later one without a reply.
    fn call(&mut self)
        ensures task { self.new ≡ advance self.old None }
        ensures called { IsTrue (is_called self.new.phase) }
    {
        self.phase = match self.phase {
            Phase::New => self.job.first_phase(self.count),
            Phase::Finished { berr } => Phase::Finished { berr },
            _ => Phase::Denied,
        };
    }

    /// Handles the arbiter's reply. `phase` is the task's own, which the caller knows.
    pub(crate) fn on_bus_reply(&mut self, phase: Phase, reply: ArbReply)
        requires { self.old.phase ≡ phase }
        ensures task { self.new ≡ advance self.old (Some (replies.Bus reply)) }
        ensures called { IsTrue (is_called self.new.phase) }
    {
        self.phase = match (phase, reply) {
            (Phase::Requesting | Phase::Polling, _) => self.job.phase_answered(reply, self.count),
            (Phase::Releasing { berr }, ArbReply::Freed) => Phase::Finished { berr },
            (Phase::Finished { berr }, _) => Phase::Finished { berr },
            _ => Phase::Denied,
        };
    }

    /// Handles a board's reply. `phase` is the task's own, which the caller knows.
    #[inline(always)]
    pub(crate) fn on_board_reply(&mut self, phase: Phase, reply: &Reply)
        requires { self.old.phase ≡ phase }
        ensures task { self.new ≡ advance self.old (Some (replies.Board reply.now)) }
        ensures called { IsTrue (is_called self.new.phase) }
    {
        match phase {
            Phase::Transferring { i } if self.expected.accepts(reply) => {
                prove!(i < self.count);
                append(&mut self.read, reply);
                self.phase = self.job.phase_replied(i, reply, self.count);
            }
            Phase::Finished { .. } => {}
            _ => self.phase = Phase::Denied,
        }
    }
}

/// Appends the bytes of a reply to those that were read.
#[inline(always)]
fn append(read: &mut BlockBuffer, reply: &Reply)
    requires { length read.old.items + length (bytes_of reply.now) ≤ read.old.capacity }
    ensures { read.new ≡ record read.old { items = read.old.items ++ bytes_of reply.now } }
{
    if let Reply::Bytes(datum) = reply {
        match datum.as_slice() {
            // Short literals are copied in place.
            [a] => read.extend_from_slice(&[*a]),
            [a, b, c, d] => read.extend_from_slice(&[*a, *b, *c, *d]),
            bytes => read.extend_from_slice(bytes),
        }
    }
}
