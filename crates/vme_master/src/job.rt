ghost use Rattle.std.specs.Prelude.{◌≡◌, ◌≢◌, ◌<◌, ◌≤◌, ℕ, List, length, Some, None, IfSome, option_map, is_some};
ghost use Rattle.vme_cycle.specs.BlockBuffers.{block_limit};
ghost use Rattle.vme_cycle.specs.Requests.{count_of};
ghost use Rattle.vme_memory.specs.Locals.{command_given};
ghost use Rattle.vme_arbiter.specs.declared.command.ArbCmd.{ArbCmd as AnyArbCmd};
ghost use Rattle.vme_core.specs.Calls.{OnBoard, OnBus};
ghost use Rattle.vme_core.specs.EventRefs.{call_asked};
ghost use Rattle.vme_core.specs.NextSteps.{call_in, result_in};
ghost use Rattle.vme_master.specs.CurrentData.{bus_datum, job_datum};
ghost use Rattle.vme_master.specs.Jobs.{datum_call};
ghost use Rattle.vme_master.specs.Machine.{job_expected, datum_phase, phase_at, first_phase, phase_answered, phase_replied, bus_next, local_next, job_next, end_outcome, IsPlaced, IsShort, call_count, job_read_len};
ghost use Rattle.vme_master.specs.declared.phase.Phase.TheVariants.{Transferring};

use crate::current::CurrentDatum;
use crate::expected::ExpectedReply;
use crate::outcome::Outcome;
use crate::phase::Phase;
use vme_arbiter::{ArbCmd, ArbReply};
use vme_core::{DatumCycle, EventRef};
use vme_cycle::{BlockBuffer, Transfer};
use vme_lanes::Datum;
use vme_memory::{BoardCmd, Reply};

/// A transfer over the bus: the slot and the level that request the bus, the lawful request, and
/// the board and the offset of its first byte, if a board is selected.
#[derive(Debug, Drop)]
pub struct BusJob<'a> {
    pub(crate) slot: u16,
    pub(crate) level: u8,
    pub(crate) transfer: Transfer<'a>,
    pub(crate) place: Option<(usize, u32)>,
}

impl BusJob<'_> {
    /// The cycle of datum `i`, by the board and the offset of the first datum.
    #[inline(always)]
    pub(crate) fn datum_at(&self, board: usize, offset: u32, i: u16) -> DatumCycle<'_>
        requires in_count { i < count_of self.now.transfer.request }
        requires placed { IsPlaced (Job.Bus self.now) }
        requires place { self.now.place ≡ Some (board, offset) }
        ensures { OnBoard board (command_given result) ≡ datum_call self.now self.now.place i }
    {
        let plan = self.transfer.plan();
        prove!(i < plan.len());
        let at = offset + u32::from(i) * u32::from(plan.datum_len());
        DatumCycle::new(plan, i, at)
    }

    /// The command to the arbiter in a phase, if the event is one. If no board is selected, the event
    /// at a datum is the release of the bus.
    pub(crate) fn bus_command(&self, phase: Phase) -> Option<ArbCmd>
        ensures next { IfSome result (λ cmd. (read : List ℕ) →
            call_in (bus_next self.now phase read) ≡ Some (OnBus cmd)) }
        ensures other { result ≡ None → (cmd : AnyArbCmd) (read : List ℕ) →
            call_in (bus_next self.now phase read) ≢ Some (OnBus cmd) }
    {
        let (slot, level) = (self.slot, self.level);
        match phase {
            Phase::Requesting => Some(ArbCmd::Ask { slot, level }),
            Phase::Polling => Some(ArbCmd::Look { slot }),
            Phase::Releasing { .. } => Some(ArbCmd::Done { slot }),
            Phase::Transferring { .. } if self.place.is_none() => Some(ArbCmd::Done { slot }),
            _ => None,
        }
    }

    /// The event in a phase, if there is one, without the signals of a cycle.
    fn event_ref(&self, phase: Phase) -> Option<EventRef<'_>>
        requires in_count { (i : ℕ) → phase ≡ Transferring i → i < count_of self.now.transfer.request }
        requires placed { IsPlaced (Job.Bus self.now) }
        ensures { (read : List ℕ) → option_map call_asked result ≡ call_in (bus_next self.now phase read) }
    {
        match (phase, self.place) {
            (Phase::Transferring { i }, Some((board, offset))) => {
                let cycle = self.datum_at(board, offset, i);
                Some(EventRef::Datum { board, cycle })
            }
            _ => Some(EventRef::Bus(self.bus_command(phase)?)),
        }
    }

    /// The datum that the transfer is at in a phase.
    fn current_datum(&self, phase: Phase) -> CurrentDatum<'_>
        requires { (i : ℕ) → phase ≡ Transferring i → i < count_of self.now.transfer.request }
        ensures { result ≡ bus_datum self.now phase }
    {
        let plan = self.transfer.plan();
        prove!(0 < plan.len());
        let number = match phase {
            Phase::Transferring { i } => i,
            _ => 0,
        };
        CurrentDatum::new(plan, number, self.place.is_some())
    }

    /// The phase at datum `i`: its transfer, or the release of the bus past the last datum or
    /// without a board.
    fn at(&self, i: u16, count: u16) -> Phase
        requires { count ≡ count_of self.now.transfer.request }
        ensures { result ≡ datum_phase self.now self.now.place i }
    {
        if self.place.is_none() {
            return Phase::Releasing { berr: Some(0) };
        }
        if i < count {
            Phase::Transferring { i }
        } else {
            Phase::Releasing { berr: None }
        }
    }
}

/// A command to a board's local port.
#[derive(Debug, Drop)]
pub struct LocalJob {
    pub(crate) board: usize,
    pub(crate) cmd: BoardCmd,
}

impl LocalJob {
    /// The event in a phase, if there is one, as a reference.
    fn event_ref(&self, phase: Phase) -> Option<EventRef<'_>>
        ensures { (read : List ℕ) → option_map call_asked result ≡ call_in (local_next self.now phase read) }
    {
        match phase {
            Phase::Transferring { .. } => Some(EventRef::Board {
                board: self.board,
                cmd: &self.cmd,
            }),
            _ => None,
        }
    }
}

/// What a task is to do.
#[derive(Debug, Drop)]
pub enum Job<'a> {
    /// A transfer over the bus.
    Bus(BusJob<'a>),
    /// A command to a board's local port.
    Local(LocalJob),
}

impl Job<'_> {
    /// The reply that the job's calls on a board expect.
    pub(crate) fn expected(&self) -> ExpectedReply
        ensures value { result ≡ job_expected self.now }
        ensures short { IsShort result (job_read_len self.now) }
    {
        match self {
            Job::Bus(job) => ExpectedReply::of_plan(&job.transfer.plan()),
            Job::Local(job) => ExpectedReply::of_command(&job.cmd),
        }
    }

    /// The event in a phase, if there is one, without the signals of a cycle.
    pub(crate) fn event_ref(&self, phase: Phase) -> Option<EventRef<'_>>
        requires in_count { (i : ℕ) → phase ≡ Transferring i → i < call_count self.now }
        requires placed { IsPlaced self.now }
        ensures { (read : List ℕ) → option_map call_asked result ≡ call_in (job_next self.now phase read) }
    {
        match self {
            Job::Bus(job) => job.event_ref(phase),
            Job::Local(job) => job.event_ref(phase),
        }
    }

    /// The datum that the job is at in a phase, if it is a transfer over the bus.
    pub(crate) fn current_datum(&self, phase: Phase) -> Option<CurrentDatum<'_>>
        requires { (i : ℕ) → phase ≡ Transferring i → i < call_count self.now }
        ensures { result ≡ job_datum self.now phase }
    {
        match self {
            Job::Bus(job) => Some(job.current_datum(phase)),
            Job::Local(_) => None,
        }
    }

    /// The number of calls that the job makes on a board.
    pub(crate) fn count(&self) -> u16
        ensures value { result ≡ call_count self.now }
        ensures some { 0 < result }
        ensures capacity { job_read_len self.now ≤ block_limit }
    {
        match self {
            Job::Bus(job) => job.transfer.plan().len(),
            Job::Local(_) => 1,
        }
    }

    /// The phase at call `i` on a board.
    fn at(&self, i: u16, count: u16) -> Phase
        requires { count ≡ call_count self.now }
        ensures { result ≡ phase_at self.now i }
    {
        match self {
            Job::Bus(job) => job.at(i, count),
            Job::Local(_) if i == 0 => Phase::Transferring { i },
            Job::Local(_) => Phase::Finished { berr: None },
        }
    }

    /// The phase after the first call.
    pub(crate) fn first_phase(&self, count: u16) -> Phase
        requires { count ≡ call_count self.now }
        ensures { result ≡ first_phase self.now }
    {
        match self {
            Job::Bus(_) => Phase::Requesting,
            Job::Local(_) => self.at(0, count),
        }
    }

    /// The phase after the arbiter's reply to a request or a poll.
    pub(crate) fn phase_answered(&self, reply: ArbReply, count: u16) -> Phase
        requires { count ≡ call_count self.now }
        ensures { result ≡ phase_answered self.now reply }
    {
        match reply {
            ArbReply::Granted => self.at(0, count),
            ArbReply::Waiting => Phase::Polling,
            ArbReply::Freed | ArbReply::Denied => Phase::Denied,
        }
    }

    /// The phase after a board's reply to call `i`.
    pub(crate) fn phase_replied(&self, i: u16, reply: &Reply, count: u16) -> Phase
        requires in_count { i < call_count self.now }
        requires count { count ≡ call_count self.now }
        ensures { result ≡ phase_replied self.now i reply.now }
    {
        prove!(i < count);
        match (self, reply) {
            (_, Reply::Bytes(_) | Reply::Done) => self.at(i + 1, count),
            (Job::Bus(_), Reply::Berr) => Phase::Releasing { berr: Some(i) },
            (Job::Local(_), Reply::Berr) => Phase::Finished { berr: Some(i) },
        }
    }

    /// Whether a task of the job has ended, by its phase.
    pub(crate) fn has_ended(&self, phase: Phase) -> bool
        ensures { (read : List ℕ) → result ≡ is_some (result_in (job_next self.now phase read)) }
    {
        match (self, phase) {
            (_, Phase::Finished { .. } | Phase::Denied) => true,
            (_, Phase::New | Phase::Transferring { .. }) | (Job::Bus(_), _) => false,
            (Job::Local(_), _) => true,
        }
    }

    /// The outcome, with the bytes that were read and the number of data before a bus error, if one
    /// came.
    pub(crate) fn end(&self, berr: Option<u16>, read: BlockBuffer) -> Outcome
        requires { length read.items ≤ job_read_len self.now }
        ensures { result ≡ end_outcome (job_expected self.now) berr read.items }
    {
        prove!(0 < self.count());
        match (berr, self.expected()) {
            (Some(count), _) => Outcome::Berr {
                count,
                bytes: read.into_block(),
            },
            (None, ExpectedReply::Read { .. }) => Outcome::Read(read.into_block()),
            (None, ExpectedReply::Modify { .. }) => Outcome::Old(Datum::try_from(
                read.as_slice(),
            ).unwrap()),
            (None, ExpectedReply::Write) => Outcome::Done,
        }
    }
}
