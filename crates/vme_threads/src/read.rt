//! Lawful reads over the bus, and their data as operations on a board's memory.
ghost use Rattle.std.specs.Prelude.{ℕ, ◌≡◌, ◌<◌, ◌≤◌, ◌+◌, ◌*◌, ◌^◌, length, Some, IfSome};
ghost use Rattle.vme_core.specs.Data.{datum_cycle};
ghost use Rattle.vme_cycle.specs.Lawful.{IsLawfulTransfer};
ghost use Rattle.vme_cycle.specs.Requests.{addr_of, count_of};
ghost use Rattle.vme_memory.specs.Locals.{command_given};
ghost use Rattle.vme_memory.specs.Steps.{read_command};
ghost use Rattle.vme_threads.specs.ReadForms.{IsReadOf, IsPlaceOf};

use vme_cycle::{Request, Transfer};
use vme_decode::AddressMap;
use vme_memory::{Access, ByteMemory, Reply};
use vme_object::Operation;

/// The form of the data of a read: whether they belong to a block, and the length of each.
#[derive(Clone, Copy)]
pub(crate) struct ReadForm {
    pub(crate) block: bool,
    pub(crate) n: u8,
}

impl ReadForm {
    /// Returns the form of the data of a request, if it is a read.
    pub(crate) fn of(request: &Request) -> Option<ReadForm>
        ensures { IfSome result (IsReadOf request.now) }
    {
        match request {
            Request::Read { n, .. } => Some(ReadForm {
                block: false,
                n: *n,
            }),
            Request::BlockRead { n, .. } => Some(ReadForm { block: true, n: *n }),
            _ => None,
        }
    }
}

/// How the data of a read have ended.
#[derive(Clone, Copy)]
pub(crate) enum ReadEnd {
    /// All were read, or a bus error came after so many.
    Ended { berr: Option<u16> },
    /// A reply did not fit.
    Denied,
}

/// A lawful read over the bus: the slot and the level that request the bus, the read, the board and
/// the offset of its first byte, if a board is selected, and the form of its data.
#[derive(Drop)]
pub(crate) struct BusRead<'a> {
    pub(crate) slot: u16,
    pub(crate) level: u8,
    pub(crate) transfer: Transfer<'a>,
    pub(crate) place: Option<(usize, u32)>,
    pub(crate) form: ReadForm,
    ghost lawful: { IsLawfulTransfer transfer },
    ghost is: { IsReadOf transfer.request form },
    ghost end: { addr_of transfer.request + form.n * count_of transfer.request ≤ 2 ^ 32 },
    ghost placed: { (found : ℕ × ℕ) → place ≡ Some found → IsPlaceOf transfer.request found },
}

impl<'a> BusRead<'a> {
    ghost use Rattle.vme_cycle.specs.BlockBuffers.{block_limit};
    ghost use Rattle.vme_master.specs.Jobs.{bus_job};
    ghost use Rattle.vme_master.specs.declared.job.Job.TheVariants as jobs;
    ghost use Rattle.vme_threads.specs.Reads.{job_of};

    /// Returns a lawful read by a slot on a level. The map selects the board by the first byte.
    pub(crate) fn new(
        map: &AddressMap,
        slot: u16,
        level: u8,
        transfer: Transfer<'a>,
        form: ReadForm,
    ) -> BusRead<'a>
        requires { IsReadOf transfer.request form }
        ensures job { jobs.Bus (job_of result) ≡ bus_job map.now slot level transfer.entry }
        ensures transfer { result.transfer ≡ transfer.entry }
        ensures form { result.form ≡ form }
        ensures there { IfSome result.place (λ place. place.0 < length map.now) }
    {
        let place = {
            let plan = transfer.plan();
            prove!(0 < plan.len());
            map.select_at(plan.am(), plan.addr())
        };
        BusRead {
            slot,
            level,
            transfer,
            place,
            form,
        }
    }

    /// Returns the number of data.
    pub(crate) fn count(&self) -> u16
        ensures count { result ≡ count_of self.now.transfer.request }
        ensures bytes { self.now.form.n * result ≤ block_limit }
    {
        self.transfer.plan().len()
    }
}

/// A read on the board that it selects, with the offset of the first datum and the length of each.
#[derive(Clone, Copy)]
pub(crate) struct BoardRead<'a> {
    pub(crate) bus: &'a BusRead<'a>,
    pub(crate) board: usize,
    pub(crate) offset: u32,
    pub(crate) n: u8,
    ghost place: { bus.now.place ≡ Some (board, offset) },
    ghost len: { n ≡ bus.now.form.n },
}

impl<'a> BoardRead<'a> {
    ghost use Rattle.vme_core.specs.Calls.{OnBoard};
    ghost use Rattle.vme_master.specs.Jobs.{datum_call};
    ghost use Rattle.vme_threads.specs.Reads.{job_of};

    /// Returns datum `i`.
    #[inline(always)]
    pub(crate) fn datum(&self, i: u16) -> ReadDatum<'a>
        requires in_count { i < count_of self.now.bus.now.transfer.request }
        ensures { OnBoard self.now.board (command_given (datum_cycle result.transfer.now result.i result.at))
            ≡ datum_call (job_of self.now.bus.now) self.now.bus.now.place i }
    {
        let at = self.offset + u32::from(i) * u32::from(self.n);
        ReadDatum {
            transfer: &self.bus.transfer,
            i,
            block: self.bus.form.block,
            at,
            n: self.n,
        }
    }
}

/// Datum `i` of a read, as an operation that reads `n` bytes at an offset. Its command is the cycle
/// of the datum, whose signals are not computed.
#[derive(Drop)]
pub(crate) struct ReadDatum<'a> {
    pub(crate) transfer: &'a Transfer<'a>,
    pub(crate) i: u16,
    pub(crate) block: bool,
    pub(crate) at: u32,
    pub(crate) n: u8,
    ghost command: { command_given (datum_cycle transfer.now i at) ≡ Some (read_command block at n) },
}

impl Operation<ByteMemory> for ReadDatum<'_> {
    ghost command = { λ d. datum_cycle d.transfer.now d.i d.at };

    #[inline(always)]
    fn perform(&self, memory: &mut ByteMemory) -> Reply {
        memory.access(&Access::Read {
            block: self.block,
            at: self.at,
            n: self.n,
        })
    }
}
