//! The data of a read over the bus, each by one operation on the board.
ghost use Rattle.std.specs.Prelude.{◌≡◌, ◌<◌, ◌≤◌, ◌*◌, ◌++◌, [], length, Some, IfOk, IfSome};
ghost use Rattle.vme_cycle.specs.Requests.{count_of};
ghost use Rattle.vme_master.specs.declared.job.Job.TheVariants as jobs;
ghost use Rattle.vme_master.specs.Machine.{phase_at};
ghost use Rattle.vme_threads.specs.ProcessorPasses.{MatchesPorts};
ghost use Rattle.vme_threads.specs.Reads.{job_of, read_task, phase_read, ReadsDatum, RunsTask};

use crate::ports::Ports;
use crate::processor_pass::ProcessorPass;
use crate::read::{BoardRead, BusRead, ReadEnd};
use crate::take::{Gathered, Taken, make_room, take};
use std::sync::Wait;
use vme_cycle::BlockBuffer;
use vme_port::Spent;

impl ProcessorPass {
    /// Reads all data of a read that has the bus. It returns how they have ended, and appends to
    /// `bytes` what it read.
    ///
    /// # Errors
    /// `Spent` if the board has made 2^64 - 1 steps.
    // No `inline(always)` here and on `run_read`: the compiler makes the loops simple, and inlines them then.
    pub(crate) fn read_data<R: Wait>(
        &mut self,
        rt: &R,
        ports: &Ports,
        read: &BusRead<'_>,
        count: u16,
        bytes: &mut BlockBuffer,
    ) -> Result<ReadEnd, Spent>
        requires fits { MatchesPorts ports.now self.old }
        requires there { IfSome read.now.place (λ place. place.0 < self.old.boards) }
        requires count { count ≡ count_of read.now.transfer.request }
        requires none { bytes.old.items ≡ [] }
        requires capacity { read.now.form.n * count ≤ bytes.old.capacity }
        ensures runs { IfOk result (λ end.
            RunsTask (read_task (job_of read.now) (phase_at (jobs.Bus (job_of read.now)) 0) [])
            (read_task (job_of read.now) (phase_read end) bytes.new.items) self.old self.new) }
        ensures len { IfOk result (λ _. length bytes.new.items ≤ read.now.form.n * count) }
    {
        let (board, offset) = match read.place {
            Some(place) => place,
            None => return Ok(ReadEnd::Ended { berr: Some(0) }),
        };
        // The lengths are literals: the compiler has a loop for each, with fewer cases.
        match read.form.n {
            1 => self.read_each(rt, ports, read, board, offset, 1, count, bytes),
            4 => self.read_each(rt, ports, read, board, offset, 4, count, bytes),
            n => self.read_each(rt, ports, read, board, offset, n, count, bytes),
        }
    }

    /// Reads all data of a read on its board, each of length `n`, as `read_data` does.
    ///
    /// # Errors
    /// `Spent` if the board has made 2^64 - 1 steps.
    #[inline(always)]
    fn read_each<R: Wait>(
        &mut self,
        rt: &R,
        ports: &Ports,
        read: &BusRead<'_>,
        board: usize,
        offset: u32,
        n: u8,
        count: u16,
        bytes: &mut BlockBuffer,
    ) -> Result<ReadEnd, Spent>
        requires fits { MatchesPorts ports.now self.old }
        requires place { read.now.place ≡ Some (board, offset) }
        requires there { board < self.old.boards }
        requires n { n ≡ read.now.form.n }
        requires count { count ≡ count_of read.now.transfer.request }
        requires none { bytes.old.items ≡ [] }
        requires capacity { n * count ≤ bytes.old.capacity }
        ensures runs { IfOk result (λ end.
            RunsTask (read_task (job_of read.now) (phase_at (jobs.Bus (job_of read.now)) 0) [])
            (read_task (job_of read.now) (phase_read end) bytes.new.items) self.old self.new) }
        ensures len { IfOk result (λ _. length bytes.new.items ≤ n * count) }
    {
        let read = BoardRead {
            bus: read,
            board,
            offset,
            n,
        };
        let mut gathered = Gathered::new();
        let end = self.gather_data(rt, ports, &read, count, &mut gathered, bytes)?;
        bytes.extend_from_slice(gathered.as_slice());
        Ok(end)
    }

    /// Reads all data of a read on its board. It returns how they have ended. What it read are the
    /// bytes in `bytes` and then those in `gathered`.
    ///
    /// # Errors
    /// `Spent` if the board has made 2^64 - 1 steps.
    #[inline(always)]
    fn gather_data<R: Wait>(
        &mut self,
        rt: &R,
        ports: &Ports,
        read: &BoardRead<'_>,
        count: u16,
        gathered: &mut Gathered,
        bytes: &mut BlockBuffer,
    ) -> Result<ReadEnd, Spent>
        requires fits { MatchesPorts ports.now self.old }
        requires there { read.now.board < self.old.boards }
        requires count { count ≡ count_of read.now.bus.now.transfer.request }
        requires none { bytes.old.items ++ gathered.old.items ≡ [] }
        requires capacity { read.now.n * count ≤ bytes.old.capacity }
        ensures runs { IfOk result (λ end.
            RunsTask (read_task (job_of read.now.bus.now) (phase_at (jobs.Bus (job_of read.now.bus.now)) 0) [])
            (read_task (job_of read.now.bus.now) (phase_read end) (bytes.new.items ++ gathered.new.items)) self.old self.new) }
        ensures len { IfOk result (λ _. length (bytes.new.items ++ gathered.new.items) ≤ read.now.n * count) }
        ensures capacity { IfOk result (λ _. bytes.new.capacity ≡ bytes.old.capacity) }
    {
        for i in 0..count {
            make_room(gathered, bytes);
            match self.read_datum(rt, ports, read, i, gathered)? {
                Taken::Bytes => {}
                Taken::Berr => return Ok(ReadEnd::Ended { berr: Some(i) }),
                Taken::Denied => return Ok(ReadEnd::Denied),
            }
        }
        Ok(ReadEnd::Ended { berr: None })
    }

    /// Reads datum `i` on its board, and appends its bytes to those that were gathered.
    ///
    /// # Errors
    /// `Spent` if the board has made 2^64 - 1 steps.
    #[inline(always)]
    fn read_datum<R: Wait>(
        &mut self,
        rt: &R,
        ports: &Ports,
        read: &BoardRead<'_>,
        i: u16,
        gathered: &mut Gathered,
    ) -> Result<Taken, Spent>
        requires fits { MatchesPorts ports.now self.old }
        requires there { read.now.board < self.old.boards }
        requires in_count { i < count_of read.now.bus.now.transfer.request }
        requires gathered { length gathered.old.items ≤ 56 }
        ensures { IfOk result (ReadsDatum read.now i self.old self.new gathered.old.items gathered.new.items) }
    {
        match self.try_board(ports, read.board, &read.datum(i))? {
            Some(reply) => Ok(take(&reply, read.n, gathered)),
            None => self.wait_datum(rt, ports, *read, i, gathered),
        }
    }

    /// Reads a datum as `read_datum` does, by a call that may wait for the board. It makes the datum
    /// again, so that the other call's need not lie in memory.
    ///
    /// # Errors
    /// `Spent` if the board has made 2^64 - 1 steps.
    #[cold]
    #[inline(never)]
    fn wait_datum<R: Wait>(
        &mut self,
        rt: &R,
        ports: &Ports,
        read: BoardRead<'_>,
        i: u16,
        gathered: &mut Gathered,
    ) -> Result<Taken, Spent>
        requires fits { MatchesPorts ports.now self.old }
        requires there { read.board < self.old.boards }
        requires in_count { i < count_of read.bus.now.transfer.request }
        requires gathered { length gathered.old.items ≤ 56 }
        ensures { IfOk result (ReadsDatum read.entry i self.old self.new gathered.old.items gathered.new.items) }
    {
        let reply = self.call_board(rt, ports, read.board, &read.datum(i))?;
        Ok(take(&reply, read.n, gathered))
    }
}
