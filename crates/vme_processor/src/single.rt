//! Transfers of one datum that are started and run in one.
ghost use Rattle.std.specs.Prelude.{◌≡◌, ◌≤◌, ◌<◌, ◌%◌, true, false, Ok, Some, None, IsOk, IfOk, IfErr, IfSome};
ghost use Rattle.std.specs.Arc.{arc_value};
ghost use Rattle.vme_arbiter.specs.declared.command.ArbCmd.TheVariants as arb_commands;
ghost use Rattle.vme_arbiter.specs.declared.command.ArbReply.TheVariants as arb_replies;
ghost use Rattle.vme_cycle.specs.BlockBuffers.{inline_capacity};
ghost use Rattle.vme_cycle.specs.Requests.{addr_of, count_of, is_block_request, read_len};
ghost use Rattle.vme_cycle.specs.Lawful.{Transfer as LawfulRequest, IsLawfulTransfer, transfer_of};
ghost use Rattle.vme_memory.specs.Data.{datum_command, datum_reply_len, has_form};
ghost use Rattle.vme_core.specs.declared.event.EventReply.TheVariants as replies;
ghost use Rattle.vme_core.specs.Calls.{OnBoard, OnBus};
ghost use Rattle.vme_processor.specs.Processors.{KeepsPlace, place_of};
ghost use Rattle.vme_processor.specs.Transfers.{IsWhy};
ghost use Rattle.vme_processor.specs.Singles.{Transfers, with_task, with_work};
ghost use Rattle.vme_processor.specs.SingleParts.{Calls, FailsToReach, Reaches, begun, granted, is_fitting, is_freed, is_granted, kept_met, moved_by, task_by};

use crate::processor::Processor;
use crate::run::Met;
use crate::transfer::{StartFault, StepFault, access, command};
use crate::work::Work;
use vme_arbiter::{ArbCmd, ArbReply};
use vme_core::{DatumCycle, EventReply};
use vme_cycle::{Plan, Request};
use vme_master::Task;
use vme_memory::Reply;

/// What a transfer of one datum came to that was started and run in one.
#[derive(Debug, Drop)]
pub enum Transferred {
    /// It has ended, with this reply of the board that responds, if one does. The processor keeps
    /// nothing of it.
    Ended(Option<Reply>),
    /// The processor has it, as after `start` and `run`: it has not ended, or a command was denied.
    /// This is what the last step came to.
    Kept(Met),
}

/// Returns whether a reply has the form that a datum of a request expects.
#[inline(always)]
fn has_form(request: &Request, reply: &Reply) -> bool
    ensures { result ≡ has_form (datum_reply_len request.now) reply.now }
{
    let wanted = match request {
        Request::Read { n, .. } | Request::BlockRead { n, .. } | Request::Modify { n, .. } => {
            Some(*n)
        }
        Request::Write { .. } | Request::BlockWrite { .. } | Request::BlockFill { .. } => None,
    };
    match (reply, wanted) {
        (Reply::Bytes(datum), Some(n)) => datum.as_slice().len() == usize::from(n),
        (Reply::Bytes(_), None) => false,
        (Reply::Done, wanted) => wanted.is_none(),
        (Reply::Berr, _) => true,
    }
}

/// Returns what `run` returns for a transfer whose last call came to this. After a grant, a denial or
/// a reply of a board it makes one more step, without an event.
fn kept_met(last: &Result<EventReply, StepFault>) -> Met
    ensures { result ≡ kept_met last.now }
{
    match last {
        Ok(EventReply::Bus(ArbReply::Waiting)) => Met::Waiting,
        Ok(EventReply::Bus(ArbReply::Freed)) => Met::Freed,
        Ok(_) => Met::Nothing,
        Err(fault) => Met::of_fault(fault),
    }
}

impl Processor {
    /// Requests the bus. If it is not granted, the error is what the call came to.
    #[inline(always)]
    fn ask(&mut self) -> Result<(), Result<EventReply, StepFault>>
        ensures granted { IfOk result (λ _.
            Calls (OnBus (arb_commands.Ask self.old.slot self.old.level)) (Ok (replies.Bus arb_replies.Granted)) self.old self.new) }
        ensures other { IfErr result (λ asked. (is_granted asked ≡ false)
            × Calls (OnBus (arb_commands.Ask self.old.slot self.old.level)) asked self.old self.new) }
    {
        let (slot, level) = (self.slot, self.level);
        match command(&mut self.member, self.boards, &ArbCmd::Ask { slot, level }) {
            Ok(EventReply::Bus(ArbReply::Granted)) => Ok(()),
            asked => Err(asked),
        }
    }

    /// Moves the first datum of a plan to or from the board at an index, at an offset, and returns
    /// its reply. Without a reply of the expected form, the error is what the call came to.
    #[inline(always)]
    fn reach(
        &mut self,
        plan: Plan<'_>,
        board: usize,
        offset: u32,
    ) -> Result<Reply, Result<EventReply, StepFault>>
        requires lawful { IsLawfulTransfer plan }
        requires some { 0 < count_of plan.request }
        requires place { offset % 4 ≡ addr_of plan.request % 4 }
        ensures fits { IfOk result (λ reply. (has_form (datum_reply_len plan.entry.request) reply ≡ true)
            × Calls (OnBoard board (Some (datum_command plan.entry.request 0 offset))) (Ok (replies.Board reply)) self.old self.new) }
        ensures other { IfErr result (λ moved. (is_fitting plan.entry.request moved ≡ false)
            × Calls (OnBoard board (Some (datum_command plan.entry.request 0 offset))) moved self.old self.new) }
    {
        let request = plan.request();
        let cycle = DatumCycle::new(plan, 0, offset);
        match access(&mut self.member, self.boards, board, &cycle) {
            Ok(EventReply::Board(reply)) if has_form(request, &reply) => Ok(reply),
            moved => Err(moved),
        }
    }

    /// Moves the datum of a plan to or from the selected board, if one is selected, and returns its
    /// reply. Without a reply of the expected form, the error is what the call came to.
    #[inline(always)]
    fn reach_at(
        &mut self,
        plan: Plan<'_>,
        place: Option<(usize, u32)>,
    ) -> Result<Option<Reply>, Result<EventReply, StepFault>>
        requires lawful { IsLawfulTransfer plan }
        requires some { 0 < count_of plan.request }
        requires place { IfSome place (λ at. at.1 % 4 ≡ addr_of plan.request % 4) }
        ensures fits { IfOk result (λ reply. Reaches plan.entry.request place reply self.old self.new) }
        ensures other { IfErr result (λ moved. FailsToReach plan.entry.request place moved self.old self.new) }
    {
        match place {
            Some((board, offset)) => match self.reach(plan, board, offset) {
                Ok(reply) => Ok(Some(reply)),
                Err(moved) => Err(moved),
            },
            None => Ok(None),
        }
    }

    /// Releases the bus. If it is not released, the error is what the call came to.
    #[inline(always)]
    fn release(&mut self) -> Result<(), Result<EventReply, StepFault>>
        ensures freed { IfOk result (λ _.
            Calls (OnBus (arb_commands.Done self.old.slot)) (Ok (replies.Bus arb_replies.Freed)) self.old self.new) }
        ensures other { IfErr result (λ released. (is_freed released ≡ false)
            × Calls (OnBus (arb_commands.Done self.old.slot)) released self.old self.new) }
    {
        let slot = self.slot;
        match command(&mut self.member, self.boards, &ArbCmd::Done { slot }) {
            Ok(EventReply::Bus(ArbReply::Freed)) => Ok(()),
            released => Err(released),
        }
    }

    /// Returns the task of a lawful request, with its first call made.
    fn begun(&self, request: Request) -> Task<'static>
        requires lawful { IsOk (transfer_of request) }
        requires short { read_len request ≤ inline_capacity }
        ensures { (t : LawfulRequest) → transfer_of request ≡ Ok t →
            result ≡ begun (arc_value self.now.map) (place_of self.now) t }
    {
        let mut task = Task::start_owned(&self.map, self.slot, self.level, request).unwrap();
        task.advance(None);
        task
    }

    /// Keeps a task, after what its last call came to. Returns what `run` returns then.
    fn keep(&mut self, task: Task<'static>, last: Result<EventReply, StepFault>) -> Met
        ensures met { result ≡ kept_met last }
        ensures task { self.new ≡ with_task (task_by task.entry last) self.old }
    {
        let mut task = task;
        if let Ok(reply) = &last {
            task.advance(Some(reply));
        }
        self.task = Some(Work::Transfer(task));
        kept_met(&last)
    }

    /// Keeps the transfer of a request whose call for the bus came to this.
    #[cold]
    #[inline(never)]
    fn keep_asked(&mut self, request: Request, asked: Result<EventReply, StepFault>) -> Met
        requires lawful { IsOk (transfer_of request) }
        requires short { read_len request ≤ inline_capacity }
        ensures met { result ≡ kept_met asked }
        ensures task { (t : LawfulRequest) → transfer_of request ≡ Ok t →
            self.new ≡ with_task (task_by (begun (arc_value self.old.map) (place_of self.old) t) asked) self.old }
    {
        let task = self.begun(request);
        self.keep(task, asked)
    }

    /// Keeps the transfer of a request that got the bus, and whose call of the board came to this.
    #[cold]
    #[inline(never)]
    fn keep_moved(&mut self, request: Request, moved: Result<EventReply, StepFault>) -> Met
        requires lawful { IsOk (transfer_of request) }
        requires short { read_len request ≤ inline_capacity }
        ensures met { result ≡ kept_met moved }
        ensures task { (t : LawfulRequest) → transfer_of request ≡ Ok t →
            self.new ≡ with_task (task_by (granted (arc_value self.old.map) (place_of self.old) t) moved) self.old }
    {
        let mut task = self.begun(request);
        task.advance(Some(&EventReply::Bus(ArbReply::Granted)));
        self.keep(task, moved)
    }

    /// Keeps the transfer of a request that got the bus and this reply of the board that responds, if
    /// one does, and whose release of the bus came to this.
    #[cold]
    #[inline(never)]
    fn keep_released(
        &mut self,
        request: Request,
        reply: Option<Reply>,
        released: Result<EventReply, StepFault>,
    ) -> Met
        requires lawful { IsOk (transfer_of request) }
        requires short { read_len request ≤ inline_capacity }
        ensures met { result ≡ kept_met released }
        ensures task { (t : LawfulRequest) → transfer_of request ≡ Ok t →
            self.new ≡ with_task (task_by (moved_by (granted (arc_value self.old.map) (place_of self.old) t) reply) released) self.old }
    {
        let mut task = self.begun(request);
        task.advance(Some(&EventReply::Bus(ArbReply::Granted)));
        if let Some(reply) = reply {
            task.advance(Some(&EventReply::Board(reply)));
        }
        self.keep(task, released)
    }

    /// Drops what was started last.
    #[inline(always)]
    fn forget(&mut self)
        ensures { self.new ≡ with_work None self.old }
    {
        self.task = None;
    }

    /// Starts a transfer of one datum over the bus and makes its events, one after another: what
    /// `start` and then `run` do. If it ends, its reply is returned, and the processor keeps nothing
    /// of it. It never waits, and allocates nothing.
    ///
    /// # Errors
    /// `Running` if the last transfer, lock, unlock, put or take has not ended, and `Refused` with
    /// the first refusal of the request. The processor is unchanged.
    // Its code stands in that of each caller, where the kind of the request is known.
    #[inline(always)]
    pub fn transfer(&mut self, request: Request) -> Result<Transferred, StartFault>
        requires { is_block_request request ≡ false }
        ensures transferred { IfOk result (λ came. Transfers request came self.old self.new) }
        ensures why { IfErr result (IsWhy request self.old) }
        ensures unchanged { IfErr result (λ _. self.new ≡ self.old) }
        ensures place { KeepsPlace self.old self.new }
    {
        if self.is_running() {
            return Err(StartFault::Running);
        }
        let plan = match Plan::of(&request) {
            Ok(plan) => plan,
            Err(fault) => return Err(StartFault::Refused(fault)),
        };
        // So the task of a transfer that is kept needs no buffer.
        prove!(plan.datum_len() <= 8);
        let place = self.map.select_at(plan.am(), plan.addr());
        if let Err(asked) = self.ask() {
            return Ok(Transferred::Kept(self.keep_asked(request, asked)));
        }
        let reply = match self.reach_at(plan, place) {
            Ok(reply) => reply,
            Err(moved) => return Ok(Transferred::Kept(self.keep_moved(request, moved))),
        };
        if let Err(released) = self.release() {
            return Ok(Transferred::Kept(self.keep_released(request, reply, released)));
        }
        self.forget();
        Ok(Transferred::Ended(reply))
    }
}
