//! What a processor does over the bus, event by event, and its transfers.
ghost use Rattle.std.specs.Prelude.{◌≡◌, ◌+◌, ◌≤◌, [], Ok, Err, option_map, IfOk, IfErr, IfSome, IfNone};
ghost use Rattle.std.specs.Arc.{arc_value};
ghost use Rattle.vme_cycle.specs.Requests.{read_len};
ghost use Rattle.vme_cycle.specs.Lawful.{Transfer as LawfulRequest, transfer_of};
ghost use Rattle.vme_core.specs.EventRefs.{call_asked};
ghost use Rattle.vme_bus_objects.specs.declared.command.BusCommand.TheVariants as commands;
ghost use Rattle.vme_master.specs.Events.{outcome_in};
ghost use Rattle.vme_port_array.specs.Arrays.{objects_of};
ghost use Rattle.vme_processor.specs.Processors.{KeepsPlace, place_of};
ghost use Rattle.vme_processor.specs.Events.{AddsEntry, AddsCall, WasBusy};
ghost use Rattle.vme_processor.specs.Works.{StepsWork, Steps, is_running};
ghost use Rattle.vme_processor.specs.Transfers.{StepsTask, Starts, IsWhy, IsWhyNoBuffer, outcome_of};

use crate::bus_operation::BusOperation;
use crate::opening::Place;
use crate::processor::Processor;
use crate::work::Work;
use std::alloc::Global;
use vme_arbiter::ArbCmd;
use vme_bus_objects::{BoardOperation, BusObject};
use vme_core::{EventRef, EventReply};
use vme_cycle::{BlockBuffer, CycleFault, INLINE_LEN, Plan, Request};
use vme_decode::AddressMap;
use vme_machine::Member;
use vme_master::{OutcomeRef, Task};
use vme_memory::ByteMemory;
use vme_object::{CommandRef, Operation};
use vme_port::TryFault;
use vme_shared::{CurrentTransfer, Job};

/// The reasons why a transfer, a lock, an unlock, a put or a take is not started.
#[derive(Debug, Drop)]
pub enum StartFault {
    /// What the processor does over the bus has not ended.
    Running,
    /// An allocation failed. Only a transfer that reads more than 40 bytes allocates.
    OutOfMemory,
    /// The first refusal of the request.
    Refused(CycleFault),
}

/// The reasons why a step performs no event.
#[derive(Debug, Drop)]
pub enum StepFault {
    /// Another processor holds the object.
    Busy,
    /// The object has made 2^64 - 1 steps.
    Spent,
    /// The machine has no such board. No map of its boards selects one.
    NoBoard,
}

/// Performs an operation on the board at an index.
#[inline(always)]
pub(crate) fn access<A: Operation<ByteMemory>>(
    member: &mut Member<BusObject>,
    boards: usize,
    board: usize,
    operation: &A,
) -> Result<EventReply, StepFault>
    requires { objects_of (arc_value member.old.array) ≡ boards + 1 }
    ensures array { arc_value member.new.array ≡ arc_value member.old.array }
    ensures event { IfOk result (λ reply.
        AddsEntry board (commands.Board (A.command operation.now)) reply member.old member.new) }
    ensures busy { result ≡ Err StepFault.Busy → WasBusy member.old member.new }
{
    if board >= boards {
        return Err(StepFault::NoBoard);
    }
    match member.try_operation(board, &BoardOperation { operation }) {
        Ok(reply) => Ok(reply),
        Err(TryFault::Busy) => Err(StepFault::Busy),
        Err(TryFault::Spent) => Err(StepFault::Spent),
    }
}

/// Performs a command on the arbiter.
#[inline(always)]
pub(crate) fn command(
    member: &mut Member<BusObject>,
    boards: usize,
    cmd: &ArbCmd,
) -> Result<EventReply, StepFault>
    requires { objects_of (arc_value member.old.array) ≡ boards + 1 }
    ensures array { arc_value member.new.array ≡ arc_value member.old.array }
    ensures event { IfOk result (λ reply.
        AddsEntry boards (commands.Arbiter cmd.now) reply member.old member.new) }
    ensures busy { result ≡ Err StepFault.Busy → WasBusy member.old member.new }
{
    match member.try_operation(boards, &BusOperation { cmd }) {
        Ok(reply) => Ok(reply),
        Err(TryFault::Busy) => Err(StepFault::Busy),
        Err(TryFault::Spent) => Err(StepFault::Spent),
    }
}

/// Performs an event over the bus.
#[inline(always)]
pub(crate) fn perform(
    member: &mut Member<BusObject>,
    boards: usize,
    event: &EventRef<'_>,
) -> Result<EventReply, StepFault>
    requires { objects_of (arc_value member.old.array) ≡ boards + 1 }
    ensures array { arc_value member.new.array ≡ arc_value member.old.array }
    ensures event { IfOk result (λ reply. AddsCall (call_asked event.now) reply member.old member.new) }
    ensures busy { result ≡ Err StepFault.Busy → WasBusy member.old member.new }
{
    match event {
        EventRef::Bus(cmd) => command(member, boards, cmd),
        EventRef::Board { board, cmd } => access(member, boards, *board, &CommandRef { cmd: *cmd }),
        EventRef::Datum { board, cycle } => access(member, boards, *board, cycle),
    }
}

/// Performs the next event of a transfer, if there is one, and gives it the reply.
#[inline(always)]
fn step_task(
    member: &mut Member<BusObject>,
    boards: usize,
    task: &mut Task<'static>,
) -> Result<Option<EventReply>, StepFault>
    requires { objects_of (arc_value member.old.array) ≡ boards + 1 }
    ensures array { arc_value member.new.array ≡ arc_value member.old.array }
    ensures event { IfOk result (λ r. IfSome r (λ reply.
        StepsTask reply member.old member.new task.old task.new)) }
    ensures none { IfOk result (λ r. IfNone r ((member.new ≡ member.old) × (task.new ≡ task.old))) }
    ensures busy { result ≡ Err StepFault.Busy → WasBusy member.old member.new }
    ensures fault { IfErr result (λ _. task.new ≡ task.old) }
{
    let Some(event) = task.event_ref() else {
        return Ok(None);
    };
    let reply = perform(member, boards, &event)?;
    task.advance(Some(&reply));
    Ok(Some(reply))
}

/// Performs the next event of a work at a place of the bus, if there is one, and gives it the reply.
#[inline(always)]
fn step_work(
    member: &mut Member<BusObject>,
    boards: usize,
    map: &AddressMap,
    place: Place,
    work: &mut Work,
) -> Result<Option<EventReply>, StepFault>
    requires { objects_of (arc_value member.old.array) ≡ boards + 1 }
    ensures array { arc_value member.new.array ≡ arc_value member.old.array }
    ensures event { IfOk result (λ r. IfSome r (λ reply.
        StepsWork map.now place reply member.old member.new work.old work.new)) }
    ensures none { IfOk result (λ r. IfNone r ((member.new ≡ member.old) × (work.new ≡ work.old))) }
    ensures busy { result ≡ Err StepFault.Busy → WasBusy member.old member.new }
    ensures fault { IfErr result (λ _. work.new ≡ work.old) }
{
    match work {
        Work::Transfer(task) => step_task(member, boards, task),
        Work::Shared(work) => work.step(member, boards, map, place),
    }
}

/// Returns a buffer for the bytes that a request reads, which is allocated if they are more than 40.
///
/// # Errors
/// `Refused` with the first refusal of a request that would read more than 40 bytes, and `OutOfMemory`
/// if the allocation fails.
#[inline(always)]
fn buffer_for(alloc: Global, request: &Request) -> Result<BlockBuffer, StartFault>
    ensures empty { IfOk result (λ buffer. buffer.items ≡ []) }
    ensures enough { IfOk result (λ buffer. (t : LawfulRequest) → transfer_of request.now ≡ Ok t →
        read_len t.request ≤ buffer.capacity) }
    ensures why { IfErr result (IsWhyNoBuffer request.now) }
{
    // A request that reads so little is not checked here: its task checks it.
    if request.read_len() <= INLINE_LEN {
        return Ok(BlockBuffer::new());
    }
    let read_len = match Plan::of(request) {
        Ok(plan) => plan.read_len(),
        Err(fault) => return Err(StartFault::Refused(fault)),
    };
    let Ok(buffer) = BlockBuffer::with_capacity(alloc, read_len) else {
        return Err(StartFault::OutOfMemory);
    };
    Ok(buffer)
}

impl Processor {
    /// Returns the place on the bus.
    pub(crate) fn place(&self) -> Place
        ensures { result ≡ place_of self.now }
    {
        let (slot, level) = (self.slot, self.level);
        Place { slot, level }
    }

    /// Starts a transfer over the bus. The processor owns the request and a buffer for the bytes
    /// that it reads, which is allocated here if they are more than 40. Nothing happens on the bus
    /// yet.
    ///
    /// # Errors
    /// `Running` if the last transfer, lock, unlock, put or take has not ended, `Refused` with the first refusal of the
    /// request, and `OutOfMemory` if the allocation fails. The processor is unchanged.
    pub fn start(&mut self, alloc: Global, request: Request) -> Result<(), StartFault>
        ensures started { IfOk result (λ _. Starts request self.old self.new) }
        ensures why { IfErr result (IsWhy request self.old) }
        ensures unchanged { IfErr result (λ _. self.new ≡ self.old) }
        ensures place { KeepsPlace self.old self.new }
    {
        if self.is_running() {
            return Err(StartFault::Running);
        }
        let buffer = buffer_for(alloc, &request)?;
        let (slot, level) = (self.slot, self.level);
        let mut task = match Task::start_owned_into(&self.map, slot, level, request, buffer) {
            Ok(task) => task,
            Err(fault) => return Err(StartFault::Refused(fault)),
        };
        task.advance(None);
        self.task = Some(Work::Transfer(task));
        Ok(())
    }

    /// Returns whether the last transfer, lock, unlock, put or take has not ended.
    pub fn is_running(&self) -> bool
        ensures { result ≡ is_running self.now }
    {
        match &self.task {
            Some(Work::Transfer(task)) => !task.is_finished(),
            Some(Work::Shared(work)) => !work.is_finished(),
            None => false,
        }
    }

    /// Performs the next event of the transfer, lock, unlock, put or take that was started last, if
    /// there is one, and returns its reply. It never waits.
    ///
    /// # Errors
    /// `Busy` if another processor holds the object: nothing has happened. `Spent` if the object has
    /// made 2^64 - 1 steps, and `NoBoard` if the machine has no such board. The task is unchanged.
    #[inline(always)]
    pub fn step(&mut self) -> Result<Option<EventReply>, StepFault>
        ensures event { IfOk result (λ r. IfSome r (λ reply. Steps reply self.old self.new)) }
        ensures none { IfOk result (λ r. IfNone r
            ((self.new.member ≡ self.old.member) × (self.new.task ≡ self.old.task))) }
        ensures busy { result ≡ Err StepFault.Busy → WasBusy self.old.member self.new.member }
        ensures fault { IfErr result (λ _. self.new.task ≡ self.old.task) }
        ensures array { arc_value self.new.member.array ≡ arc_value self.old.member.array }
        ensures boards { self.new.boards ≡ self.old.boards }
        ensures index { self.new.index ≡ self.old.index }
        ensures place { KeepsPlace self.old self.new }
    {
        let place = self.place();
        match &mut self.task {
            Some(work) => step_work(&mut self.member, self.boards, &self.map, place, work),
            None => Ok(None),
        }
    }

    /// Returns the outcome of the last transfer by reference, if it has ended and nothing else was
    /// started after it.
    pub fn outcome(&self) -> Option<OutcomeRef<'_>>
        ensures { option_map outcome_in result ≡ outcome_of self.now }
    {
        match &self.task {
            Some(Work::Transfer(task)) => task.outcome(),
            _ => None,
        }
    }

    /// Returns whether the first byte of the last transfer selects a board; for a lock, an unlock, a
    /// put or a take, the byte of its lock.
    pub fn selects_a_board(&self) -> bool {
        match &self.task {
            Some(Work::Transfer(task)) => is_selected(task),
            Some(Work::Shared(work)) => {
                let job = Job::new(&self.map, self.slot, self.level, work.request);
                match job.first_transfer() {
                    CurrentTransfer::Running { task, .. } => is_selected(&task),
                    CurrentTransfer::Finished(_) => false,
                }
            }
            None => false,
        }
    }
}

/// Returns whether the first byte of a transfer selects a board.
fn is_selected(task: &Task<'_>) -> bool {
    match task.current_datum() {
        Some(datum) => datum.is_selected(),
        None => false,
    }
}
