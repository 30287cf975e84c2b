//! The locks and mailboxes of a processor, event by event.
ghost use Rattle.std.specs.Prelude.{◌≡◌, ◌+◌, Err, is_some, option_map, option_copied, IfOk, IfErr, IfSome, IfNone};
ghost use Rattle.std.specs.Arc.{arc_value};
ghost use Rattle.vme_core.specs.EventRefs.{call_asked};
ghost use Rattle.vme_core.specs.NextSteps.{call_in, result_in};
ghost use Rattle.vme_shared.specs.Mailboxes.{IsWellFormed};
ghost use Rattle.vme_shared.specs.Machine.{current_after, current_to_do, IsGoing};
ghost use Rattle.vme_port_array.specs.Arrays.{objects_of};
ghost use Rattle.vme_processor.specs.Processors.{KeepsPlace};
ghost use Rattle.vme_processor.specs.Events.{WasBusy};
ghost use Rattle.vme_processor.specs.Works.{StepsWork};
ghost use Rattle.vme_processor.specs.Shared.{StepsCurrent, StartsShared, IsSharedWhy, begun_work};
ghost use Rattle.vme_processor.specs.Shared.{shared_outcome_of, shared_datum_of};

use crate::opening::Place;
use crate::processor::Processor;
use crate::transfer::{StartFault, StepFault, perform};
use crate::work::{SharedWork, Work};
use vme_bus_objects::BusObject;
use vme_core::{EventRef, EventReply};
use vme_decode::AddressMap;
use vme_machine::Member;
use vme_master::CurrentDatum;
use vme_shared::{CurrentTransfer, Job, SharedOutcome, SharedRequest};

/// Returns the next event of the current transfer, if there is one.
fn event_of<'a>(current: &'a CurrentTransfer<'static>) -> Option<EventRef<'a>>
    ensures { option_map call_asked result ≡ call_in (current_to_do current.now) }
{
    match current {
        CurrentTransfer::Running { task, .. } => task.event_ref(),
        CurrentTransfer::Finished(_) => None,
    }
}

/// Gives the current transfer the reply to its event, or `None` at its first call, and begins the
/// next transfer if this ends it.
fn advance(job: &Job<'_>, current: &mut CurrentTransfer<'static>, reply: Option<&EventReply>)
    requires { IsGoing current.old }
    ensures current { current.new ≡ current_after job.now current.old (option_copied reply.entry) }
    ensures going { IsGoing current.new }
{
    if let Some(step) = current.advance(job.request(), reply) {
        job.step(current, step);
    }
}

/// Performs the next event of the current transfer, if there is one, and gives it the reply.
// Its code stands once, apart from that of transfers.
#[inline(never)]
fn step_current(
    member: &mut Member<BusObject>,
    boards: usize,
    job: &Job<'_>,
    current: &mut CurrentTransfer<'static>,
) -> Result<Option<EventReply>, StepFault>
    requires objects { objects_of (arc_value member.old.array) ≡ boards + 1 }
    requires going { IsGoing current.old }
    ensures array { arc_value member.new.array ≡ arc_value member.old.array }
    ensures event { IfOk result (λ r. IfSome r (λ reply.
        StepsCurrent job.now reply member.old member.new current.old current.new)) }
    ensures none { IfOk result (λ r. IfNone r ((member.new ≡ member.old) × (current.new ≡ current.old))) }
    ensures busy { result ≡ Err StepFault.Busy → WasBusy member.old member.new }
    ensures fault { IfErr result (λ _. current.new ≡ current.old) }
    ensures kept { IsGoing current.new }
{
    let Some(event) = event_of(current) else {
        return Ok(None);
    };
    let reply = perform(member, boards, &event)?;
    advance(job, current, Some(&reply));
    Ok(Some(reply))
}

impl SharedWork {
    /// Returns the work of a request at a place of the bus, with its first call made.
    fn begin(map: &AddressMap, place: Place, request: SharedRequest) -> SharedWork
        requires { IsWellFormed request }
        ensures { result ≡ begun_work map.now place request }
    {
        let job = Job::new(map, place.slot, place.level, request);
        let mut current = job.first_transfer();
        advance(&job, &mut current, None);
        SharedWork { request, current }
    }

    /// Performs the next event, if there is one, and gives it the reply.
    pub(crate) fn step(
        &mut self,
        member: &mut Member<BusObject>,
        boards: usize,
        map: &AddressMap,
        place: Place,
    ) -> Result<Option<EventReply>, StepFault>
        requires { objects_of (arc_value member.old.array) ≡ boards + 1 }
        ensures array { arc_value member.new.array ≡ arc_value member.old.array }
        ensures event { IfOk result (λ r. IfSome r (λ reply.
            StepsWork map.now place reply member.old member.new (Work.Shared self.old) (Work.Shared self.new))) }
        ensures none { IfOk result (λ r. IfNone r ((member.new ≡ member.old) × (self.new ≡ self.old))) }
        ensures busy { result ≡ Err StepFault.Busy → WasBusy member.old member.new }
        ensures fault { IfErr result (λ _. self.new ≡ self.old) }
    {
        let job = Job::new(map, place.slot, place.level, self.request);
        step_current(member, boards, &job, &mut self.current)
    }

    /// Returns the outcome, if it has ended.
    fn outcome(&self) -> Option<SharedOutcome>
        ensures { result ≡ result_in (current_to_do self.now.current) }
    {
        match &self.current {
            CurrentTransfer::Running { .. } => None,
            CurrentTransfer::Finished(end) => Some(*end),
        }
    }

    /// Returns whether it has ended.
    pub(crate) fn is_finished(&self) -> bool
        ensures { result ≡ is_some (result_in (current_to_do self.now.current)) }
    {
        self.outcome().is_some()
    }
}

impl Processor {
    /// Starts a lock, an unlock, a put or a take over the bus. Nothing happens on the bus yet, and
    /// nothing is allocated.
    ///
    /// # Errors
    /// `Running` if the last transfer, lock, unlock, put or take has not ended. `Refused` with the
    /// refusal of the transfer of a lock or an unlock, and for a put or a take with the refusal of
    /// the lock's transfer, or else that of a read of the mailbox's last word. The processor is
    /// unchanged.
    pub fn start_shared(&mut self, request: SharedRequest) -> Result<(), StartFault>
        requires { IsWellFormed request }
        ensures started { IfOk result (λ _. StartsShared request self.old self.new) }
        ensures why { IfErr result (IsSharedWhy request self.old) }
        ensures unchanged { IfErr result (λ _. self.new ≡ self.old) }
        ensures place { KeepsPlace self.old self.new }
    {
        if self.is_running() {
            return Err(StartFault::Running);
        }
        if let Err(fault) = request.check() {
            return Err(StartFault::Refused(fault));
        }
        let work = SharedWork::begin(&self.map, self.place(), request);
        self.task = Some(Work::Shared(work));
        Ok(())
    }

    /// Returns the outcome of the last lock, unlock, put or take, if it has ended and no transfer was
    /// started after it.
    pub fn shared_outcome(&self) -> Option<SharedOutcome>
        ensures { result ≡ shared_outcome_of self.now }
    {
        match &self.task {
            Some(Work::Shared(work)) => work.outcome(),
            _ => None,
        }
    }

    /// Returns the datum at which a lock, an unlock, a put or a take is, if it has not ended.
    pub fn shared_datum(&self) -> Option<CurrentDatum<'_>>
        ensures { result ≡ shared_datum_of self.now }
    {
        match &self.task {
            Some(Work::Shared(work)) => match &work.current {
                CurrentTransfer::Running { task, .. } => task.current_datum(),
                CurrentTransfer::Finished(_) => None,
            },
            _ => None,
        }
    }
}
