ghost use Rattle.std.specs.Prelude.{◌≡◌, ◌≢◌, ◌<◌, false, IsTrue};
ghost use Rattle.std.specs.Option.{option_map, option_copied};
ghost use Rattle.vme_core.specs.Advances.{CanMake, AdvancesOn};
ghost use Rattle.vme_core.specs.EventRefs.{call_asked};
ghost use Rattle.vme_core.specs.Machines.{process_count};
ghost use Rattle.vme_core.specs.NextSteps.{NotStarted, call_in, result_in};
ghost use Rattle.vme_shared.specs.CurrentData.{shared_datum};
ghost use Rattle.vme_shared.specs.Mailboxes.{IsWellFormed};
ghost use Rattle.vme_shared.specs.Machine.{shared_fresh, shared_task, shared_advance, shared_to_do};
ghost use Rattle.vme_shared.specs.Retries.{RetriesOn};
ghost use Rattle.vme_shared.specs.Events.{next_in, IsNextOf};

use crate::current::CurrentTransfer;
use crate::job::Job;
use crate::outcome::SharedOutcome;
use crate::request::SharedRequest;
use crate::todo::SharedTodo;
use std::marker::Model;
use vme_core::{Core, EventRef, EventReply};
use vme_cycle::CycleFault;
use vme_decode::AddressMap;
use vme_master::CurrentDatum;

/// The task of a lock, an unlock, a put or a take, call by call.
///
/// Each of its transfers is a bus task, which begins when the bus task before it ends. A shared
/// task allocates nothing.
#[derive(Debug, Drop)]
pub struct SharedTask<'a> {
    job: Job<'a>,
    current: CurrentTransfer<'a>,
}

impl<'a> Model for SharedTask<'a> {
    ghost use Rattle.vme_shared.specs.Machine.{SharedView, IsKept};

    ghost Value = { SharedView };

    ghost view = { λ t. record { job = t.job; current = t.current } };

    ghost invariant = { λ t. IsKept t.job t.current };
}

impl<'a> SharedTask<'a> {
    /// Returns the task of a slot's request to a lock or a mailbox. The slot requests the bus on
    /// `level`.
    ///
    /// # Errors
    ///
    /// The refusal of the transfer of a lock or an unlock. For a put or a take, the refusal of the
    /// lock's transfer, or else that of a read of the mailbox's last word.
    pub fn start(
        map: &'a AddressMap,
        slot: u16,
        level: u8,
        request: SharedRequest,
    ) -> Result<SharedTask<'a>, CycleFault>
        requires { IsWellFormed request }
        ensures { result
            ≡ shared_task (record { map = map.now; slot = slot; level = level; request = request }) }
    {
        request.check()?;
        let job = Job::new(map, slot, level, request);
        let current = job.first_transfer();
        Ok(SharedTask { job, current })
    }

    /// Returns what the task does next. `reply` is `None` at the first call, and then the reply to
    /// the event that the call before returned.
    pub fn next(&mut self, reply: Option<EventReply>) -> SharedTodo
        ensures { IsNextOf self.old self.new reply result }
    {
        self.advance(reply.as_ref());
        self.todo()
    }

    /// Gives the task the reply to its event, or `None` at the first call. `event_ref` then returns
    /// the next event, and `outcome` the outcome.
    pub fn advance(&mut self, reply: Option<&EventReply>)
        ensures task { self.new ≡ shared_advance self.old (option_copied reply.entry) }
        ensures begun { shared_to_do self.new ≢ NotStarted }
    {
        if let Some(step) = self.current.advance(self.job.request(), reply) {
            self.job.step(&mut self.current, step);
        }
    }

    /// Performs the next event on `core` for processor `who` and gives the task the reply. Without
    /// a next event nothing changes. If the task thereby ends, since the lock is already taken, it
    /// may begin again in its place, with its first call made. Returns whether it has done so, which
    /// `may_retry` has to allow. This is faster than `event_ref`, `Core::apply_ref`, `advance` and
    /// `restart`, since no event is copied and no bus task is made anew.
    pub fn advance_on_retrying(&mut self, core: &mut Core, who: usize, may_retry: bool) -> bool
        requires who { who < process_count core.old }
        requires can { CanMake core.old (call_in (shared_to_do self.old)) }
        ensures allowed { IsTrue result → IsTrue may_retry }
        ensures retried { IsTrue result → RetriesOn who core.old core.new self.old self.new }
        ensures advanced { result ≡ false →
            AdvancesOn shared_to_do shared_advance who core.old core.new self.old self.new }
    {
        let request = self.job.request();
        let Some(step) = self.current.step_on(request, core, who) else {
            return false;
        };
        if may_retry && self.current.retry(request, step) {
            return true;
        }
        self.job.step(&mut self.current, step);
        false
    }

    /// Returns the event that comes next as a reference, without the signals of a cycle; or `None`
    /// before the first call and after the end.
    pub fn event_ref(&self) -> Option<EventRef<'_>>
        ensures { option_map call_asked result ≡ call_in (shared_to_do self.now) }
    {
        match &self.current {
            CurrentTransfer::Running { task, .. } => task.event_ref(),
            CurrentTransfer::Finished(_) => None,
        }
    }

    /// Returns the datum that the current transfer is at, if the task has not ended.
    pub fn current_datum(&self) -> Option<CurrentDatum<'_>>
        ensures { result ≡ shared_datum self.now }
    {
        match &self.current {
            CurrentTransfer::Running { task, .. } => task.current_datum(),
            CurrentTransfer::Finished(_) => None,
        }
    }

    /// Returns the outcome, if the task has ended.
    pub fn outcome(&self) -> Option<SharedOutcome>
        ensures { result ≡ result_in (shared_to_do self.now) }
    {
        match &self.current {
            CurrentTransfer::Running { .. } => None,
            CurrentTransfer::Finished(end) => Some(*end),
        }
    }

    /// Resets the task to its state before the first call.
    pub fn restart(&mut self)
        ensures { self.new ≡ shared_fresh self.old.job }
    {
        self.current = self.job.first_transfer();
    }

    fn todo(&self) -> SharedTodo
        requires { shared_to_do self.now ≢ NotStarted }
        ensures { next_in result ≡ shared_to_do self.now }
    {
        match self.event_ref() {
            Some(event_ref) => SharedTodo::Call(event_ref.to_event()),
            None => SharedTodo::Finished(self.outcome().unwrap()),
        }
    }
}
