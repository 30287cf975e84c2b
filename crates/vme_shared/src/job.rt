ghost use Rattle.std.specs.Prelude.{◌≡◌, ◌≢◌};
ghost use Rattle.vme_core.specs.NextSteps.{NotStarted};
ghost use Rattle.vme_shared.specs.Tables.{stage_job};
ghost use Rattle.vme_shared.specs.Machine.{stage_task, stage_called, current_stepped, first_transfer, current_to_do, IsKept};

use crate::current::CurrentTransfer;
use crate::outcome::SharedOutcome;
use crate::request::SharedRequest;
use crate::stage::{Stage, StageResult};
use std::marker::Model;
use vme_cycle::CycleFault;
use vme_decode::AddressMap;
use vme_master::Task;

/// A slot's request to a lock or a mailbox, with the level on which the slot requests the bus and the
/// map of the boards.
///
/// It makes the transfers of the request, one after another. `SharedTask` has a job and the current
/// transfer. Who owns the map has the current transfer alone, and makes a job for each step.
#[derive(Debug, Drop)]
pub struct Job<'a> {
    map: &'a AddressMap,
    slot: u16,
    level: u8,
    request: SharedRequest,
}

impl<'a> Model for Job<'a> {
    ghost use Rattle.vme_shared.specs.Mailboxes.{IsWellFormed};
    ghost use Rattle.vme_shared.specs.Tables.{SharedJob};

    ghost Value = { SharedJob };

    ghost view = { λ a. record { map = a.map.now; slot = a.slot; level = a.level; request = a.request } };

    ghost invariant = { λ a. IsWellFormed a.request };
}

impl<'a> Job<'a> {
    ghost use Rattle.vme_shared.specs.Mailboxes.{IsWellFormed};

    /// Returns the job of a slot's request. The slot requests the bus on `level`.
    pub fn new(map: &'a AddressMap, slot: u16, level: u8, request: SharedRequest) -> Job<'a>
        requires { IsWellFormed request }
        ensures { result ≡ record { map = map.now; slot = slot; level = level; request = request } }
    {
        Job {
            map,
            slot,
            level,
            request,
        }
    }

    /// Returns the request.
    pub fn request(&self) -> SharedRequest
        ensures value { result ≡ self.now.request }
        ensures job { IsWellFormed result }
    {
        self.request
    }

    /// Returns the first transfer before its first call.
    #[tactic(auto, using(crate::proofs::Stages::first_kept))]
    pub fn first_transfer<'t>(&self) -> CurrentTransfer<'t>
        ensures current { result ≡ first_transfer self.now }
        ensures kept { IsKept self.now result }
    {
        let stage = self.request.first_stage();
        match self.task(stage) {
            Ok(task) => CurrentTransfer::Running { stage, task },
            Err(_) => CurrentTransfer::Finished(SharedOutcome::Berr),
        }
    }

    /// Puts what follows a transfer in its place: the next one, with its first call made, or the
    /// end.
    #[tactic(auto, using(crate::proofs::Stages::stepped_kept))]
    pub fn step<'t>(&self, current: &mut CurrentTransfer<'t>, step: StageResult)
        ensures current { current.new ≡ current_stepped self.now step }
        ensures kept { IsKept self.now current.new }
        ensures begun { current_to_do current.new ≢ NotStarted }
    {
        *current = match step {
            StageResult::Continue(stage) => self.called(stage),
            StageResult::Finish(end) => CurrentTransfer::Finished(end),
        };
    }

    /// Returns the transfer of a stage after its first call.
    #[tactic(auto, using(crate::proofs::Stages::begun_kept))]
    fn called<'t>(&self, stage: Stage) -> CurrentTransfer<'t>
        ensures current { result ≡ stage_called stage (stage_job self.now stage) }
        ensures kept { IsKept self.now result }
        ensures begun { current_to_do result ≢ NotStarted }
    {
        match self.task(stage) {
            Ok(mut task) => {
                task.advance(None);
                CurrentTransfer::Running { stage, task }
            }
            Err(_) => CurrentTransfer::Finished(SharedOutcome::Berr),
        }
    }

    /// Returns the bus task of a stage.
    fn task<'t>(&self, stage: Stage) -> Result<Task<'t>, CycleFault>
        ensures { result ≡ stage_task (stage_job self.now stage) }
    {
        Task::start_owned(
            self.map,
            self.slot,
            self.level,
            self.request.transfer(stage),
        )
    }
}
