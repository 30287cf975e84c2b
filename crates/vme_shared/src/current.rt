ghost use Rattle.std.specs.Prelude.{◌≡◌, ◌≢◌, ◌<◌, None, IsTrue, option_map, option_copied};
ghost use Rattle.vme_core.specs.Advances.{CanMake, AdvancesOn};
ghost use Rattle.vme_core.specs.Machines.{process_count};
ghost use Rattle.vme_core.specs.NextSteps.{NotStarted, Returns, call_in, result_in};
ghost use Rattle.vme_master.specs.Machine.{to_do};
ghost use Rattle.vme_shared.specs.declared.outcome.SharedOutcome.{SharedOutcome as AnyOutcome};
ghost use Rattle.vme_shared.specs.declared.outcome.SharedOutcome.TheVariants as shared;
ghost use Rattle.vme_shared.specs.declared.stage.StageResult.TheVariants.{Finish};
ghost use Rattle.vme_shared.specs.Steps.{first_stage, step_after};
ghost use Rattle.vme_shared.specs.Tables.{SharedJob, stage_job};
ghost use Rattle.vme_shared.specs.Machine.{stage_called, current_after, current_or, current_to_do, IsGoing, IsOfStage};

use crate::outcome::SharedOutcome;
use crate::request::SharedRequest;
use crate::stage::{Stage, StageResult};
use vme_core::{Core, EventReply};
use vme_master::Task;

/// The current transfer, or the end.
#[derive(Debug, Drop)]
pub enum CurrentTransfer<'a> {
    /// The bus task of this stage.
    Running { stage: Stage, task: Task<'a> },
    /// The task has ended with this outcome.
    Finished(SharedOutcome),
}

impl CurrentTransfer<'_> {
    /// Gives the current transfer the reply to its event, or `None` at its first call. If this ends
    /// the transfer, returns what follows the transfer.
    #[tactic(auto, using(crate::proofs::lemmas::Stands::by_outcome))]
    pub fn advance(
        &mut self,
        request: SharedRequest,
        reply: Option<&EventReply>,
    ) -> Option<StageResult>
        ensures current { (s : SharedJob) → s.request ≡ request →
            current_after s self.old (option_copied reply.entry) ≡ current_or s self.new result }
        ensures going { result ≡ None → IsGoing self.old → IsGoing self.new }
        ensures of_stage { (s : SharedJob) → IsOfStage s self.old → IsOfStage s self.new }
        ensures begun { result ≡ None → current_to_do self.new ≢ NotStarted }
    {
        let CurrentTransfer::Running { stage, .. } = self else {
            return None;
        };
        let stage = *stage;
        match self {
            CurrentTransfer::Running { task, .. } => {
                task.advance(reply);
                if !task.is_finished() {
                    return None;
                }
                Some(outcome_step(request, stage, task)?)
            }
            CurrentTransfer::Finished(_) => None,
        }
    }

    /// Performs the next event of the transfer at work on `core` for processor `who` and gives the
    /// transfer the reply. If this ends the transfer, returns what follows the transfer.
    pub(crate) fn step_on(
        &mut self,
        request: SharedRequest,
        core: &mut Core,
        who: usize,
    ) -> Option<StageResult>
        requires who { who < process_count core.old }
        requires can { CanMake core.old (call_in (current_to_do self.old)) }
        requires going { IsGoing self.old }
        ensures step { (s : SharedJob) → s.request ≡ request →
            AdvancesOn current_to_do (current_after s) who core.old core.new self.old (current_or s self.new result) }
        ensures going { result ≡ None → IsGoing self.new }
        ensures ended { (end : AnyOutcome) → current_to_do self.old ≡ Returns end → result ≡ None }
        ensures of_stage { (s : SharedJob) → IsOfStage s self.old → IsOfStage s self.new }
    {
        let CurrentTransfer::Running { stage, .. } = self else {
            return None;
        };
        let stage = *stage;
        match self {
            CurrentTransfer::Running { task, .. } => {
                if !task.step_on(core, who) {
                    return None;
                }
                Some(outcome_step(request, stage, task)?)
            }
            CurrentTransfer::Finished(_) => None,
        }
    }

    /// If the first transfer has found the lock taken, begins it again in its place, with its first
    /// call made, and returns `true`. `step` is what follows the transfer.
    pub(crate) fn retry(&mut self, request: SharedRequest, step: StageResult) -> bool
        ensures busy { IsTrue result → step ≡ Finish shared.Busy }
        ensures again { (s : SharedJob) → s.request ≡ request → IsOfStage s self.old → IsTrue result →
            self.new ≡ stage_called (first_stage request) (stage_job s (first_stage request)) }
    {
        let (Stage::Locks, StageResult::Finish(SharedOutcome::Busy)) = (request.first_stage(), step)
        else {
            return false;
        };
        match self {
            CurrentTransfer::Running {
                stage: Stage::Locks,
                task,
            } => {
                task.restart();
                task.advance(None);
                true
            }
            _ => false,
        }
    }
}

/// Returns what follows the transfer of a stage, if its bus task has ended.
fn outcome_step(request: SharedRequest, stage: Stage, task: &Task<'_>) -> Option<StageResult>
    ensures { result ≡ option_map (step_after request stage) (result_in (to_do task.now)) }
{
    Some(request.step_after(stage, task.outcome()?))
}
