ghost use Rattle.std.specs.Prelude.{◌≡◌, ◌≢◌, ◌<◌, ◌∷◌, [], ℕ, false, length, Option, Some, None, Ok, IsTrue};
ghost use Rattle.vme_memory.specs.declared.reply.Reply.{Reply};
ghost use Rattle.vme_memory.specs.Steps.{Command};
ghost use Rattle.vme_arbiter.specs.declared.command.ArbCmd.{ArbCmd};
ghost use Rattle.vme_arbiter.specs.declared.command.ArbCmd.TheVariants.{Ask};
ghost use Rattle.vme_arbiter.specs.declared.command.ArbReply.{ArbReply};
ghost use Rattle.vme_arbiter.specs.declared.command.ArbReply.TheVariants as arb_replies;
ghost use Rattle.vme_arbiter.specs.Requests.{is_level};
ghost use Rattle.vme_arbiter.specs.Arbitration.{Arbitration};
ghost use Rattle.vme_arbiter.specs.Masters.{may_give, MatchesReply};
ghost use Rattle.vme_core.specs.declared.event.EventReply.{EventReply};
ghost use Rattle.vme_core.specs.declared.event.EventReply.TheVariants as replies;
ghost use Rattle.vme_core.specs.Calls.{Call, OnBoard, OnBus};
ghost use Rattle.vme_core.specs.NextSteps.{NotStarted, Invokes, Returns};
ghost use Rattle.vme_master.specs.declared.job.Job.{Job};
ghost use Rattle.vme_master.specs.Jobs.{fits_call};
ghost use Rattle.vme_master.specs.Tables.{Inputs};
ghost use Rattle.vme_shared.specs.declared.outcome.SharedOutcome.{SharedOutcome};
ghost use Rattle.vme_shared.specs.declared.outcome.SharedOutcome.TheVariants.{Denied};
ghost use Rattle.vme_shared.specs.declared.stage.Stage.{Stage};
ghost use Rattle.vme_shared.specs.Mailboxes.{IsWellFormed, shared_refusal};
ghost use Rattle.vme_shared.specs.Tables.{SharedJob, stage_job, shared_next, shared_arb_reply};
ghost use Rattle.vme_shared.specs.Machine.{shared_given, shared_to_do};

/// States that a lock, an unlock, a put or a take follows its table: after calls with any replies
/// it does next what the table states. A reply that does not fit, is absent or comes before the
/// first call is a denial. An outcome is final.
pub fn shared_tasks_go_by_the_table()
    ensures table { (s : SharedJob) (given : Inputs) →
        shared_to_do (shared_given s given) ≡ shared_next s given }
    ensures misfit { (s : SharedJob) (given : Inputs) (call : Call) (reply : EventReply) →
        shared_next s given ≡ Invokes call → fits_call call reply ≡ false →
        shared_next s (Some reply ∷ given) ≡ Returns Denied }
    ensures absent { (s : SharedJob) (given : Inputs) (call : Call) →
        shared_next s given ≡ Invokes call → shared_next s (None ∷ given) ≡ Returns Denied }
    ensures early { (s : SharedJob) (reply : EventReply) → shared_refusal s.request ≡ None →
        shared_next s (Some reply ∷ []) ≡ Returns Denied }
    ensures end { (s : SharedJob) (given : Inputs) (end : SharedOutcome)
        (last : Option EventReply) → shared_next s given ≡ Returns end →
        shared_next s (last ∷ given) ≡ Returns end }
{}

/// States that a request that is not refused at the start requests the bus at the task's first call
/// and has not started before. None of its transfers is refused later.
pub fn shared_tasks_are_refused_at_the_start()
    ensures rests { (s : SharedJob) → shared_refusal s.request ≡ None → shared_next s [] ≡ NotStarted }
    ensures asks { (s : SharedJob) → shared_refusal s.request ≡ None →
        shared_next s (None ∷ []) ≡ Invokes (OnBus (Ask s.slot s.level)) }
    ensures later { (s : SharedJob) (stage : Stage) → IsWellFormed s.request →
        shared_refusal s.request ≡ None → (job : Job) × (stage_job s stage ≡ Ok job) }
{}

/// States that each board that a lock, an unlock, a put or a take calls is one of the map.
pub fn shared_tasks_call_boards_of_the_map()
    ensures { (s : SharedJob) (given : Inputs) (board : ℕ) (command : Option Command) →
        shared_next s given ≡ Invokes (OnBoard board command) → board < length s.map }
{}

/// States that a lock, an unlock, a put or a take keeps its tenure of the bus, transfer by
/// transfer. The arbiter's last reply allows each command to the arbiter. Data go to a board only
/// while that reply is `Granted`. After a reply that fits and is no denial, the slot holds the bus
/// or waits as the last reply states. If that reply ends the task, then the outcome is no denial,
/// the reply is `Freed`, and no reply of the arbiter is left.
pub fn shared_tasks_keep_their_tenure()
    ensures begin { (s : SharedJob) → shared_arb_reply s (None ∷ []) ≡ None }
    ensures command_allowed { (s : SharedJob) (given : Inputs) (cmd : ArbCmd) → IsTrue (is_level s.level) →
        shared_next s given ≡ Invokes (OnBus cmd) →
        IsTrue (may_give s.slot (shared_arb_reply s given) cmd) }
    ensures holds { (s : SharedJob) (given : Inputs) (board : ℕ) (command : Option Command) →
        shared_next s given ≡ Invokes (OnBoard board command) →
        shared_arb_reply s given ≡ Some arb_replies.Granted }
    ensures slot_state { (s : SharedJob) (given : Inputs) (cmd : ArbCmd) (reply : ArbReply)
        (bus : Arbitration) (slot : ℕ) → shared_next s given ≡ Invokes (OnBus cmd) →
        IsTrue (fits_call (OnBus cmd) (replies.Bus reply)) → replies.Bus reply ≢ replies.Bus arb_replies.Denied →
        MatchesReply bus slot (Some reply) →
        MatchesReply bus slot (shared_arb_reply s (Some (replies.Bus reply) ∷ given)) }
    ensures datum { (s : SharedJob) (given : Inputs) (call : Call) (reply : Reply) →
        shared_next s given ≡ Invokes call → IsTrue (fits_call call (replies.Board reply)) →
        shared_arb_reply s (Some (replies.Board reply) ∷ given) ≡ shared_arb_reply s given }
    ensures granted { (s : SharedJob) (given : Inputs) (call : Call) (reply : EventReply) →
        shared_next s given ≡ Invokes call → IsTrue (fits_call call reply) →
        reply ≢ replies.Bus arb_replies.Denied → shared_next s (Some reply ∷ given) ≢ Returns Denied }
    ensures freed { (s : SharedJob) (given : Inputs) (call : Call) (reply : EventReply)
        (end : SharedOutcome) → shared_next s given ≡ Invokes call → IsTrue (fits_call call reply) →
        reply ≢ replies.Bus arb_replies.Denied → shared_next s (Some reply ∷ given) ≡ Returns end →
        (reply ≡ replies.Bus arb_replies.Freed) × (shared_arb_reply s (Some reply ∷ given) ≡ None) }
{}
