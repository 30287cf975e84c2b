ghost use Rattle.std.specs.Prelude.{◌≡◌, ◌≢◌, ◌<◌, ◌⊎◌, ◌∷◌, [], ℕ, false, List, length, Option, Some, None, IsTrue};
ghost use Rattle.vme_cycle.specs.Requests.{addr_of};
ghost use Rattle.vme_cycle.specs.Lawful.{Transfer};
ghost use Rattle.vme_decode.specs.declared.entry.Entry.{Entry};
ghost use Rattle.vme_decode.specs.Select.{RespondsAt};
ghost use Rattle.vme_memory.specs.Boards.{Board};
ghost use Rattle.vme_memory.specs.Steps.{Command};
ghost use Rattle.vme_arbiter.specs.declared.command.ArbCmd.{ArbCmd};
ghost use Rattle.vme_arbiter.specs.declared.command.ArbCmd.TheVariants as arb_commands;
ghost use Rattle.vme_arbiter.specs.declared.command.ArbReply.TheVariants.{Granted, Freed};
ghost use Rattle.vme_arbiter.specs.Requests.{is_level};
ghost use Rattle.vme_arbiter.specs.Arbitration.{Arbitration, arbiter_step};
ghost use Rattle.vme_arbiter.specs.Masters.{may_give};
ghost use Rattle.vme_core.specs.declared.event.EventReply.{EventReply};
ghost use Rattle.vme_core.specs.declared.event.EventReply.TheVariants as replies;
ghost use Rattle.vme_core.specs.Calls.{Call, OnBoard, OnBus, command_step};
ghost use Rattle.vme_core.specs.NextSteps.{Invokes, Returns};
ghost use Rattle.vme_master.specs.declared.job.BusJob.{BusJob};
ghost use Rattle.vme_master.specs.declared.job.LocalJob.{LocalJob};
ghost use Rattle.vme_master.specs.declared.job.Job.{Job};
ghost use Rattle.vme_master.specs.declared.job.Job.TheVariants.{Bus, Local};
ghost use Rattle.vme_master.specs.declared.outcome.Outcome.{Outcome};
ghost use Rattle.vme_master.specs.declared.outcome.Outcome.TheVariants.{Denied};
ghost use Rattle.vme_master.specs.Jobs.{bus_job, local_call, fits_call, error_outcome};
ghost use Rattle.vme_master.specs.Tables.{Inputs, next_of};
ghost use Rattle.vme_master.specs.Machine.{task_given, to_do};
ghost use Rattle.vme_master.specs.Laws.{last_arb_reply, IsNextDatum, IsBelow};

/// States that a task follows the table `next_of`: after calls with any replies it does next what
/// the table has for these replies. A reply that does not fit, is absent or comes before the first
/// call is a denial. An outcome is final.
#[tactic(auto, using(crate::proofs::lemmas::Stands::by_the_table))]
pub fn tasks_go_by_the_table()
    ensures table { (job : Job) (given : Inputs) → to_do (task_given job given) ≡ next_of job given }
    ensures misfit { (job : Job) (given : Inputs) (call : Call) (reply : EventReply) →
        next_of job given ≡ Invokes call → fits_call call reply ≡ false →
        next_of job (Some reply ∷ given) ≡ Returns Denied }
    ensures absent { (job : Job) (given : Inputs) (call : Call) →
        next_of job given ≡ Invokes call → next_of job (None ∷ given) ≡ Returns Denied }
    ensures early { (job : Job) (reply : EventReply) → next_of job (Some reply ∷ []) ≡ Returns Denied }
    ensures end { (job : Job) (given : Inputs) (outcome : Outcome) (last : Option EventReply) →
        next_of job given ≡ Returns outcome → next_of job (last ∷ given) ≡ Returns outcome }
{}

/// States that a transfer's calls on a board are the commands of its data, one for each and in
/// their order, on the board that its first byte selects. A local command makes only its one call.
/// With no board selected, a transfer makes no call on a board and ends with the bus timer's error
/// or a denial.
pub fn data_go_in_order()
    ensures data { (job : BusJob) (given : Inputs) (board : ℕ) (command : Option Command) →
        next_of (Bus job) given ≡ Invokes (OnBoard board command) →
        IsNextDatum job given board command }
    ensures local { (job : LocalJob) (given : Inputs) (call : Call) →
        next_of (Local job) given ≡ Invokes call → call ≡ local_call job }
    ensures nowhere { (job : BusJob) (given : Inputs) (outcome : Outcome) → job.place ≡ None →
        next_of (Bus job) given ≡ Returns outcome →
        (outcome ≡ Denied) ⊎ (outcome ≡ error_outcome 0 []) }
{}

/// States that each board that a transfer calls is that of the map's entry which contains the
/// address of the first byte in the code's space and admits the code. Each board that a job calls
/// is among the first `n` if the job's own boards are.
pub fn boards_are_of_the_map()
    ensures falls { (map : List Entry) (slot level : ℕ) (t : Transfer) (given : Inputs) (board : ℕ)
        (command : Option Command) →
        next_of (bus_job map slot level t) given ≡ Invokes (OnBoard board command) →
        (offset : ℕ) × RespondsAt map t.am (addr_of t.request) board offset }
    ensures map { (map : List Entry) (slot level : ℕ) (t : Transfer) →
        IsBelow (length map) (bus_job map slot level t) }
    ensures below { (n : ℕ) (job : Job) (given : Inputs) (board : ℕ) (command : Option Command) →
        IsBelow n job → next_of job given ≡ Invokes (OnBoard board command) → board < n }
{}

/// States that a transfer keeps its tenure of the bus. Its commands to the arbiter are its own
/// slot's, and the arbiter's last reply allows each of them. Data go to a board only while that
/// reply is `Granted`. Without a denial the transfer ends only with the reply `Freed`.
pub fn transfers_keep_their_tenure()
    ensures own { (job : BusJob) (given : Inputs) (cmd : ArbCmd) →
        next_of (Bus job) given ≡ Invokes (OnBus cmd) →
        (cmd ≡ arb_commands.Ask job.slot job.level)
        ⊎ ((cmd ≡ arb_commands.Look job.slot) ⊎ (cmd ≡ arb_commands.Done job.slot)) }
    ensures command_allowed { (job : BusJob) (given : Inputs) (cmd : ArbCmd) → IsTrue (is_level job.level) →
        next_of (Bus job) given ≡ Invokes (OnBus cmd) →
        IsTrue (may_give job.slot (last_arb_reply given) cmd) }
    ensures holds { (job : BusJob) (given : Inputs) (board : ℕ) (command : Option Command) →
        next_of (Bus job) given ≡ Invokes (OnBoard board command) → last_arb_reply given ≡ Some Granted }
    ensures frees { (job : BusJob) (given : Inputs) (call : Call) (reply : EventReply)
        (outcome : Outcome) → next_of (Bus job) given ≡ Invokes call →
        next_of (Bus job) (Some reply ∷ given) ≡ Returns outcome → outcome ≢ Denied →
        reply ≡ replies.Bus Freed }
{}

/// States that every reply of a board or of the arbiter fits its command.
pub fn replies_fit()
    ensures board { (memory : Board) (board : ℕ) (command : Option Command) →
        IsTrue (fits_call (OnBoard board command) (replies.Board (command_step memory command).1)) }
    ensures bus { (bus : Arbitration) (cmd : ArbCmd) →
        IsTrue (fits_call (OnBus cmd) (replies.Bus (arbiter_step bus cmd).1)) }
{}
