//! The law of a session. The function's contract is the law; its body is empty.
ghost use Rattle.std.specs.Prelude.{◌≡◌, ◌≢◌, ◌<◌, ℕ, List, [], ◌∷◌, length};
ghost use Rattle.vme_core.specs.NextSteps.{Invokes, Returns};
ghost use Rattle.vme_core.specs.Calls.{Call};
ghost use Rattle.vme_shared.specs.declared.reply.LineReply.{LineReply};
ghost use Rattle.vme_shared.specs.declared.reply.LineReply.TheVariants.{Unfinished};
ghost use Rattle.vme_grammar.specs.declared.line.Line.{Line};
ghost use Rattle.vme_script.specs.declared.script.ScriptLine.{ScriptLine};
ghost use Rattle.vme_script.specs.Configurations.{Configuration};
ghost use Rattle.vme_script.specs.Lawful.{IsLawful};
ghost use Rattle.vme_line_task.specs.Tables.{line_next};
ghost use Rattle.vme_stepper.specs.Turns.{SystemState};
ghost use Rattle.vme_serve.specs.Services.{ServiceView, line_served};
ghost use Rattle.vme_serve.specs.Runs.{with_scripts, with_reply, IsNext, IsRunOfSlot};

/// States that a session answers a line as `vme step` does, if the line is the next one of the
/// script in its slot and no other slot has a turn before it has ended. The file has one attempt at
/// each line, and any scripts.
///
/// A line that makes a call is a run of turns of its slot: they lead from the machine before the
/// line to the one after it, and give the line its reply. A line that makes no call, whose request
/// is refused, has its reply at once, and the machine stays as it is.
pub fn lines_are_runs_of_their_slots()
    ensures calls { (service : ServiceView) (scripts : List (List ScriptLine)) (board : ℕ) (line : Line)
        (ended : List LineReply) (system : SystemState) (call : Call) →
        let file = with_scripts service.config scripts in
        let served = line_served service board line in
        IsLawful service.config → board < length service.config.boards →
        IsNext file board line ended system → system.machine ≡ service.machine →
        line_next file board line [] ≡ Invokes call → served.reply ≢ Unfinished →
        IsRunOfSlot file board system
        (with_reply system board ended served.reply served.service.machine) }
    ensures refused { (service : ServiceView) (scripts : List (List ScriptLine)) (board : ℕ) (line : Line)
        (reply : LineReply) →
        line_next (with_scripts service.config scripts) board line [] ≡ Returns reply →
        ((line_served service board line).reply ≡ reply)
        × ((line_served service board line).service ≡ service) }
{}
