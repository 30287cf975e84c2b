//! Laws of lines, of their traces and of their tenures. Each function's contract is a law; its body
//! is empty.
ghost use Rattle.std.specs.Prelude.{◌≡◌, ◌<◌, ◌⊎◌, ◌∷◌, ◌++◌, [], ℕ, List, Option, Some, None, length, slice_get, IsTrue};
ghost use Rattle.vme_memory.specs.declared.reply.Reply.{Reply};
ghost use Rattle.vme_memory.specs.Steps.{Command};
ghost use Rattle.vme_arbiter.specs.declared.command.ArbCmd.{ArbCmd};
ghost use Rattle.vme_arbiter.specs.declared.command.ArbReply.{ArbReply};
ghost use Rattle.vme_arbiter.specs.declared.command.ArbReply.TheVariants.{Granted};
ghost use Rattle.vme_arbiter.specs.Requests.{is_level};
ghost use Rattle.vme_arbiter.specs.Arbitration.{Arbitration};
ghost use Rattle.vme_arbiter.specs.Masters.{may_give, MatchesReply};
ghost use Rattle.vme_core.specs.declared.event.EventReply.{EventReply};
ghost use Rattle.vme_core.specs.declared.event.EventReply.TheVariants as event_replies;
ghost use Rattle.vme_core.specs.Calls.{Call, OnBoard, OnBus, call_of};
ghost use Rattle.vme_core.specs.Runs.{Transition};
ghost use Rattle.vme_core.specs.NextSteps.{Invokes, Returns};
ghost use Rattle.vme_master.specs.Tables.{Inputs};
ghost use Rattle.vme_shared.specs.declared.reply.LineReply.{LineReply};
ghost use Rattle.vme_grammar.specs.declared.line.Line.{Line};
ghost use Rattle.vme_grammar.specs.Grammar.{IsOwnLine};
ghost use Rattle.vme_script.specs.Configurations.{Configuration};
ghost use Rattle.vme_line_task.specs.Scripts.{slot_at, level_at, lines_at};
ghost use Rattle.vme_line_task.specs.Tables.{next_given_with, next_given, line_next};
ghost use Rattle.vme_line_task.specs.Machine.{line_given_with, line_given, line_after, line_to_do};
ghost use Rattle.vme_line_task.specs.Events.{IsCallBelow};
ghost use Rattle.vme_line_task.specs.Traces.{ScriptState, IsTracePrefix};
ghost use Rattle.vme_line_task.specs.Tenures.{line_arb_reply, IsLocal, IsUndeniedReply, IsGranted};

/// States that a line follows the table: after calls with any replies, its next step is the one of
/// the table, whatever its number of attempts. A line's reply is final.
pub fn lines_go_by_the_table()
    ensures given { (config : Configuration) (board : ℕ) (line : Line) (given : Inputs) →
        line_to_do (line_given config board line given) ≡ next_given config board line given }
    ensures tries { (config : Configuration) (board tries : ℕ) (line : Line) (given : Inputs) →
        line_to_do (line_given_with config board tries line given)
        ≡ next_given_with config board tries line given }
    ensures replies { (config : Configuration) (board : ℕ) (line : Line) (replies : List EventReply) →
        line_to_do (line_after config board line replies) ≡ line_next config board line replies }
    ensures end { (config : Configuration) (board : ℕ) (line : Line) (given : Inputs)
        (last : Option EventReply) (answer : LineReply) →
        next_given config board line given ≡ Returns answer →
        next_given config board line (last ∷ given) ≡ Returns answer }
{}

/// States that each board that a line calls is one of the configuration.
pub fn lines_call_boards_that_are_there()
    ensures { (config : Configuration) (board : ℕ) (line : Line) (given : Inputs) (call : Call) →
        board < length config.boards → next_given config board line given ≡ Invokes call →
        IsCallBelow (length config.boards) call }
{}

/// States that a processor goes through its script line by line. Its trace begins before the first
/// line. A call of the next line with its reply extends the trace within that line, and the line's
/// reply leads to the line after it.
pub fn traces_go_line_by_line()
    ensures begin { (config : Configuration) (board : ℕ) →
        IsTracePrefix config board [] (record { ended = []; replies = [] }) }
    ensures call { (config : Configuration) (board : ℕ) (moves : List Transition) (script_state : ScriptState)
        (line : Line) (m : Transition) → IsTracePrefix config board moves script_state →
        slice_get (lines_at config board) (length script_state.ended) ≡ Some line →
        line_next config board line script_state.replies ≡ Invokes (call_of m.event) →
        IsTracePrefix config board (moves ++ m ∷ [])
        (record { ended = script_state.ended; replies = m.reply ∷ script_state.replies }) }
    ensures answer { (config : Configuration) (board : ℕ) (moves : List Transition) (script_state : ScriptState)
        (line : Line) (answer : LineReply) → IsTracePrefix config board moves script_state →
        slice_get (lines_at config board) (length script_state.ended) ≡ Some line →
        line_next config board line script_state.replies ≡ Returns answer →
        IsTracePrefix config board moves (record { ended = script_state.ended ++ answer ∷ []; replies = [] }) }
{}

/// States that a line keeps its tenure of the bus.
///
/// The arbiter's last reply to the line's slot allows each command that the line gives the arbiter.
/// The data of a transfer go to a board only while that last reply is `Granted`. After a reply that
/// fits its call and is no denial, the state of the slot at the arbiter is the one that the last
/// reply states. If that reply ends the line, the line's own reply is no denial, and the state of
/// the slot is that of a slot without a reply. The reply of a line without a call is no denial.
pub fn lines_keep_their_tenure()
    ensures begin { (config : Configuration) (board : ℕ) (line : Line) →
        line_arb_reply config board line [] ≡ None }
    ensures first { (config : Configuration) (board : ℕ) (line : Line) (answer : LineReply) →
        line_next config board line [] ≡ Returns answer → IsGranted answer }
    ensures command_allowed { (config : Configuration) (board : ℕ) (line : Line) (replies : List EventReply)
        (cmd : ArbCmd) → IsTrue (is_level (level_at config board)) →
        line_next config board line replies ≡ Invokes (OnBus cmd) →
        IsTrue (may_give (slot_at config board) (line_arb_reply config board line replies) cmd) }
    ensures holds { (config : Configuration) (board : ℕ) (line : Line) (replies : List EventReply)
        (b : ℕ) (command : Option Command) → IsOwnLine line →
        line_next config board line replies ≡ Invokes (OnBoard b command) →
        IsLocal command ⊎ (line_arb_reply config board line replies ≡ Some Granted) }
    ensures slot_state { (config : Configuration) (board : ℕ) (line : Line) (replies : List EventReply)
        (cmd : ArbCmd) (reply : ArbReply) (bus : Arbitration) (slot : ℕ) →
        line_next config board line replies ≡ Invokes (OnBus cmd) →
        IsUndeniedReply (OnBus cmd) (event_replies.Bus reply) → MatchesReply bus slot (Some reply) →
        MatchesReply bus slot (line_arb_reply config board line (event_replies.Bus reply ∷ replies)) }
    ensures datum { (config : Configuration) (board : ℕ) (line : Line) (replies : List EventReply)
        (call : Call) (reply : Reply) → line_next config board line replies ≡ Invokes call →
        IsUndeniedReply call (event_replies.Board reply) →
        line_arb_reply config board line (event_replies.Board reply ∷ replies)
        ≡ line_arb_reply config board line replies }
    ensures granted { (config : Configuration) (board : ℕ) (line : Line) (replies : List EventReply)
        (call : Call) (reply : EventReply) (answer : LineReply) →
        line_next config board line replies ≡ Invokes call → IsUndeniedReply call reply →
        line_next config board line (reply ∷ replies) ≡ Returns answer → IsGranted answer }
    ensures end { (config : Configuration) (board : ℕ) (line : Line) (replies : List EventReply)
        (call : Call) (reply : EventReply) (answer : LineReply) (bus : Arbitration) (slot : ℕ) →
        line_next config board line replies ≡ Invokes call → IsUndeniedReply call reply →
        line_next config board line (reply ∷ replies) ≡ Returns answer →
        MatchesReply bus slot (line_arb_reply config board line (reply ∷ replies)) →
        MatchesReply bus slot None }
{}
