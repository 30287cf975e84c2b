//! Laws of the answers of boards. Each function's contract is a law; its body is empty.
ghost use Rattle.std.specs.Prelude.{◌≡◌, ◌++◌, ◌&&◌, ℕ, Bool, List, Err, length};
ghost use Rattle.vme_known.specs.declared.access.Access.{Access};
ghost use Rattle.vme_known.specs.Histories.{IsHistory};
ghost use Rattle.vme_protocol.specs.declared.rule.Rule.TheVariants.{WrongBytes};
ghost use Rattle.vme_cycle.specs.declared.modify.Modify.{Modify};
ghost use Rattle.vme_cycle.specs.Functions.{has_len};
ghost use Rattle.vme_memory.specs.Boards.{Board};
ghost use Rattle.vme_memory.specs.Steps as Steps;
ghost use Rattle.vme_memory.specs.Steps.{fits, can_answer, read_command, write_command};
ghost use Rattle.vme_answers.specs.Cycles.{has_datum, has_modify};
ghost use Rattle.vme_answers.specs.Taking.{Judged};
ghost use Rattle.vme_answers.specs.Running.{Event, IsRun, accesses_of, after_event};

use vme_known::accesses_that_may_come_are_a_history;

/// States that the cycles of a class are those that its board carries out within its memory.
pub fn cycles_are_those_of_the_board()
    ensures read { (board : Board) (block : Bool) (at len : ℕ) →
        can_answer board (read_command block at len) ≡ (fits board at len && has_datum board.class block at len) }
    ensures write { (board : Board) (block : Bool) (at : ℕ) (new : List ℕ) →
        can_answer board (write_command block at new)
        ≡ (fits board at (length new) && has_datum board.class block at (length new)) }
    ensures modify { (board : Board) (at len : ℕ) (f : Modify) →
        can_answer board (Steps.Modify at len f) ≡ (fits board at len && has_modify board.class at len && has_len f len) }
{}

/// States that some memory explains the accesses of events that are taken, with unseen stores to open
/// bytes between them.
pub fn taken_events_are_a_history()
    ensures { (k last : Judged) (events : List Event) (accesses : List Access) →
        IsRun k events accesses last → IsHistory k.bytes accesses }
{
    accesses_that_may_come_are_a_history();
}

/// States that no memory explains the accesses up to an event that breaks J23.
pub fn wrong_bytes_are_no_history()
    ensures { (k last : Judged) (events : List Event) (accesses : List Access) (event : Event) →
        IsRun k events accesses last → after_event last event ≡ Err WrongBytes →
        IsHistory k.bytes (accesses ++ accesses_of last event) → ⊥ }
{
    accesses_that_may_come_are_a_history();
}
