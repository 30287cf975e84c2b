//! The window of a board that a command reaches.
ghost use Rattle.std.specs.Prelude.{◌≡◌, ◌≤◌, ◌+◌, ◌*◌, ◌<◌, ℕ, length};
ghost use Rattle.vme_memory.specs.declared.command.BoardCmd.{BoardCmd};
ghost use Rattle.vme_memory.specs.declared.reply.Reply.TheVariants.{Berr};
ghost use Rattle.vme_memory.specs.Boards.{Board};
ghost use Rattle.vme_memory.specs.Locals.{answer_given};
ghost use Rattle.vme_sparse_memory.specs.Windows.{first_of, moved_to, through, window_of};

/// States that a command reaches no byte but those of a window of twelve bytes: from the word of its
/// first byte on the reply and the new bytes are those of a board that has the window's bytes alone.
/// A command past the last byte is replied to with a bus error.
#[tactic(auto, using(crate::proofs::Windows::answered_within, crate::proofs::Windows::answered_past))]
pub fn commands_reach_a_window()
    ensures within { (board : Board) (command : BoardCmd) (word place : ℕ) → place < 4 →
        first_of command ≡ 4 * word + place →
        answer_given board command ≡ through board (4 * word)
        (answer_given (window_of board (4 * word)) (moved_to place command)) }
    ensures past { (board : Board) (command : BoardCmd) → length board.bytes ≤ first_of command →
        answer_given board command ≡ (Berr, board) }
{}
