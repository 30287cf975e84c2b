ghost use Rattle.std.specs.Prelude.{◌≡◌, ◌+◌, ◌≤◌, List, [], ◌∷◌, length};
ghost use Rattle.vme_object.specs.declared.history.Entry.{Entry};
ghost use Rattle.vme_object.specs.History.{IsLegal, IsPrefix};
ghost use Rattle.vme_memory.specs.declared.command.BoardCmd.{BoardCmd};
ghost use Rattle.vme_memory.specs.declared.reply.Reply.{Reply};
ghost use Rattle.vme_memory.specs.Boards.{Board};
ghost use Rattle.vme_memory.specs.Locals.{board_step};
ghost use Rattle.vme_shared.specs.MailboxSteps.{BoardMailbox, IsNewMailbox};
ghost use Rattle.vme_shared.specs.Phases.{IsProper};
ghost use Rattle.vme_shared.specs.Words.{words_put, words_taken};
ghost use Rattle.vme_shared.specs.Example.{example_board, example_mailbox, example_history, early_count_history};

/// States that a mailbox is a queue. In every legal history of its board in which each master keeps
/// the protocol, from a new mailbox on, the words taken are a prefix of the words put. At most as
/// many more words are put as the mailbox has slots.
pub fn mailboxes_are_queues()
    ensures order { (board : Board) (m : BoardMailbox) (h : List (Entry BoardCmd Reply)) →
        IsNewMailbox board m → IsLegal board_step board h → IsProper m h →
        IsPrefix (words_taken m h) (words_put m h) }
    ensures capacity { (board : Board) (m : BoardMailbox) (h : List (Entry BoardCmd Reply)) →
        IsNewMailbox board m → IsLegal board_step board h → IsProper m h →
        length (words_put m h) ≤ length (words_taken m h) + m.slots }
{}

/// States that an example history is legal and keeps the protocol: one master puts a word, while
/// another master finds the mailbox locked and then takes the word. A put that writes the count
/// before the word has a legal history that breaks the protocol.
pub fn a_word_goes_through()
    ensures legal { IsLegal board_step example_board example_history }
    ensures proper { IsProper example_mailbox example_history }
    ensures put { words_put example_mailbox example_history ≡ 7 ∷ [] }
    ensures taken { words_taken example_mailbox example_history ≡ 7 ∷ [] }
    ensures early_legal { IsLegal board_step example_board early_count_history }
    ensures early_improper { IsProper example_mailbox early_count_history → ⊥ }
{}
