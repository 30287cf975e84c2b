//! Laws of mailboxes as queues of words.
ghost use Rattle.std.specs.Prelude.{◌≡◌, ◌+◌, ◌≤◌, ℕ, List, Some, None, length};
ghost use Rattle.vme_object.specs.declared.history.Entry.{Entry};
ghost use Rattle.vme_object.specs.History.{IsLegal, own, IsPrefix};
ghost use Rattle.vme_object.specs.Each.{Each};
ghost use Rattle.vme_memory.specs.declared.command.BoardCmd.{BoardCmd};
ghost use Rattle.vme_memory.specs.declared.reply.Reply.{Reply};
ghost use Rattle.vme_memory.specs.Boards.{Board};
ghost use Rattle.vme_memory.specs.Locals.{board_step};
ghost use Rattle.vme_core.specs.Runs.{Transition};
ghost use Rattle.vme_shared.specs.MailboxSteps.{BoardMailbox, LiesIn, IsNewMailbox};
ghost use Rattle.vme_shared.specs.Phases.{Idle, IsProper};
ghost use Rattle.vme_shared.specs.Words.{put_by, taken_by, words_put, words_taken, words_along};
ghost use Rattle.vme_mailbox_laws.specs.Groups.{own_words_put, own_words_taken};
ghost use Rattle.vme_shared.specs.declared.reply.LineReply.{LineReply};
ghost use Rattle.vme_mailbox_laws.specs.Along.{LiesAt};
ghost use Rattle.vme_shared.specs.declared.mailbox.Mailbox.{Mailbox};
ghost use Rattle.vme_shared.specs.Mailboxes.{mailbox_refusal};
ghost use Rattle.vme_script.specs.Boards.{entries_of};
ghost use Rattle.vme_script.specs.Configurations.{Configuration, opening_memory};
ghost use Rattle.vme_script.specs.Lawful.{IsLawful, IsLawfulMailbox};
ghost use Rattle.vme_line_task.specs.Scripts.{lines_at};
ghost use Rattle.vme_mailbox_laws.specs.Places.{on_board};
ghost use Rattle.vme_mailbox_laws.specs.Names.{lines_put, lines_taken, IsMailboxOf};
ghost use Rattle.vme_mailbox_laws.specs.Runs.{ShareHistory};

/// Mailboxes are queues. Let runs of the processors' scripts share a legal history of a board, in
/// any interleaving, from a memory in which the mailbox is new, and let only the lines that name
/// the mailbox touch it. Then the history is proper for the mailbox. The words taken are a prefix
/// of the words put, and at most as many more words are put as the mailbox has slots. The words of
/// each processor's own puts and takes, in order, are those that the replies to its lines report.
pub fn scripts_follow_the_protocol()
    ensures proper { (config : Configuration) (box board : ℕ) (m : BoardMailbox) (memory : Board)
        (h : List (Entry BoardCmd Reply)) (runs : List (List Transition)) (answers : List (List LineReply)) →
        IsMailboxOf config box board m → IsNewMailbox memory m → IsLegal board_step memory h →
        ShareHistory config board h runs answers → IsProper m h }
    ensures order { (config : Configuration) (box board : ℕ) (m : BoardMailbox) (memory : Board)
        (h : List (Entry BoardCmd Reply)) (runs : List (List Transition)) (answers : List (List LineReply)) →
        IsMailboxOf config box board m → IsNewMailbox memory m → IsLegal board_step memory h →
        ShareHistory config board h runs answers → IsPrefix (words_taken m h) (words_put m h) }
    ensures capacity { (config : Configuration) (box board : ℕ) (m : BoardMailbox) (memory : Board)
        (h : List (Entry BoardCmd Reply)) (runs : List (List Transition)) (answers : List (List LineReply)) →
        IsMailboxOf config box board m → IsNewMailbox memory m → IsLegal board_step memory h →
        ShareHistory config board h runs answers →
        length (words_put m h) ≤ length (words_taken m h) + m.slots }
    ensures put { (config : Configuration) (box board : ℕ) (m : BoardMailbox) (memory : Board)
        (h : List (Entry BoardCmd Reply)) (runs : List (List Transition)) (answers : List (List LineReply)) →
        IsMailboxOf config box board m → IsNewMailbox memory m → IsLegal board_step memory h →
        ShareHistory config board h runs answers →
        Each (λ who reported. own_words_put who m h ≡ lines_put box (lines_at config who) reported) answers }
    ensures taken { (config : Configuration) (box board : ℕ) (m : BoardMailbox) (memory : Board)
        (h : List (Entry BoardCmd Reply)) (runs : List (List Transition)) (answers : List (List LineReply)) →
        IsMailboxOf config box board m → IsNewMailbox memory m → IsLegal board_step memory h →
        ShareHistory config board h runs answers →
        Each (λ who reported. own_words_taken who m h ≡ lines_taken box (lines_at config who) reported) answers }
{}

/// The words that one caller puts or takes, among all words of a history, are those of its own
/// entries alone.
pub fn own_words_are_those_of_own_entries()
    ensures put { (who : ℕ) (m : BoardMailbox) (h : List (Entry BoardCmd Reply)) →
        own_words_put who m h ≡ words_along put_by m (Some Idle) (own who h) }
    ensures taken { (who : ℕ) (m : BoardMailbox) (h : List (Entry BoardCmd Reply)) →
        own_words_taken who m h ≡ words_along taken_by m (Some Idle) (own who h) }
{}

/// Each mailbox of a lawful configuration lies in the board where it is declared: each of its
/// addresses selects that board at its place, its bytes lie wholly in the board's memory, which can
/// answer its accesses, and no put or take of the mailbox is refused.
pub fn declared_mailboxes_lie_in_their_boards()
    ensures addresses { (config : Configuration) (mailbox : Mailbox) → IsLawful config →
        (fine : IsLawfulMailbox config.boards mailbox) →
        LiesAt (entries_of config.boards) mailbox fine.place.board (on_board mailbox fine.place) }
    ensures memory { (config : Configuration) (mailbox : Mailbox) → IsLawful config →
        (fine : IsLawfulMailbox config.boards mailbox) →
        LiesIn (opening_memory fine.board) (on_board mailbox fine.place) }
    ensures accepted { (config : Configuration) (mailbox : Mailbox) → IsLawful config →
        IsLawfulMailbox config.boards mailbox → mailbox_refusal mailbox ≡ None }
{}
