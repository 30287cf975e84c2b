//! A use of `vme_mailbox_laws`.
ghost use Rattle.std.specs.Prelude.{◌≡◌, ℕ, List, [], Some};
ghost use Rattle.vme_object.specs.declared.history.Entry.{Entry};
ghost use Rattle.vme_object.specs.History.{own};
ghost use Rattle.vme_memory.specs.declared.command.BoardCmd.{BoardCmd};
ghost use Rattle.vme_memory.specs.declared.reply.Reply.{Reply};
ghost use Rattle.vme_shared.specs.MailboxSteps.{BoardMailbox};
ghost use Rattle.vme_mailbox_laws.specs.Groups.{own_words_put};

use vme_mailbox_laws::own_words_are_those_of_own_entries;

/// States that a processor without an entry in a board's history has put no word there.
pub fn no_entry_no_word()
    ensures { (who : ℕ) (m : BoardMailbox) (h : List (Entry BoardCmd Reply)) →
        own who h ≡ [] → own_words_put who m h ≡ [] }
{
    own_words_are_those_of_own_entries();
}
