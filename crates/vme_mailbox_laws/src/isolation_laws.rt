//! The law that lines leave the mailboxes alone that they do not name.
ghost use Rattle.std.specs.Prelude.{◌≡◌, ◌+◌, ℕ, Some, slice_get};
ghost use Rattle.vme_shared.specs.declared.mailbox.Mailbox.{Mailbox};
ghost use Rattle.vme_script.specs.Configurations.{Configuration};
ghost use Rattle.vme_script.specs.Lawful.{IsLawful, IsLawfulMailbox};
ghost use Rattle.vme_line_task.specs.Scripts.{lines_at};
ghost use Rattle.vme_mailbox_laws.specs.Places.{on_board};
ghost use Rattle.vme_mailbox_laws.specs.Names.{AllLeave};

/// No line touches a declared mailbox that it does not name. In a lawful configuration, each line
/// of each script is a put or a take that names the mailbox by its number, or no command that the
/// line sends to the mailbox's board touches a byte of the mailbox, whatever replies the line gets.
pub fn declared_mailboxes_are_left_alone()
    ensures lines { (config : Configuration) (k who : ℕ) (mailbox : Mailbox) → IsLawful config →
        slice_get config.mailboxes k ≡ Some mailbox →
        (fine : IsLawfulMailbox config.boards mailbox) →
        AllLeave config who (k + 1) fine.place.board (on_board mailbox fine.place)
        (lines_at config who) }
{}
