//! The numbers by which a line may name mailboxes.
ghost use Rattle.std.specs.Prelude.{◌≡◌};
ghost use Rattle.vme_script.specs.MailboxNumbers.{has_box, may_name};

use vme_grammar::Line;

/// The mailboxes that a script may name.
#[derive(Clone, Copy, Debug, PartialEq, Eq)]
pub enum MailboxNumbers {
    /// Any mailbox: the declared mailboxes are unknown.
    Any,
    /// The declared mailboxes, numbered from 1 to this count.
    Declared(usize),
}

impl MailboxNumbers {
    /// Whether `number` names a mailbox.
    fn has(self, number: u8) -> bool
        ensures { result ≡ has_box self number }
    {
        match self {
            MailboxNumbers::Any => true,
            MailboxNumbers::Declared(count) => 1 <= number && usize::from(number) <= count,
        }
    }

    /// Returns whether a line names only mailboxes that it may name.
    pub fn may_name(self, line: &Line) -> bool
        ensures named { result ≡ may_name self line.now }
    {
        match line {
            Line::Put { mailbox, .. } | Line::Take { mailbox } => self.has(*mailbox),
            _ => true,
        }
    }
}
