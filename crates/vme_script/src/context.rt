//! The context of a script, and the refusals of its lines that depend on it.
ghost use Rattle.std.specs.Prelude.{◌≡◌, false};
ghost use Rattle.std.specs.Option.{option_map_or};
ghost use Rattle.vme_script.specs.Bytes.{line_bytes};
ghost use Rattle.vme_script.specs.Contexts.{boxes_of, is_of_mailbox, are_of_mailboxes, touches, refusal_of};

use crate::board_range::BoardRange;
use crate::bytes::line_bytes;
use crate::mailbox_numbers::MailboxNumbers;
use std::marker::Model;
use vme_decode::AddressMap;
use vme_grammar::{Line, LineFault};
use vme_shared::Mailbox;

/// The declarations of a file, as a script in it sees them.
#[derive(Drop)]
pub struct MailboxDeclarations<'a> {
    /// The ranges of the boards.
    pub map: &'a AddressMap,
    /// The mailboxes on the boards.
    pub mailboxes: &'a [Mailbox],
    /// The board whose processor has the script, by its index in the map.
    pub board: usize,
}

impl<'a> Model for MailboxDeclarations<'a> {
    ghost use Rattle.vme_script.specs.Declarations.{Declaration};

    ghost Value = { Declaration };

    ghost view = { λ d. record {
      entries = d.map.now;
      mailboxes = d.mailboxes.now;
      board = d.board;
    } };
}

/// The context in which the lines of a script are checked.
#[derive(Drop)]
pub enum ScriptContext<'a> {
    /// A script by itself: the mailboxes are unknown.
    Alone,
    /// A script in a file, with the declarations of the file.
    InFile(MailboxDeclarations<'a>),
}

impl<'a> MailboxDeclarations<'a> {
    /// Whether one of `bytes` belongs to `mailbox`.
    fn is_of_mailbox(&self, bytes: BoardRange, mailbox: Mailbox) -> bool
        ensures { result ≡ is_of_mailbox self.now.entries bytes mailbox }
    {
        match BoardRange::of(self.map, mailbox) {
            Some(place) => bytes.shares(place),
            None => false,
        }
    }

    /// Whether one of `bytes` belongs to a declared mailbox.
    fn are_of_mailboxes(&self, bytes: BoardRange) -> bool
        ensures { result ≡ are_of_mailboxes self.now bytes }
    {
        self.mailboxes
            .iter()
            .any(|mailbox| self.is_of_mailbox(bytes, *mailbox))
    }

    /// Whether a line accesses a byte of a declared mailbox.
    #[tactic(auto, using(crate::proofs::Untouched::none_touched))]
    fn touches(&self, line: &Line) -> bool
        ensures { result ≡ option_map_or (are_of_mailboxes self.now)
            (line_bytes self.now.entries self.now.board line.now) false }
    {
        if self.mailboxes.is_empty() {
            return false;
        }
        match line_bytes(self.map, self.board, line) {
            Some(bytes) => self.are_of_mailboxes(bytes),
            None => false,
        }
    }
}

impl<'a> ScriptContext<'a> {
    /// The mailboxes that a script may name.
    fn boxes(&self) -> MailboxNumbers
        ensures { result ≡ boxes_of self.now }
    {
        match self {
            ScriptContext::Alone => MailboxNumbers::Any,
            ScriptContext::InFile(file) => MailboxNumbers::Declared(file.mailboxes.len()),
        }
    }

    /// Whether a line accesses a byte of a declared mailbox, other than by a put or a take.
    fn touches(&self, line: &Line) -> bool
        ensures { result ≡ touches self.now line.now }
    {
        match self {
            ScriptContext::Alone => false,
            ScriptContext::InFile(file) => file.touches(line),
        }
    }

    /// Returns the refusal of a parsed line in this context, or `None` if the line is allowed.
    ///
    /// In a file, a line that names an undeclared mailbox is refused with `BadNumber` (S6). After
    /// that, a line other than a put or a take that accesses a byte of a declared mailbox is
    /// refused with `MailboxBytes` (S9).
    pub fn refusal(&self, line: &Line) -> Option<LineFault>
        ensures refusal { result ≡ refusal_of self.now line.now }
    {
        if !self.boxes().may_name(line) {
            return Some(LineFault::BadNumber);
        }
        if self.touches(line) {
            return Some(LineFault::MailboxBytes);
        }
        None
    }
}
