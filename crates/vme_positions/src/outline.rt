//! The outline of a document.
ghost use Rattle.std.specs.Prelude.{◌≡◌, ℕ, ◌≤◌, length};

use crate::parts::{KnownKey, Parts, UnknownKey};
use crate::place::{Key, Place, TableName};
use crate::script::word;
use crate::span::Span;
use crate::walk::walk;
use std::alloc::{AllocError, Global};
use toml_parser::ParseError;

/// An element of `schedule`.
#[derive(Clone, Copy)]
pub(crate) struct ScheduledPair {
    pub(crate) whole: Span,
    pub(crate) slot: Span,
    pub(crate) turns: Span,
}

impl ScheduledPair {
    /// An element whose slot and turns were not found: both stand at the whole element.
    pub(crate) fn whole(whole: Span) -> ScheduledPair {
        ScheduledPair {
            whole,
            slot: whole,
            turns: whole,
        }
    }
}

/// Where the parts of a configuration file stand in its text.
#[derive(Drop)]
pub struct Outline {
    pub(crate) file: Parts,
    pub(crate) boards: Vec<Parts>,
    pub(crate) mailboxes: Vec<Parts>,
    pub(crate) schedule: Vec<ScheduledPair>,
}

impl Outline {
    /// Returns the outline of a text that `toml` accepted. Of another text it has the parts before
    /// the first fault.
    ///
    /// # Errors
    ///
    /// An allocation failed.
    pub fn of(alloc: Global, text: &[u8]) -> Result<Outline, AllocError> {
        let mut outline = Outline {
            file: Parts::new(alloc, Span::START),
            boards: Vec::new(alloc),
            mailboxes: Vec::new(alloc),
            schedule: Vec::new(alloc),
        };
        if let Ok(text) = std::str::from_utf8(text) {
            if let Err(ParseError::OutOfMemory) = walk(alloc, &mut outline, text) {
                return Err(AllocError);
            }
        }
        outline.sort();
        Ok(outline)
    }

    /// Sorts the unknown keys of each table.
    fn sort(&mut self) {
        self.file.sort();
        for board in self.boards.iter_mut() {
            board.sort();
        }
        for mailbox in self.mailboxes.iter_mut() {
            mailbox.sort();
        }
    }

    /// Returns the bytes of a place in `text`, the text of the outline. A place that was not found
    /// has no bytes, at the start of the text.
    pub fn range(&self, text: &[u8], place: &Place) -> Span
        ensures order { result.from ≤ result.to }
        ensures within { result.to ≤ length text.now }
        ensures file { place.now ≡ Place.File → result.to ≡ 0 }
        ensures bytes { (from to : ℕ) → place.now ≡ Place.Bytes from to →
            from ≤ to → to ≤ length text.now → (result.from ≡ from) × (result.to ≡ to) }
    {
        let span = match *place {
            Place::File => Span::START,
            Place::Bytes { from, to } => Span { from, to },
            _ => self.find(text, place).unwrap_or(Span::START),
        };
        span.within(text)
    }

    /// Returns the name of the `nth` unknown key of a table, from 0, where these keys are sorted by
    /// their bytes. Returns `None` if the table was not found or has no such key.
    pub fn unknown_name(&self, table: TableName, index: usize, nth: usize) -> Option<&str> {
        Some(self.unknown(table, index, nth)?.name.as_str())
    }

    /// Where a part of the document stands, if it was found.
    fn find(&self, text: &[u8], place: &Place) -> Option<Span> {
        match *place {
            Place::File | Place::Bytes { .. } => None,
            Place::Table { table, index } => Some(self.parts(table, index)?.header),
            Place::Key { table, index, key } => Some(self.key(table, index, key)?.name_at),
            Place::Value { table, index, key } => Some(self.key(table, index, key)?.value_at),
            Place::Unknown { table, index, nth } => Some(self.unknown(table, index, nth)?.at),
            Place::Element { key, index } => self.element(key, index),
            Place::PairSlot { index } => Some(self.schedule.get(index)?.slot),
            Place::PairTurns { index } => Some(self.schedule.get(index)?.turns),
            Place::Word {
                board,
                line,
                from,
                to,
            } => self.word(text, board, line, Span { from, to }),
        }
    }

    /// The parts of a table, if it was found.
    fn parts(&self, table: TableName, index: usize) -> Option<&Parts> {
        match table {
            TableName::File => Some(&self.file),
            TableName::Board => self.boards.get(index),
            TableName::Mailbox => self.mailboxes.get(index),
        }
    }

    /// A key of a table, if it was found.
    fn key(&self, table: TableName, index: usize, key: Key) -> Option<KnownKey> {
        self.parts(table, index)?.find(key)
    }

    /// The `nth` unknown key of a table, if it was found.
    fn unknown(&self, table: TableName, index: usize, nth: usize) -> Option<&UnknownKey> {
        self.parts(table, index)?.unknown.get(nth)
    }

    /// The bytes of an element of the array at `key`, if it was found.
    fn element(&self, key: Key, index: usize) -> Option<Span> {
        match key {
            Key::Schedule => Some(self.schedule.get(index)?.whole),
            Key::Board => Some(self.boards.get(index)?.whole),
            Key::Mailbox => Some(self.mailboxes.get(index)?.whole),
            _ => None,
        }
    }

    /// Where bytes of a line of a board's script stand, if the line was found. Lines are counted
    /// from 1.
    fn word(&self, text: &[u8], board: usize, line: usize, bytes: Span) -> Option<Span> {
        let parts = self.boards.get(board)?;
        let start = *parts.lines.get(line.checked_sub(1)?)?;
        let script = parts.find(Key::Script)?;
        Some(word(text, script.value_at, start, bytes))
    }
}
