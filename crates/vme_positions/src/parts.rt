//! Where the parts of one table stand.
use crate::lexer::{Pair, after_comma, read_pair};
use crate::place::{Key, TableName};
use crate::script::line_starts;
use crate::span::Span;
use std::alloc::{AllocError, Global};
use toml_parser::ParseError;
use toml_parser::text::{first, skip, skip_blank};

/// A key of the format, and its value.
#[derive(Clone, Copy)]
pub(crate) struct KnownKey {
    pub(crate) key: Key,
    pub(crate) name_at: Span,
    pub(crate) value_at: Span,
}

/// A key that the format does not have. Keys are ordered by their bytes.
#[derive(PartialEq, Eq, PartialOrd, Ord, Drop)]
pub(crate) struct UnknownKey {
    pub(crate) name: String,
    pub(crate) at: Span,
}

/// The parts of a table.
#[derive(Drop)]
pub(crate) struct Parts {
    /// The header, or the `{` of an inline table.
    pub(crate) header: Span,
    /// The header, or the whole inline table.
    pub(crate) whole: Span,
    pub(crate) known: Vec<KnownKey>,
    /// The unknown keys: in the order of the text, or sorted by their bytes after `sort`.
    pub(crate) unknown: Vec<UnknownKey>,
    /// The start of each line of the script in the text.
    pub(crate) lines: Vec<usize>,
}

impl Parts {
    /// The parts of a table with this header and no keys.
    pub(crate) fn new(alloc: Global, header: Span) -> Parts {
        Parts {
            header,
            whole: header,
            known: Vec::new(alloc),
            unknown: Vec::new(alloc),
            lines: Vec::new(alloc),
        }
    }

    /// The parts of an element of an array. `s` is the text from the element on.
    pub(crate) fn of_element(
        alloc: Global,
        text: &str,
        table: TableName,
        s: &str,
        whole: Span,
    ) -> Result<Parts, ParseError> {
        let mut parts = Parts::new(alloc, whole);
        if first(s) == b'{' {
            parts.header = whole.first_byte();
            parts.add_members(alloc, text, table, skip(s, 1))?;
        }
        Ok(parts)
    }

    /// Adds the pairs of an inline table. `s` is the text after its `{`.
    fn add_members(
        &mut self,
        alloc: Global,
        text: &str,
        table: TableName,
        s: &str,
    ) -> Result<(), ParseError> {
        let mut rest = s;
        'members: loop {
            let at = skip_blank(rest, true);
            if first(at) == b'}' {
                return Ok(());
            }
            let (member, after) = read_pair(alloc, text, at)?;
            self.add_pair(alloc, text, table, member)?;
            rest = after_comma(after);
        }
    }

    /// Adds the key of a pair, and the lines of a script.
    pub(crate) fn add_pair(
        &mut self,
        alloc: Global,
        text: &str,
        table: TableName,
        pair: Pair<'_>,
    ) -> Result<(), AllocError> {
        let Pair {
            name,
            is_dotted,
            name_at,
            value_at,
            value: _,
        } = pair;
        if !is_dotted && Key::named(table, name.as_str()) == Some(Key::Script) {
            self.lines = line_starts(alloc, text.as_bytes(), value_at)?;
        }
        self.add_key(table, name, name_at, value_at)
    }

    /// Adds a key of the format, unless it is there, or an unknown key.
    pub(crate) fn add_key(
        &mut self,
        table: TableName,
        name: String,
        name_at: Span,
        value_at: Span,
    ) -> Result<(), AllocError> {
        match Key::named(table, name.as_str()) {
            Some(key) => self.add_known(KnownKey {
                key,
                name_at,
                value_at,
            }),
            None => Ok(self.unknown.push(UnknownKey { name, at: name_at })?),
        }
    }

    /// Adds a key of the format, unless it is there.
    fn add_known(&mut self, known: KnownKey) -> Result<(), AllocError> {
        if self.find(known.key).is_none() {
            self.known.push(known)?;
        }
        Ok(())
    }

    /// A key of the format, if the table has it.
    pub(crate) fn find(&self, key: Key) -> Option<KnownKey> {
        for known in &self.known {
            if known.key == key {
                return Some(*known);
            }
        }
        None
    }

    /// Where a key with this name stands first, if the table has it.
    pub(crate) fn first_of(&self, table: TableName, name: &str) -> Option<Span> {
        if let Some(key) = Key::named(table, name) {
            return Some(self.find(key)?.name_at);
        }
        for unknown in &self.unknown {
            if unknown.name.as_str() == name {
                return Some(unknown.at);
            }
        }
        None
    }

    /// Sorts the unknown keys, and keeps the first place of each.
    pub(crate) fn sort(&mut self) {
        self.unknown.sort_unstable();
        self.unknown
            .dedup_by(|later, first| later.name == first.name);
    }
}
