//! Where a key stands that a later line repeats.
ghost use Rattle.std.specs.Prelude.{◌<◌, IfSome};

use crate::outline::Outline;
use crate::parts::Parts;
use crate::place::TableName;
use crate::span::Span;

impl Outline {
    /// Returns the name or the header where a key of `text`, the text of the outline, stands first.
    /// `again` are the bytes that repeat it: a header, or the start of a pair. Returns `None` if
    /// the first place was not found; so it is for keys of inline tables and for dotted keys.
    pub fn first_of_key(&self, text: &[u8], again: Span) -> Option<Span>
        ensures before { IfSome result (λ first. first.from < again.from) }
    {
        let bytes = again.bytes(text);
        let first = match bytes {
            [b'[', ..] => self.file.first_of(TableName::File, header_name(bytes)?)?,
            _ => {
                let (table, parts) = self.table_at(text, again.from)?;
                parts.first_of(table, pair_name(bytes)?)?
            }
        };
        if first.from < again.from {
            Some(first)
        } else {
            None
        }
    }

    /// The table that the line at `at` belongs to: that of the last header before it, if the format
    /// has such a table.
    fn table_at(&self, text: &[u8], at: usize) -> Option<(TableName, &Parts)> {
        let board = last_before(self.boards.as_slice(), at);
        let mailbox = last_before(self.mailboxes.as_slice(), at);
        let (table, parts) = match (board, mailbox) {
            (Some(board), Some(mailbox)) if board.header.from < mailbox.header.from => {
                (TableName::Mailbox, mailbox)
            }
            (Some(board), _) => (TableName::Board, board),
            (None, Some(mailbox)) => (TableName::Mailbox, mailbox),
            (None, None) => (TableName::File, &self.file),
        };
        let between = text.get(parts.header.to..at)?;
        for line in between.split(|byte| *byte == b'\n') {
            if line.trim_ascii_start().first() == Some(&b'[') {
                return None;
            }
        }
        Some((table, parts))
    }
}

/// The last table whose header begins before `at`.
fn last_before(tables: &[Parts], at: usize) -> Option<&Parts> {
    let mut last = None;
    for parts in tables {
        if parts.header.from < at {
            last = Some(parts);
        }
    }
    last
}

/// The name in a header with one or two brackets.
fn header_name(header: &[u8]) -> Option<&str> {
    let inner = header.strip_prefix(b"[")?;
    let inner = inner.strip_prefix(b"[").unwrap_or(inner);
    let end = inner.iter().position(|byte| *byte == b']')?;
    bare_name(inner.get(..end)?)
}

/// The name before the `=` of a pair.
fn pair_name(pair: &[u8]) -> Option<&str> {
    let end = pair.iter().position(|byte| *byte == b'=')?;
    bare_name(pair.get(..end)?)
}

/// A name without the blanks and the quotes around it.
fn bare_name(name: &[u8]) -> Option<&str> {
    let name = std::str::from_utf8(name.trim_ascii()).ok()?;
    Some(name.trim_matches('"').trim_matches('\''))
}
