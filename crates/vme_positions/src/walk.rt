//! The walk over the lines of a document.
ghost use Rattle.std.specs.Prelude.{◌<◌, length, IfOk};

use crate::lexer::{Element, Pair, elements, read_pair};
use crate::outline::{Outline, ScheduledPair};
use crate::parts::Parts;
use crate::place::{Key, TableName};
use crate::span::Span;
use std::alloc::{AllocError, Global};
use toml_parser::text::{byte_at, first, skip, skip_blank, skip_ws};
use toml_parser::{ErrorKind, ParseError, dotted_key};

/// The table whose keys the next lines have; `None` for a table that the format does not have.
type Section = Option<TableName>;

/// Adds the parts of a document to `outline`.
pub(crate) fn walk(alloc: Global, outline: &mut Outline, text: &str) -> Result<(), ParseError> {
    let mut section = Some(TableName::File);
    let mut rest = text.strip_prefix('\u{feff}').unwrap_or(text);
    'lines: loop {
        let at = skip_blank(rest, true);
        if at.is_empty() {
            return Ok(());
        }
        if first(at) == b'[' {
            let (next, after) = header(alloc, outline, text, at)?;
            section = next;
            rest = after;
        } else {
            let (pair, after) = read_pair(alloc, text, at)?;
            add_pair(alloc, outline, text, section, pair)?;
            rest = after;
        }
    }
}

/// Reads a header and adds its parts. Returns the section that it begins, and the text after it.
fn header<'a>(
    alloc: Global,
    outline: &mut Outline,
    text: &str,
    s: &'a str,
) -> Result<(Section, &'a str), ParseError>
    ensures { IfOk result (λ read. length read.1.now < length s.now) }
{
    let is_array = first(s) == b'[' && byte_at(s, 1) == b'[';
    let (key, rest) = if is_array {
        dotted_key(alloc, skip_ws(skip(s, 2)))?
    } else if first(s) == b'[' {
        dotted_key(alloc, skip_ws(skip(s, 1)))?
    } else {
        return Err(ParseError::at(ErrorKind::Content, s));
    };
    let after = closing_bracket(rest)?;
    let after = if is_array {
        closing_bracket(after)?
    } else {
        after
    };
    let at = Span::between(text, s, after);
    if !key.path.is_empty() {
        add_subtable(outline, key.path, key.last, at)?;
        return Ok((None, after));
    }
    let section = add_table(alloc, outline, key.last, is_array, at)?;
    Ok((section, after))
}

/// The text after a `]`.
fn closing_bracket(s: &str) -> Result<&str, ParseError>
    ensures { IfOk result (λ rest. length rest.now < length s.now) }
{
    if first(s) == b']' {
        Ok(skip(s, 1))
    } else {
        Err(ParseError::at(ErrorKind::UnclosedTable, s))
    }
}

/// Adds the parts of a header whose key has one part.
fn add_table(
    alloc: Global,
    outline: &mut Outline,
    name: String,
    is_array: bool,
    at: Span,
) -> Result<Section, AllocError> {
    let key = Key::named(TableName::File, name.as_str());
    outline.file.add_key(TableName::File, name, at, at)?;
    match key {
        Some(Key::Board) if is_array => {
            outline.boards.push(Parts::new(alloc, at))?;
            Ok(Some(TableName::Board))
        }
        Some(Key::Mailbox) if is_array => {
            outline.mailboxes.push(Parts::new(alloc, at))?;
            Ok(Some(TableName::Mailbox))
        }
        Some(Key::Schedule) if is_array => {
            outline.schedule.push(ScheduledPair::whole(at))?;
            Ok(None)
        }
        _ => Ok(None),
    }
}

/// Adds the parts of a header whose key has more than one part: a key of the last board or mailbox,
/// or of the file.
fn add_subtable(
    outline: &mut Outline,
    path: Vec<String>,
    last: String,
    at: Span,
) -> Result<(), AllocError> {
    let mut path = path.into_iter();
    let Some(name) = path.next() else {
        return Ok(());
    };
    let below = path.next().unwrap_or(last);
    match Key::named(TableName::File, name.as_str()) {
        Some(Key::Board) => {
            if let Some(board) = outline.boards.last_mut() {
                return board.add_key(TableName::Board, below, at, at);
            }
        }
        Some(Key::Mailbox) => {
            if let Some(mailbox) = outline.mailboxes.last_mut() {
                return mailbox.add_key(TableName::Mailbox, below, at, at);
            }
        }
        _ => {}
    }
    outline.file.add_key(TableName::File, name, at, at)
}

/// Adds the parts of a pair of a section.
fn add_pair(
    alloc: Global,
    outline: &mut Outline,
    text: &str,
    section: Section,
    pair: Pair<'_>,
) -> Result<(), ParseError> {
    match section {
        Some(TableName::File) => add_file_pair(alloc, outline, text, pair)?,
        Some(TableName::Board) => {
            if let Some(board) = outline.boards.last_mut() {
                board.add_pair(alloc, text, TableName::Board, pair)?;
            }
        }
        Some(TableName::Mailbox) => {
            if let Some(mailbox) = outline.mailboxes.last_mut() {
                mailbox.add_pair(alloc, text, TableName::Mailbox, pair)?;
            }
        }
        None => {}
    }
    Ok(())
}

/// Adds the parts of a pair at the top of the file.
fn add_file_pair(
    alloc: Global,
    outline: &mut Outline,
    text: &str,
    pair: Pair<'_>,
) -> Result<(), ParseError> {
    if !pair.is_dotted {
        match Key::named(TableName::File, pair.name.as_str()) {
            Some(Key::Schedule) => outline.schedule = schedule(alloc, text, pair.value)?,
            Some(Key::Board) => {
                outline.boards = tables(alloc, text, TableName::Board, pair.value)?;
            }
            Some(Key::Mailbox) => {
                outline.mailboxes = tables(alloc, text, TableName::Mailbox, pair.value)?;
            }
            _ => {}
        }
    }
    outline.file.add_pair(alloc, text, TableName::File, pair)?;
    Ok(())
}

/// The parts of the elements of an array of tables.
fn tables(
    alloc: Global,
    text: &str,
    table: TableName,
    value: &str,
) -> Result<Vec<Parts>, ParseError> {
    let mut found = Vec::new(alloc);
    for element in &elements(alloc, value)? {
        let whole = span_of(text, element);
        found.push(Parts::of_element(alloc, text, table, element.at, whole)?)?;
    }
    Ok(found)
}

/// The parts of the elements of a schedule.
fn schedule(alloc: Global, text: &str, value: &str) -> Result<Vec<ScheduledPair>, ParseError> {
    let mut found = Vec::new(alloc);
    for element in &elements(alloc, value)? {
        let mut scheduled = ScheduledPair::whole(span_of(text, element));
        if let [slot, turns] = elements(alloc, element.at)?.as_slice() {
            scheduled.slot = span_of(text, slot);
            scheduled.turns = span_of(text, turns);
        }
        found.push(scheduled)?;
    }
    Ok(found)
}

/// The bytes of an element in `text`.
fn span_of(text: &str, element: &Element<'_>) -> Span {
    Span::between(text, element.at, element.after)
}
