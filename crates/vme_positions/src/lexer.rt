//! Steps over the keys and values of a document, with the lexer of `toml`.
ghost use Rattle.std.specs.Prelude.{◌<◌, ◌≤◌, length, IfOk};

use crate::span::Span;
use std::alloc::Global;
use toml_parser::bytes::is_bare;
use toml_parser::text::{first, skip, skip_blank, skip_ws};
use toml_parser::{ErrorKind, ParseError, dotted_key, quoted, starts_string, unquoted};

/// A key and its value.
#[derive(Drop)]
pub(crate) struct Pair<'a> {
    /// The first part of the key.
    pub(crate) name: String,
    /// Whether the key has more parts.
    pub(crate) is_dotted: bool,
    /// The first part of the key in the text.
    pub(crate) name_at: Span,
    /// The value in the text. If the key has more parts, the first part of the key.
    pub(crate) value_at: Span,
    /// The text from the value on.
    pub(crate) value: &'a str,
}

/// An element of an array.
#[derive(Clone, Copy)]
pub(crate) struct Element<'a> {
    /// The text from the element on.
    pub(crate) at: &'a str,
    /// The text after the element.
    pub(crate) after: &'a str,
}

/// Reads a key and its value at the start of `s`, a suffix of `text`. Returns the pair and the text
/// after it.
pub(crate) fn read_pair<'a>(
    alloc: Global,
    text: &str,
    s: &'a str,
) -> Result<(Pair<'a>, &'a str), ParseError>
    ensures { IfOk result (λ read. length read.1.now < length s.now) }
{
    let after_name = first_part_end(alloc, s)?;
    let name_at = Span::between(text, s, after_name);
    let (key, rest) = dotted_key(alloc, s)?;
    if first(rest) != b'=' {
        return Err(ParseError::at(ErrorKind::MissingEquals, rest));
    }
    let value = skip_ws(skip(rest, 1));
    let after = value_end(alloc, value)?;
    let is_dotted = !key.path.is_empty();
    let value_at = if is_dotted {
        name_at
    } else {
        Span::between(text, value, after)
    };
    let name = first_part(key.path, key.last);
    let pair = Pair {
        name,
        is_dotted,
        name_at,
        value_at,
        value,
    };
    Ok((pair, after))
}

/// The first part of a key with the parts `path` before its last one.
fn first_part(path: Vec<String>, last: String) -> String {
    match path.into_iter().next() {
        Some(part) => part,
        None => last,
    }
}

/// The text after the first part of a key.
fn first_part_end(alloc: Global, s: &str) -> Result<&str, ParseError> {
    if starts_string(s) {
        let (_, rest) = quoted(alloc, s)?;
        return Ok(rest);
    }
    let len = s.bytes().take_while(|byte| is_bare(*byte)).count();
    s.get(len..).ok_or(ParseError::at(ErrorKind::Key, s))
}

/// The text after a value.
pub(crate) fn value_end(alloc: Global, s: &str) -> Result<&str, ParseError>
    ensures { IfOk result (λ rest. length rest.now < length s.now) }
{
    if starts_string(s) {
        let (_, rest) = quoted(alloc, s)?;
        return Ok(rest);
    }
    if first(s) == b'[' || first(s) == b'{' {
        return nested_end(alloc, skip(s, 1));
    }
    let (_, rest) = unquoted(alloc, s)?;
    Ok(rest)
}

/// The text after the bracket that closes an array or an inline table. `s` is the text after the
/// bracket that opens it.
fn nested_end(alloc: Global, s: &str) -> Result<&str, ParseError>
    ensures { IfOk result (λ rest. length rest.now ≤ length s.now) }
{
    let mut depth = 0usize;
    let mut rest = s;
    'tokens: loop {
        let at = skip_blank(rest, true);
        match first(at) {
            b']' | b'}' if depth == 0 => return Ok(skip(at, 1)),
            b']' | b'}' => depth -= 1,
            b'[' | b'{' => depth = depth.saturating_add(1),
            _ => {}
        }
        rest = token_end(alloc, at)?;
    }
}

/// The text after the first token of `s`, a part of an array or an inline table: a string, or one
/// other ASCII byte.
fn token_end(alloc: Global, s: &str) -> Result<&str, ParseError>
    ensures { IfOk result (λ rest. length rest.now < length s.now) }
{
    if starts_string(s) {
        let (_, rest) = quoted(alloc, s)?;
        return Ok(rest);
    }
    let byte = first(s);
    if 0 < byte && byte < 128 {
        Ok(skip(s, 1))
    } else {
        Err(ParseError::at(ErrorKind::Value, s))
    }
}

/// The text after a comma, or at the bracket that closes an array or an inline table.
pub(crate) fn after_comma(s: &str) -> &str
    ensures { length result.now ≤ length s.now }
{
    let rest = skip_blank(s, true);
    if first(rest) == b',' {
        skip(rest, 1)
    } else {
        rest
    }
}

/// The elements of an array, or none if the value is no array. `s` is the text from the value on.
pub(crate) fn elements(alloc: Global, s: &str) -> Result<Vec<Element<'_>>, ParseError> {
    let mut found = Vec::new(alloc);
    if first(s) != b'[' {
        return Ok(found);
    }
    let mut rest = skip(s, 1);
    'elements: loop {
        let at = skip_blank(rest, true);
        if first(at) == b']' {
            return Ok(found);
        }
        let after = value_end(alloc, at)?;
        found.push(Element { at, after })?;
        rest = after_comma(after);
    }
}
