//! A finding as a JSON object.
use crate::report::plain::{script_line, severity_name};
use crate::report::{Context, Input, Located};
use crate::texts::{note_offset, write_help, write_message, write_note};
use std::alloc::{AllocError, Global};
use std::fmt::Write;
use vme_explain::write_escaped;
use vme_positions::{Cursor, Position};

/// Appends a finding as one line. An absent part has no key.
///
/// # Errors
///
/// An allocation failed.
pub(crate) fn write_json(
    alloc: Global,
    name: &str,
    input: &Input<'_>,
    cursor: &mut Cursor<'_>,
    one: &Located,
    to: &mut String,
) -> Result<(), AllocError> {
    let cause = one.finding.cause;
    let context = Context::of(alloc, input, one);
    to.push_str("{\"file\":\"")?;
    write_escaped(name, to)?;
    to.push('"')?;
    write_place(cursor, one, to)?;
    let severity = severity_name(one);
    let code = cause.code();
    write!(to, ",\"severity\":\"{severity}\",\"code\":\"{code}\"")?;
    let mut text = String::new(alloc);
    write_message(cause, &context, &mut text)?;
    write_field("message", text.as_str(), to)?;
    if let Some((slot, line)) = script_line(cause) {
        if let Some(slot) = slot {
            write!(to, ",\"slot\":{slot}")?;
        }
        write!(to, ",\"script_line\":{line}")?;
    }
    text.clear();
    write_help(cause, &context, &mut text)?;
    if !text.is_empty() {
        write_field("help", text.as_str(), to)?;
    }
    write_notes(alloc, input, one, to)?;
    to.push_str(",\"located\":")?;
    to.push_str(if one.is_located() {
        "true}\n"
    } else {
        "false}\n"
    })
}

/// Appends the keys of a place: its first line and column, those of the character after its last,
/// and both as offsets.
fn write_place(cursor: &mut Cursor<'_>, one: &Located, to: &mut String) -> Result<(), AllocError> {
    let Position { line, column } = cursor.move_to(one.span.from);
    let mut end = *cursor;
    let last = end.move_to(one.span.to);
    let end_line = last.line;
    let end_column = last.column;
    let offset = one.span.from;
    let end_offset = one.span.to;
    write!(to, ",\"line\":{line},\"column\":{column}")?;
    write!(to, ",\"end_line\":{end_line},\"end_column\":{end_column}")?;
    write!(to, ",\"offset\":{offset},\"end_offset\":{end_offset}")
}

/// Appends the list of notes, if there is one.
fn write_notes(
    alloc: Global,
    input: &Input<'_>,
    one: &Located,
    to: &mut String,
) -> Result<(), AllocError> {
    let Some(offset) = note_offset(input, one) else {
        return Ok(());
    };
    let Position { line, column } = Position::of(input.text, offset);
    write!(to, ",\"notes\":[{{\"line\":{line},\"column\":{column}")?;
    let mut note = String::new(alloc);
    write_note(one.finding.cause, &mut note)?;
    write_field("message", note.as_str(), to)?;
    to.push_str("}]")
}

/// Appends a further key and its text.
fn write_field(key: &str, text: &str, to: &mut String) -> Result<(), AllocError> {
    write!(to, ",\"{key}\":\"")?;
    write_escaped(text, to)?;
    to.push('"')
}
