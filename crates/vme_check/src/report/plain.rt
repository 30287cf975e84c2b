//! A finding as text: a line with place, severity, message and code, the line of the file with
//! carets, and the help.
use crate::report::excerpt::write_excerpt;
use crate::report::{Context, Input, Located};
use crate::texts::{note_offset, write_help, write_message, write_note};
use std::alloc::{AllocError, Global};
use std::fmt::Write;
use vme_faults::Cause;
use vme_positions::{Cursor, Place, Position};

/// Appends a finding as text.
///
/// # Errors
///
/// An allocation failed.
pub(crate) fn write_plain(
    alloc: Global,
    name: &str,
    input: &Input<'_>,
    cursor: &mut Cursor<'_>,
    one: &Located,
    to: &mut String,
) -> Result<(), AllocError> {
    let cause = one.finding.cause;
    let context = Context::of(alloc, input, one);
    let position = cursor.move_to(one.span.from);
    let Position { line, column } = position;
    let severity = severity_name(one);
    write!(to, "{name}:{line}:{column}: {severity}: ")?;
    write_message(cause, &context, to)?;
    let code = cause.code();
    write!(to, " [{code}]\n")?;
    write_excerpt(alloc, input.text, one.span, line, to)?;
    write_script_line(one, to)?;
    write_help_line(cause, &context, to)?;
    write_note_line(name, input, one, to)
}

/// The name of a finding's severity.
pub(crate) fn severity_name(one: &Located) -> &'static str {
    if one.is_error() { "error" } else { "warning" }
}

/// The slot and the number of the script line that a finding is about. The slot is absent if that
/// of the board is refused.
pub(crate) fn script_line(cause: Cause) -> Option<(Option<u16>, u16)> {
    match cause {
        Cause::Script { slot, line, .. } => Some((slot, line)),
        Cause::Line { slot, line, .. } => Some((Some(slot), line)),
        _ => None,
    }
}

fn write_script_line(one: &Located, to: &mut String) -> Result<(), AllocError> {
    match script_line(one.finding.cause) {
        Some((Some(slot), line)) => write!(to, "      = slot {slot}, script line {line}\n"),
        Some((None, line)) => {
            let number = match one.finding.place {
                Place::Word { board, .. } => board.saturating_add(1),
                _ => 0,
            };
            write!(to, "      = board {number}, script line {line}\n")
        }
        None => Ok(()),
    }
}

fn write_help_line(cause: Cause, context: &Context<'_>, to: &mut String) -> Result<(), AllocError> {
    let mut help = String::new(context.alloc);
    write_help(cause, context, &mut help)?;
    if help.is_empty() {
        return Ok(());
    }
    to.push_str("      = help: ")?;
    to.push_str(help.as_str())?;
    to.push('\n')
}

fn write_note_line(
    name: &str,
    input: &Input<'_>,
    one: &Located,
    to: &mut String,
) -> Result<(), AllocError> {
    let Some(offset) = note_offset(input, one) else {
        return Ok(());
    };
    let Position { line, column } = Position::of(input.text, offset);
    write!(to, "{name}:{line}:{column}: note: ")?;
    write_note(one.finding.cause, to)?;
    to.push('\n')
}
