//! A text for a terminal.
use crate::entry::{Example, Input, Text};
use std::alloc::AllocError;
use std::fmt::Write;

/// The greatest number of columns of a line.
const WIDTH: usize = 100;

/// Appends a text: code and title, the cause, the example, what to do, and the sections.
///
/// # Errors
///
/// An allocation failed.
pub(crate) fn write_plain(text: &Text, to: &mut String) -> Result<(), AllocError> {
    let code = text.code;
    let title = text.title;
    write!(to, "{code}: {title}\n\n")?;
    wrap(text.cause, to)?;
    if let Some(example) = &text.example {
        to.push('\n')?;
        write_example(example, to)?;
    }
    if !text.help.is_empty() {
        to.push('\n')?;
        wrap(text.help, to)?;
    }
    if !text.sections.is_empty() {
        let sections = text.sections;
        write!(to, "IEEE 1014-1987, {sections}\n")?;
    }
    Ok(())
}

/// Appends the code and the title of a text, as one line.
///
/// # Errors
///
/// An allocation failed.
pub(crate) fn write_title(text: &Text, to: &mut String) -> Result<(), AllocError> {
    let code = text.code;
    let title = text.title;
    write!(to, "{code:<15}{title}\n")
}

/// Appends an example: its input, in brief if it is a dump, and what the answer shows.
fn write_example(example: &Example, to: &mut String) -> Result<(), AllocError> {
    if let Input::Dump { .. } = example.input {
        indent(example.brief, to)?;
        return indent(example.shows, to);
    }
    for (text, times) in example.parts() {
        indent(text, to)?;
        if 1 < times {
            write!(to, "    (the line or table above {times} times)\n")?;
        }
    }
    indent(example.shows, to)
}

/// Appends lines. Each line that is not empty is indented by four spaces.
fn indent(text: &str, to: &mut String) -> Result<(), AllocError> {
    for line in text.lines() {
        if !line.is_empty() {
            to.push_str("    ")?;
            to.push_str(line)?;
        }
        to.push('\n')?;
    }
    Ok(())
}

/// Appends a paragraph in lines of at most `WIDTH` bytes. A longer word has a line of its own.
fn wrap(text: &str, to: &mut String) -> Result<(), AllocError> {
    let mut column = 0usize;
    for word in text.split(' ') {
        let end = column.saturating_add(word.len());
        if column == 0 {
            column = word.len();
        } else if end < WIDTH {
            to.push(' ')?;
            column = end.saturating_add(1);
        } else {
            to.push('\n')?;
            column = word.len();
        }
        to.push_str(word)?;
    }
    to.push('\n')
}
