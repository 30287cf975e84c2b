//! A text as a JSON object.
ghost use Rattle.std.specs.Prelude.{◌≡◌, ◌++◌, string_bytes, OnOk};
ghost use Rattle.vme_explain.specs.Escapes.{control_escape, escaped, escaped_char};

use crate::dump::BOARDS;
use crate::entry::{Example, Input, Text};
use std::alloc::AllocError;
use std::fmt::Write;

/// Appends a text as one line: a JSON object of strings and one list. An absent part has no key.
///
/// # Errors
///
/// An allocation failed.
pub(crate) fn write_json(text: &Text, to: &mut String) -> Result<(), AllocError> {
    to.push_str("{\"code\":")?;
    quoted(text.code, to)?;
    to.push_str(",\"others\":[")?;
    let mut separator = "";
    for other in text.others {
        to.push_str(separator)?;
        quoted(other, to)?;
        separator = ",";
    }
    to.push(']')?;
    field("title", text.title, to)?;
    field("cause", text.cause, to)?;
    field("sections", text.sections, to)?;
    field("help", text.help, to)?;
    if let Some(example) = &text.example {
        write_example(example, to)?;
    }
    to.push_str("}\n")
}

/// Appends the keys of an example: the command, of `judge` its boards and words, the input, and what
/// the answer shows.
fn write_example(example: &Example, to: &mut String) -> Result<(), AllocError> {
    field("form", example.form(), to)?;
    match example.input {
        Input::Line | Input::File(_) | Input::LongFile { .. } => {}
        Input::Log(_) => field("boards", BOARDS, to)?,
        Input::Dump { words, .. } => {
            field("boards", BOARDS, to)?;
            field("words", words, to)?;
        }
    }
    to.push_str(",\"input\":\"")?;
    for (text, times) in example.parts() {
        for _ in 0..times {
            write_escaped(text, to)?;
        }
    }
    to.push('"')?;
    field("shows", example.shows, to)
}

/// Appends a comma, a key and its text. Appends nothing if the text is empty.
fn field(key: &str, text: &str, to: &mut String) -> Result<(), AllocError> {
    if text.is_empty() {
        return Ok(());
    }
    to.push(',')?;
    quoted(key, to)?;
    to.push(':')?;
    quoted(text, to)
}

/// Appends a JSON string.
fn quoted(text: &str, to: &mut String) -> Result<(), AllocError> {
    to.push('"')?;
    write_escaped(text, to)?;
    to.push('"')
}

/// Appends the characters of a JSON string, without its quotes. Control characters and the two
/// characters that a string cannot contain are escaped.
///
/// # Errors
///
/// An allocation failed.
pub fn write_escaped(text: &str, to: &mut String) -> Result<(), AllocError>
    ensures { OnOk result (string_bytes to.new ≡ string_bytes to.old ++ escaped text.now) }
{
    for c in text.chars() {
        write_char(c, to)?;
    }
    Ok(())
}

/// Appends a character of a JSON string.
fn write_char(c: char, to: &mut String) -> Result<(), AllocError>
    ensures { OnOk result (string_bytes to.new ≡ string_bytes to.old ++ escaped_char c) }
{
    match c {
        '"' => to.push_str("\\\""),
        '\\' => to.push_str("\\\\"),
        '\n' => to.push_str("\\n"),
        '\0'..='\x1f' => write_control(u32::from(c), to),
        _ => to.push(c),
    }
}

/// Appends the escape of a control character.
fn write_control(code: u32, to: &mut String) -> Result<(), AllocError>
    ensures { OnOk result (string_bytes to.new ≡ string_bytes to.old ++ control_escape code) }
{
    write!(to, "\\u{code:04x}")
}
