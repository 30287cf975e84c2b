//! What `bendrika explain` answers.
use crate::entry::Text;
use crate::find::{Asked, all, rules, texts_in};
use crate::json::write_json;
use crate::markdown::{write_head, write_row};
use crate::plain::{write_plain, write_title};
use std::alloc::{AllocError, Global};

/// The answer to a line.
#[derive(Debug, Drop)]
pub enum Answer {
    /// The text to print.
    Text(String),
    /// A word that no text is about.
    Unknown(String),
}

/// Returns the answer to a line: the texts that it asks for, or all titles if it is empty. With
/// `json` each text is one line, a JSON object.
///
/// # Errors
///
/// An allocation failed.
pub fn explain(alloc: Global, line: &str, json: bool) -> Result<Answer, AllocError> {
    let mut to = String::new(alloc);
    if line.is_empty() {
        write_tables(if json { Form::Json } else { Form::Title }, &mut to)?;
        return Ok(Answer::Text(to));
    }
    let texts = match texts_in(alloc, line)? {
        Asked::Texts(texts) => texts,
        Asked::Unknown(word) => return Ok(Answer::Unknown(word)),
    };
    for text in texts.iter() {
        if json {
            write_json(text, &mut to)?;
            continue;
        }
        if !to.is_empty() {
            to.push('\n')?;
        }
        write_plain(text, &mut to)?;
    }
    Ok(Answer::Text(to))
}

/// Returns all texts: a table in Markdown, or with `json` one line for each text, a JSON object.
///
/// # Errors
///
/// An allocation failed.
pub fn explain_all(alloc: Global, json: bool) -> Result<String, AllocError> {
    let mut to = String::new(alloc);
    if json {
        write_tables(Form::Json, &mut to)?;
    } else {
        write_head(&mut to)?;
        write_tables(Form::Row, &mut to)?;
    }
    Ok(to)
}

/// How a text is written.
#[derive(Clone, Copy)]
enum Form {
    Title,
    Row,
    Json,
}

/// Appends the texts of all tables.
fn write_tables(form: Form, to: &mut String) -> Result<(), AllocError> {
    for table in all() {
        write_table(table, form, to)?;
    }
    for table in rules() {
        write_table(table, form, to)?;
    }
    Ok(())
}

/// Appends the texts of a table.
fn write_table(table: &[Text], form: Form, to: &mut String) -> Result<(), AllocError> {
    for text in table {
        match form {
            Form::Title => write_title(text, to)?,
            Form::Row => write_row(text, to)?,
            Form::Json => write_json(text, to)?,
        }
    }
    Ok(())
}
