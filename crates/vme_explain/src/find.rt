//! The texts that a line asks for.
use crate::entry::Text;
use crate::tables::{FAULTS, FILES, LINES, REPLIES, REQUESTS, SIGNALS, TRANSFERS, WARNINGS};
use std::alloc::{AllocError, Global};

/// What a line asks for.
#[derive(Debug, Drop)]
pub enum Asked {
    /// The texts, in the order of their codes in the line.
    Texts(Vec<Text>),
    /// A word that no text is about.
    Unknown(String),
}

/// Returns six tables: the texts of requests, lines, files, faults, replies and warnings. Those of the
/// rules of traces are in [`rules`].
pub fn all() -> [&'static [Text]; 6] {
    [
        REQUESTS.as_slice(),
        LINES.as_slice(),
        FILES.as_slice(),
        FAULTS.as_slice(),
        REPLIES.as_slice(),
        WARNINGS.as_slice(),
    ]
}

/// Returns the tables of the rules of traces: of lines and their changes, and of transfers and answers.
pub fn rules() -> [&'static [Text]; 2] {
    [SIGNALS.as_slice(), TRANSFERS.as_slice()]
}

/// Returns the texts that a line asks for. The line has codes in any case, or is a reply, a refusal
/// or a fault as `vme` or `bendrika` printed it, or the first or the last line of a finding as
/// `bendrika check` or `bendrika judge` printed it.
///
/// # Errors
///
/// An allocation failed.
pub fn texts_in(alloc: Global, line: &str) -> Result<Asked, AllocError> {
    let mut texts = Vec::new(alloc);
    let line = match line.rsplit_once(": vme answers ") {
        Some((_, refusal)) => refusal,
        None => line,
    };
    if let Some(text) = text_of(line).or(fault_in(line)).or(finding_in(line)) {
        texts.push(text)?;
        return Ok(Asked::Texts(texts));
    }
    for word in line.split(' ') {
        if is_plain_part(word) {
            continue;
        }
        let Some(text) = text_of(word) else {
            return Ok(Asked::Unknown(String::from_str(alloc, word)?));
        };
        add(&mut texts, text)?;
        if has_data(&text) {
            break;
        }
    }
    if texts.is_empty() {
        return Ok(Asked::Unknown(String::from_str(alloc, line)?));
    }
    Ok(Asked::Texts(texts))
}

/// Returns the text of a code in any case, if it has one.
pub fn text_of(code: &str) -> Option<Text> {
    for table in all() {
        if let Some(text) = text_in(table, code) {
            return Some(text);
        }
    }
    rule_of(code)
}

/// The text of a rule of traces in any case, if the code is that of one.
fn rule_of(code: &str) -> Option<Text> {
    for table in rules() {
        if let Some(text) = text_in(table, code) {
            return Some(text);
        }
    }
    None
}

/// The text of a code, if this table has it.
fn text_in(table: &[Text], code: &str) -> Option<Text> {
    for text in table {
        if is_named(text, code) {
            return Some(*text);
        }
    }
    None
}

/// Whether a text is that of a code.
fn is_named(text: &Text, code: &str) -> bool {
    text.code.eq_ignore_ascii_case(code) || is_among(text.others, code)
}

/// Whether a code is among names, in any case.
fn is_among(names: &[&str], code: &str) -> bool {
    for name in names {
        if name.eq_ignore_ascii_case(code) {
            return true;
        }
    }
    false
}

/// The text of a fault of the program, if the line is one that `vme` or `bendrika` printed.
fn fault_in(line: &str) -> Option<Text> {
    let printed = line
        .strip_prefix("vme: ")
        .or(line.strip_prefix("bendrika: "))?;
    if printed.starts_with("usage") {
        return text_of("usage");
    }
    match printed.rsplit_once(": ") {
        Some((_, fault)) => text_titled(fault),
        None => text_titled(printed),
    }
}

/// The text of a fault of the program, if a title is that of one.
fn text_titled(title: &str) -> Option<Text> {
    for text in &FAULTS {
        if text.title.eq_ignore_ascii_case(title) {
            return Some(*text);
        }
    }
    None
}

/// The text of the code in brackets at the end of a line, as `bendrika check` and `bendrika judge` print
/// a finding.
fn finding_in(line: &str) -> Option<Text> {
    let (_, code) = line.strip_suffix("]")?.rsplit_once("[")?;
    text_of(code)
}

/// Whether a word of a printed line has no text of its own: a number, or a word that names one.
fn is_plain_part(word: &str) -> bool {
    word.is_empty()
        || word.starts_with(|c: char| c.is_ascii_digit())
        || word == "vme:"
        || word == "bendrika:"
        || word == "slot"
        || word == "line"
}

/// Whether bytes may follow a reply.
fn has_data(text: &Text) -> bool {
    text.code == "done" || text.code == "berr"
}

/// Adds a text that is not in the list yet. A text of `refused` at the end is replaced by that of
/// the refusal.
fn add(texts: &mut Vec<Text>, text: Text) -> Result<(), AllocError> {
    if let Some(last) = texts.last()
        && last.code == "refused"
    {
        let _ = texts.pop();
    }
    for known in texts.iter() {
        if known.code == text.code {
            return Ok(());
        }
    }
    texts.push(text)?;
    Ok(())
}
