//! A configuration file with another schedule.
use std::alloc::{AllocError, Global};
use vme_positions::{Key, Outline, Place, Span, TableName};

/// The bytes with which a text in UTF-8 may begin, before its first character.
const MARK: &[u8] = b"\xef\xbb\xbf";

/// A schedule as a file states it, with the tries that it needs, if they are not those of the file.
#[derive(Clone, Copy, Debug, PartialEq, Eq)]
pub(crate) struct Turns<'a> {
    pub(crate) schedule: &'a str,
    pub(crate) tries: Option<&'a str>,
}

/// Bytes of a file with the text that comes in their place. Edits are in the order of their bytes.
#[derive(PartialEq, Eq, PartialOrd, Ord, Drop)]
struct Edit {
    at: Span,
    text: String,
}

/// Returns a configuration file with other turns in place of its schedule, its rounds and, if they come
/// with tries, its tries. All other bytes are those of the file.
pub(crate) fn with_turns(
    alloc: Global,
    file: &[u8],
    turns: Turns<'_>,
) -> Result<Vec<u8>, AllocError> {
    let mut edits = edits_of(alloc, file, turns)?;
    edits.sort_unstable();
    let mut text = Vec::new(alloc);
    let mut from = 0;
    for edit in &edits {
        let kept = Span {
            from,
            to: edit.at.from,
        };
        text.extend_from_slice(kept.bytes(file))?;
        text.extend_from_slice(edit.text.as_bytes())?;
        from = edit.at.to;
    }
    let rest = Span {
        from,
        to: file.len(),
    };
    text.extend_from_slice(rest.bytes(file))?;
    Ok(text)
}

/// Returns the edits that state other turns.
fn edits_of(alloc: Global, file: &[u8], turns: Turns<'_>) -> Result<Vec<Edit>, AllocError> {
    let outline = Outline::of(alloc, file)?;
    let schedule = pair_at(&outline, file, Key::Schedule);
    let rounds = pair_at(&outline, file, Key::Rounds);
    let mut edits = Vec::new(alloc);
    let stated = format!(in alloc; "schedule = {}", turns.schedule)?;
    edits.push(edit_of(alloc, file, schedule.or(rounds), stated.as_str())?)?;
    if schedule.is_some() && rounds.is_some() {
        edits.push(edit_of(alloc, file, rounds, "")?)?;
    }
    if let Some(tries) = turns.tries {
        let stated = format!(in alloc; "tries = {tries}")?;
        let at = pair_at(&outline, file, Key::Tries);
        edits.push(edit_of(alloc, file, at, stated.as_str())?)?;
    }
    Ok(edits)
}

/// Returns the edit that puts a text in place of some bytes, or on a line of its own at the start.
fn edit_of(alloc: Global, file: &[u8], at: Option<Span>, text: &str) -> Result<Edit, AllocError> {
    match at {
        Some(at) => Ok(Edit {
            at,
            text: format!(in alloc; "{text}")?,
        }),
        None => {
            let start = if file.starts_with(MARK) {
                MARK.len()
            } else {
                0
            };
            Ok(Edit {
                at: Span {
                    from: start,
                    to: start,
                },
                text: format!(in alloc; "{text}\n")?,
            })
        }
    }
}

/// Returns the bytes of a key at the top of a file, with its value, if the file has it.
fn pair_at(outline: &Outline, file: &[u8], key: Key) -> Option<Span> {
    let table = TableName::File;
    let name = outline.range(
        file,
        &Place::Key {
            table,
            index: 0,
            key,
        },
    );
    let value = outline.range(
        file,
        &Place::Value {
            table,
            index: 0,
            key,
        },
    );
    (name.to > 0).then_some(Span {
        from: name.from,
        to: value.to,
    })
}
