//! The line of a finding as it is shown: at most 96 characters of it, and carets below them.
use bstr::ByteSlice;
use memchr::{memchr, memrchr};
use std::alloc::{AllocError, Global};
use std::fmt::Write;
use std::ops::Range;
use vme_positions::Span;

/// The greatest number of characters of a line that is shown whole.
const WHOLE: usize = 96;

/// The number of characters that are shown of a longer line.
const PART: usize = 90;

/// How many bytes of the line are read on each side of a place. `WHOLE` characters have fewer.
const REACH: usize = 4 * (WHOLE + 1);

/// The characters of a line around a place.
#[derive(Drop)]
struct Shown {
    chars: Vec<char>,
    /// The index of the first character of the place.
    from: usize,
    /// The index of the first character after the place.
    to: usize,
    /// Whether the line has characters before these.
    is_cut_before: bool,
    /// Whether the line has characters after these.
    is_cut_after: bool,
}

/// Appends the line in which a place begins, with its number, and a line of carets below the place.
/// Carets end with the line.
///
/// # Errors
///
/// An allocation failed.
pub(crate) fn write_excerpt(
    alloc: Global,
    text: &[u8],
    place: Span,
    number: usize,
    to: &mut String,
) -> Result<(), AllocError> {
    let shown = shown_around(alloc, text, place)?;
    let window = window_of(&shown);
    let is_cut_before = shown.is_cut_before || 0 < window.start;
    let is_cut_after = shown.is_cut_after || window.end < shown.chars.len();
    write!(to, "{number:>5} | ")?;
    push_cut(is_cut_before, to)?;
    for c in shown
        .chars
        .as_slice()
        .get(window.start..window.end)
        .unwrap_or(&[])
    {
        to.push(*c)?;
    }
    push_cut(is_cut_after, to)?;
    to.push_str("\n      | ")?;
    push_times(' ', if is_cut_before { CUT.len() } else { 0 }, to)?;
    push_times(' ', shown.from.saturating_sub(window.start), to)?;
    to.push('^')?;
    let last = shown.to.min(window.end);
    push_times('^', last.saturating_sub(shown.from).saturating_sub(1), to)?;
    to.push('\n')
}

/// The mark in the place of characters that are left out of a line.
const CUT: &str = "..";

fn push_cut(is_cut: bool, to: &mut String) -> Result<(), AllocError> {
    if is_cut { to.push_str(CUT) } else { Ok(()) }
}

fn push_times(c: char, times: usize, to: &mut String) -> Result<(), AllocError> {
    for _ in 0..times {
        to.push(c)?;
    }
    Ok(())
}

/// The characters of the line in which a place begins. Of a long line only those near to the place
/// are read.
fn shown_around(alloc: Global, text: &[u8], place: Span) -> Result<Shown, AllocError> {
    let from = place.from.min(text.len());
    let before = text.get(..from).unwrap_or(&[]);
    let after = text.get(from..).unwrap_or(&[]);
    let (before, is_cut_before) = line_end_of(before);
    let (after, is_cut_after) = line_start_of(after);
    let mut chars = Vec::new(alloc);
    for (_, _, c) in before.char_indices() {
        chars.push(shown_as(c))?;
    }
    let first = chars.len();
    let length = place.to.saturating_sub(from);
    let mut end = first;
    for (at, _, c) in after.char_indices() {
        chars.push(shown_as(c))?;
        if at < length {
            end = chars.len();
        }
    }
    Ok(Shown {
        chars,
        from: first,
        to: end,
        is_cut_before,
        is_cut_after,
    })
}

/// The part of a text after its last line feed, or the end of that part, and whether it was cut.
fn line_end_of(text: &[u8]) -> (&[u8], bool) {
    let near = text.len().saturating_sub(REACH);
    let part = text.get(near..).unwrap_or(&[]);
    if let Some(at) = memrchr(b'\n', part) {
        return (part.get(at.saturating_add(1)..).unwrap_or(&[]), false);
    }
    let whole = without_continued(part);
    (if 0 < near { whole } else { part }, 0 < near)
}

/// A text without the bytes at its start that continue a character.
fn without_continued(text: &[u8]) -> &[u8] {
    for (at, byte) in text.iter().enumerate() {
        if *byte & 0xc0 != 0x80 {
            return text.get(at..).unwrap_or(&[]);
        }
    }
    &[]
}

/// The part of a text before its first line end, or the start of that part, and whether it was cut.
fn line_start_of(text: &[u8]) -> (&[u8], bool) {
    let part = text.get(..REACH).unwrap_or(text);
    match memchr(b'\n', part) {
        Some(at) => {
            let line = part.get(..at).unwrap_or(part);
            (line.strip_suffix(b"\r").unwrap_or(line), false)
        }
        None => (part, part.len() < text.len()),
    }
}

/// The range of the characters of a line that are shown: all of a short line, otherwise those
/// around the place.
fn window_of(shown: &Shown) -> Range<usize> {
    let count = shown.chars.len();
    if count <= WHOLE && !shown.is_cut_before && !shown.is_cut_after {
        return 0..count;
    }
    let start = shown
        .from
        .saturating_sub(PART / 2)
        .min(count.saturating_sub(PART));
    start..start.saturating_add(PART).min(count)
}

/// The character that is shown: a space for a tab, and U+FFFD for a character that is invisible or
/// that moves others.
fn shown_as(c: char) -> char {
    match c {
        '\t' => ' ',
        '\0'..='\x1f'
        | '\x7f'..='\u{9f}'
        | '\u{200b}'..='\u{200f}'
        | '\u{2028}'..='\u{202e}'
        | '\u{2066}'..='\u{2069}'
        | '\u{feff}' => '\u{fffd}',
        _ => c,
    }
}
