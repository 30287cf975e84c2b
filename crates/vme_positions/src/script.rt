//! The lines of a script in the text of its file.
//!
//! A script is a string of TOML. Its body is a sequence of pieces: a byte that stands for itself,
//! an escape sequence, or a line end with the blanks around it that a `\` leaves out.
ghost use Rattle.std.specs.Prelude.{◌+◌, ◌<◌, ◌≤◌, length};

use crate::span::Span;
use std::alloc::{AllocError, Global};

/// The body of a string.
#[derive(Clone, Copy)]
struct Body<'a> {
    /// The bytes between the delimiters, without a line end right after the first.
    bytes: &'a [u8],
    /// The offset of the body in the text.
    from: usize,
    /// Whether a `\` begins an escape sequence.
    has_escapes: bool,
}

/// A piece of a body.
#[derive(Clone, Copy)]
struct Piece {
    /// How many bytes it has in the text.
    source: usize,
    /// How many bytes of the string it stands for.
    decoded: usize,
    /// Whether it stands for a line feed.
    is_line_end: bool,
}

/// The body of the string at `value`, or an empty body if the value is no string.
fn body_of(text: &[u8], value: Span) -> Body<'_> {
    let whole = value.bytes(text);
    let (inner, skipped) = match whole {
        [b'"', b'"', b'"', inner @ .., b'"', b'"', b'"'] => (inner, 3),
        [b'\'', b'\'', b'\'', inner @ .., b'\'', b'\'', b'\''] => (inner, 3),
        [b'"', inner @ .., b'"'] => (inner, 1),
        [b'\'', inner @ .., b'\''] => (inner, 1),
        _ => (&whole[..0], 0usize),
    };
    let (bytes, line_end) = match inner {
        [b'\n', bytes @ ..] => (bytes, 1usize),
        [b'\r', b'\n', bytes @ ..] => (bytes, 2),
        _ => (inner, 0),
    };
    Body {
        bytes,
        from: value.from.saturating_add(skipped + line_end),
        has_escapes: whole.first() == Some(&b'"'),
    }
}

/// The first piece of the rest of a body.
fn first_piece(rest: &[u8], has_escapes: bool) -> Piece
    requires { 0 < length rest.now }
    ensures some { 0 < result.source }
    ensures within { result.source ≤ length rest.now }
{
    match rest {
        [b'\\', kind, after @ ..] if has_escapes => escape(*kind, after),
        _ => Piece {
            source: 1,
            decoded: 1,
            is_line_end: rest[0] == b'\n',
        },
    }
}

/// The piece of an escape sequence: a `\`, the byte `kind`, and the first bytes of `after` if the
/// sequence has more than two.
fn escape(kind: u8, after: &[u8]) -> Piece
    ensures some { 0 < result.source }
    ensures within { result.source ≤ length after.now + 2 }
{
    match kind {
        b'x' => coded(after, 2),
        b'u' => coded(after, 4),
        b'U' => coded(after, 8),
        b' ' | b'\t' | b'\n' | b'\r' => Piece {
            source: 2 + after.iter().take_while(|byte| is_blank(**byte)).count(),
            decoded: 0,
            is_line_end: false,
        },
        _ => Piece {
            source: 2,
            decoded: 1,
            is_line_end: kind == b'n',
        },
    }
}

/// Whether a `\` at the end of a line leaves out this byte after it.
fn is_blank(byte: u8) -> bool {
    matches!(byte, b' ' | b'\t' | b'\n' | b'\r')
}

/// The piece of an escape sequence with `len` hexadecimal digits, the first bytes of `after`.
fn coded(after: &[u8], len: usize) -> Piece
    ensures some { 0 < result.source }
    ensures within { result.source ≤ length after.now + 2 }
{
    let len = len.min(after.len());
    let mut code = 0u32;
    for digit in &after[..len] {
        let digit = char::from(*digit).to_digit(16).unwrap_or(0);
        code = code.wrapping_mul(16).wrapping_add(digit);
    }
    Piece {
        source: 2 + len,
        decoded: char::from_u32(code).map_or(1, |c| c.len_utf8()),
        is_line_end: code == 10,
    }
}

/// The start in `text` of each line of a script, a string at `value`.
pub(crate) fn line_starts(
    alloc: Global,
    text: &[u8],
    value: Span,
) -> Result<Vec<usize>, AllocError> {
    let Body {
        bytes,
        from,
        has_escapes,
    } = body_of(text, value);
    let mut starts = Vec::new(alloc);
    starts.push(from)?;
    let mut at = 0;
    'pieces: while at < bytes.len() {
        let piece = first_piece(&bytes[at..], has_escapes);
        at += piece.source;
        if piece.is_line_end {
            starts.push(from.saturating_add(at))?;
        }
        at += plain_len(&bytes[at..]);
    }
    Ok(starts)
}

/// The number of bytes before the next line feed or `\`.
fn plain_len(rest: &[u8]) -> usize
    ensures { result ≤ length rest.now }
{
    rest.iter()
        .take_while(|byte| **byte != b'\n' && **byte != b'\\')
        .count()
}

/// Where bytes of a line stand in `text`. The line is one of a script, a string at `value`, and it
/// begins at the offset `start` of `text`.
pub(crate) fn word(text: &[u8], value: Span, start: usize, line_bytes: Span) -> Span {
    let Body {
        bytes,
        from,
        has_escapes,
    } = body_of(text, value);
    let skipped = start.saturating_sub(from).min(bytes.len());
    let rest = &bytes[skipped..];
    let first = piece_of_byte(rest, has_escapes, line_bytes.from);
    let end = if line_bytes.from < line_bytes.to {
        piece_of_byte(rest, has_escapes, line_bytes.to - 1).to
    } else {
        first.from
    };
    Span {
        from: start.saturating_add(first.from),
        to: start.saturating_add(end),
    }
}

/// The piece of the rest of a body in which a byte of the string lies. Past the end of the string
/// it is the end of the body.
fn piece_of_byte(rest: &[u8], has_escapes: bool, nth: usize) -> Span {
    let mut at = 0;
    let mut decoded = 0usize;
    'pieces: while at < rest.len() {
        let piece = first_piece(&rest[at..], has_escapes);
        let end = at + piece.source;
        decoded = decoded.saturating_add(piece.decoded);
        if nth < decoded {
            return Span { from: at, to: end };
        }
        at = end;
    }
    Span {
        from: rest.len(),
        to: rest.len(),
    }
}
