//! The parser of lines in canonical form, and the parser of all lines.
ghost use Rattle.std.specs.Prelude.{◌≡◌, MatchOption};
ghost use Rattle.vme_grammar.specs.Grammar.{line_of};

use crate::canonical::bytes::{after_ait, after_space, two_bytes};
use crate::canonical::commands::{local_modify, local_read, local_write};
use crate::canonical::requests::{
    await_bytes, block_fill, block_read, block_write, modify, read, write,
};
use crate::fault::LineFault;
use crate::line::{LINE_LIMIT, Line, parse_words};

/// Parses a line in canonical form, in one pass.
///
/// Returns what `parse_line` returns for the line, or `None`. Its contract does not state for which
/// lines it returns `None`; in every case `parse_line` gives the answer.
pub fn parse_canonical(line: &[u8]) -> Option<Line>
    ensures { MatchOption result (Unit {0}) (λ asked. line_of line.now ≡ Ok (Some asked)) }
{
    if LINE_LIMIT < line.len() {
        return None;
    }
    let (first, second, text) = two_bytes(line)?;
    match (first, second) {
        (b'r', b' ') => read(text),
        (b'w', b' ') => write(text),
        (b'm', b' ') => modify(text),
        (b'b', b'r') => block_read(after_space(text)?),
        (b'b', b'w') => block_write(after_space(text)?),
        (b'b', b'f') => block_fill(after_space(text)?),
        (b'l', b'r') => local_read(after_space(text)?),
        (b'l', b'w') => local_write(after_space(text)?),
        (b'l', b'm') => local_modify(after_space(text)?),
        (b'a', b'w') => await_bytes(after_ait(text)?),
        _ => None,
    }
}

/// Parses any line, word by word.
fn any_line(line: &[u8]) -> Result<Option<Line>, LineFault>
    ensures { result ≡ line_of line.now }
{
    parse_words(line)
}

/// Parses a line, without its end: a line in canonical form in one pass, any other word by word.
///
/// Returns `None` for an empty line, a line of spaces and a comment.
///
/// # Errors
///
/// The first refusal of the grammar: `LineTooLong`; then `UnknownWord`; then `WordCount`; then the
/// fault of the first malformed field from the left.
pub fn parse_line(line: &[u8]) -> Result<Option<Line>, LineFault>
    ensures line { result ≡ line_of line.now }
{
    match parse_canonical(line) {
        Some(asked) => Ok(Some(asked)),
        None => any_line(line),
    }
}
