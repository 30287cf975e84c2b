//! The lines that `vme cycles` accepts: requests to the bus, and no others.
ghost use Rattle.std.specs.Prelude.{◌≡◌, slice_get};
ghost use Rattle.vme_lexer.specs.Words.{words_of};
ghost use Rattle.vme_engines.specs.Lines.{is_request_word, is_other_word, request_of};

use vme_cycle::Request;
use vme_grammar::{LINE_LIMIT, Line, LineFault, parse_line};
use vme_lexer::first_word;

/// Returns the request of a line of `vme cycles`, or `None` for a comment or a line without words.
///
/// # Errors
///
/// The line is refused: `LineTooLong` for more than `LINE_LIMIT` bytes; `UnknownWord` for a first
/// word that is not that of a request, whatever follows it; otherwise the fault of `parse_line`.
#[tactic(auto, unfolding(crate::specs::Lines::request_of))]
pub fn request_of(line: &[u8]) -> Result<Option<Request>, LineFault>
    ensures { result ≡ request_of line.now }
{
    if LINE_LIMIT < line.len() {
        return Err(LineFault::LineTooLong);
    }
    if begins_with_other_word(line) {
        return Err(LineFault::UnknownWord);
    }
    match parse_line(line)? {
        None => Ok(None),
        Some(Line::Bus(request)) => Ok(Some(request)),
        Some(_) => Err(LineFault::UnknownWord),
    }
}

/// Whether a line's first word is not that of a request.
fn begins_with_other_word(line: &[u8]) -> bool
    ensures { result ≡ is_other_word (slice_get (words_of line.now) 0) }
{
    match first_word(line) {
        Some(word) => !is_request_word(word),
        None => false,
    }
}

/// Whether a word is the first word of a request.
fn is_request_word(word: &[u8]) -> bool
    ensures { result ≡ is_request_word word.now }
{
    matches!(word, b"r" | b"w" | b"br" | b"bw" | b"bf" | b"m")
}
