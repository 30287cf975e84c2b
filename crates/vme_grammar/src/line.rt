//! A parsed line, and the parser that reads word by word.
ghost use Rattle.std.specs.Prelude.{◌≡◌};
ghost use Rattle.vme_grammar.specs.Grammar.{line_of};

use crate::fault::LineFault;
use crate::form::line_of_words;
use vme_cycle::Request;
use vme_lanes::Datum;
use vme_lexer::words_of;
use vme_memory::BoardCmd;

/// The greatest number of bytes of a line, without its end.
pub const LINE_LIMIT: usize = 80;

/// A parsed line: what a processor requests.
#[derive(Debug, Drop)]
pub enum Line {
    /// A request to the bus.
    Bus(Request),
    /// A command to the processor's own board, through its local port.
    Local(BoardCmd),
    /// Reads of the bus at `addr` with code `am`, repeated until they return `bytes`.
    Await { am: u8, addr: u32, bytes: Datum },
    /// Take the lock whose byte is at `addr`.
    Lock { am: u8, addr: u32 },
    /// Free the lock whose byte is at `addr`.
    Unlock { am: u8, addr: u32 },
    /// Put `word` into the mailbox with number `mailbox`.
    Put { mailbox: u8, word: u32 },
    /// Take a word from the mailbox with number `mailbox`.
    Take { mailbox: u8 },
}

/// Parses a line, without its end, word by word.
///
/// Returns `None` for an empty line, a line of spaces and a comment.
///
/// # Errors
///
/// The first refusal of the grammar: `LineTooLong`; then `UnknownWord`; then `WordCount`; then the
/// fault of the first malformed field from the left.
#[tactic(auto, unfolding(crate::specs::Grammar::line_of))]
pub fn parse_words(line: &[u8]) -> Result<Option<Line>, LineFault>
    ensures line { result ≡ line_of line.now }
{
    if LINE_LIMIT < line.len() {
        return Err(LineFault::LineTooLong);
    }
    let mut words = words_of(line);
    match words.next() {
        Some(word) => Ok(Some(line_of_words(word, words)?)),
        None => Ok(None),
    }
}
