//! What a line of a session asks for.
ghost use Rattle.std.specs.Prelude.{◌≡◌, ◌<◌, ◌≤◌, length, Some, IfSome};
ghost use Rattle.vme_script.specs.Boards.{entries_of};
ghost use Rattle.vme_script.specs.Contexts.{line_within};
ghost use Rattle.vme_script.specs.Scripts.{rules_of};
ghost use Rattle.vme_serve.specs.Requests.{slot_len, board_named, asked_in, asked_of};

use vme_grammar::{LINE_LIMIT, Line, LineFault, parse_line};
use vme_lexer::decimal_number;
use vme_script::{Config, MailboxDeclarations, ScriptContext};
use vme_stepper::board_in_slot;

/// The greatest number of bytes of a line of the input, without its end: a slot of two digits, a
/// space, and a line of a script.
pub(crate) const INPUT_LINE_LIMIT: usize = 3 + LINE_LIMIT;

/// What a line of a session asks for.
#[derive(Debug, Drop)]
pub(crate) enum Asked {
    /// The line does not begin with the slot of a board and a space.
    NoBoard,
    /// The line is too long, or what follows the slot is refused as a line of a script.
    Refused(LineFault),
    /// What follows the slot has no words, or is a comment.
    Nothing,
    /// A line of the script of a board's processor.
    Request {
        /// The index of the board.
        board: usize,
        /// What the processor requests.
        line: Line,
    },
}

/// Returns what a line asks for.
#[tactic(auto, unfolding(crate::specs::Requests::asked_of))]
pub(crate) fn asked_of(config: &Config, line: &[u8]) -> Asked
    ensures { result ≡ asked_of config.now line.now }
{
    if INPUT_LINE_LIMIT < line.len() {
        return Asked::Refused(LineFault::LineTooLong);
    }
    let Some(count) = slot_len(line) else {
        return Asked::NoBoard;
    };
    let Some(board) = board_named(config, line, count) else {
        return Asked::NoBoard;
    };
    asked_in(config, board, &line[count + 1..])
}

/// Returns the number of bytes before the first space, if they are one or two.
fn slot_len(line: &[u8]) -> Option<usize>
    ensures len { result ≡ slot_len line.now }
    ensures within { IfSome result (λ count. count < length line.now) }
{
    match line {
        [_, b' ', ..] => Some(1),
        [_, _, b' ', ..] => Some(2),
        _ => None,
    }
}

/// Returns the index of the board whose slot the first `count` bytes of a line spell.
fn board_named(config: &Config, line: &[u8], count: usize) -> Option<usize>
    requires { count < length line.now }
    ensures board { result ≡ board_named config.now line.now count }
    ensures there { IfSome result (λ board. board < length config.now.boards) }
{
    let slot = decimal_number(2, &line[..count])?;
    board_in_slot(config, slot)
}

/// Returns what a text asks for as a line of the script of a board's processor.
#[tactic(auto, unfolding(vme_script::specs::Contexts::line_within))]
fn asked_in(config: &Config, board: usize, text: &[u8]) -> Asked
    ensures { result ≡ asked_in board
        (line_within (rules_of (entries_of config.now.boards) config.now.mailboxes board) text.now) }
{
    let line = match parse_line(text) {
        Ok(Some(line)) => line,
        Ok(None) => return Asked::Nothing,
        Err(fault) => return Asked::Refused(fault),
    };
    let rules = ScriptContext::InFile(MailboxDeclarations {
        map: config.map(),
        mailboxes: config.mailboxes(),
        board,
    });
    match rules.refusal(&line) {
        Some(fault) => Asked::Refused(fault),
        None => Asked::Request { board, line },
    }
}
