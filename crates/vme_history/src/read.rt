//! The text of a log.
ghost use Rattle.std.specs.Prelude.{◌≡◌, ◌==◌, ◌<◌, true, not, Ok, Err, IfOk, IfErr, IfSome, OnOk, is_some, length, option_map};
ghost use Rattle.std.specs.List.{position};
ghost use Rattle.vme_history.specs.Logs.{accesses_once};
ghost use Rattle.vme_history.specs.Reading.{IsFaultOf, after_mark, board_named, cut_at, entry_of, is_trimmed, line_said, log_after, log_of, with_line};

use crate::fault::{LogFault, LogProblem};
use crate::log::{Log, Recorded, accesses_once};
use std::alloc::{AllocError, Global};
use vme_grammar::{Line, parse_line};
use vme_lexer::{Lines, decimal_number, first_word};
use vme_script::{Config, MailboxDeclarations, ScriptContext};

/// What stands between a line and its reply.
const ARROW: &[u8] = b" -> ";

/// A line of a log: the index of its board, what its processor asked for, and the reply.
#[derive(Drop)]
struct Entry<'b> {
    board: usize,
    line: Line,
    reply: &'b [u8],
}

/// Reads the text of a log: lines `SLOT LINE -> REPLY`. Lines without words and comments are left
/// out.
///
/// # Errors
///
/// `Line`: the number of the first line that is none of a log, and what is wrong with it. `Memory`:
/// an allocation failed.
#[tactic(auto, unfolding(crate::specs::Reading::log_of))]
pub fn read_log<'a>(alloc: Global, config: &'a Config, text: &[u8]) -> Result<Log<'a>, LogFault>
    ensures log { IfOk result (λ log. log_of config.now text.now ≡ Ok log) }
    ensures fault { IfErr result (λ fault. IsFaultOf (log_of config.now text.now) fault) }
{
    let Ok(mut log) = Log::new(alloc, config) else {
        return Err(LogFault::Memory);
    };
    let mut number: usize = 0;
    for line in Lines::new(text) {
        number = number.saturating_add(1);
        read_line(alloc, config, line, number, &mut log)?;
    }
    Ok(log)
}

/// Appends what a line of the text with this number says.
fn read_line(
    alloc: Global,
    config: &Config,
    line: &[u8],
    number: usize,
    log: &mut Log<'_>,
) -> Result<(), LogFault>
    requires { log.old.config ≡ config.now }
    ensures log { OnOk result (log_after log.old number line.now ≡ Ok log.new) }
    ensures fault { IfErr result (λ fault. IsFaultOf (log_after log.old number line.now) fault) }
    ensures config { OnOk result (log.new.config ≡ config.now) }
{
    if first_word(line).is_none() {
        return Ok(());
    }
    match entry_of(config, line) {
        Ok(entry) => match push(alloc, log, entry, number) {
            Ok(()) => Ok(()),
            Err(_) => Err(LogFault::Memory),
        },
        Err(problem) => Err(LogFault::Line(number, problem)),
    }
}

/// Appends a line to a log.
fn push(alloc: Global, log: &mut Log<'_>, said: Entry<'_>, number: usize) -> Result<(), AllocError>
    requires board { said.board < length log.old.config.boards }
    requires once { accesses_once said.line ≡ true }
    ensures { OnOk result (log.new ≡ with_line log.old said.entry.board
        (record { line = said.entry.line; reply = said.entry.reply.now })) }
{
    let mut reply = Vec::new(alloc);
    reply.extend_from_slice(said.reply)?;
    log.push(said.board, Recorded::new(said.line, reply, number))?;
    Ok(())
}

/// Returns what a line of a log says.
#[tactic(auto, unfolding(crate::specs::Reading::entry_of))]
fn entry_of<'b>(config: &Config, text: &'b [u8]) -> Result<Entry<'b>, LogProblem>
    ensures entry { IfOk result (λ entry. entry_of config.now text.now ≡
        Ok (entry.board, record { line = entry.line; reply = entry.reply.now })) }
    ensures problem { IfErr result (λ problem. entry_of config.now text.now ≡ Err problem) }
    ensures board { IfOk result (λ entry. entry.board < length config.now.boards) }
    ensures once { IfOk result (λ entry. accesses_once entry.line ≡ true) }
{
    let Some((request, reply)) = split_at(text, ARROW) else {
        return Err(LogProblem::NoReply);
    };
    if !is_trimmed(reply) {
        return Err(LogProblem::NoReply);
    }
    let Some((slot, asked)) = split_at(request, b" ") else {
        return Err(LogProblem::NoBoard);
    };
    let Some(board) = board_named(config, slot) else {
        return Err(LogProblem::NoBoard);
    };
    let line = line_of(config, board, asked)?;
    Ok(Entry { board, line, reply })
}

/// Returns the index of the board whose slot a word spells.
fn board_named(config: &Config, word: &[u8]) -> Option<usize>
    ensures board { result ≡ board_named config.now word.now }
    ensures there { IfSome result (λ board. board < length config.now.boards) }
{
    let slot = decimal_number(2, word)?;
    board_in_slot(config, slot)
}

/// Returns the index of the board in a slot, if there is one.
fn board_in_slot(config: &Config, slot: u16) -> Option<usize>
    ensures place { result ≡ position (λ board. board.slot == slot) config.now.boards }
    ensures there { IfSome result (λ board. board < length config.now.boards) }
{
    for board in 0..config.boards() {
        if config.slot(board) == slot {
            return Some(board);
        }
    }
    None
}

/// Returns a text as a line of a script of a board's processor, which accesses a board at most once.
#[tactic(auto, unfolding(crate::specs::Reading::line_said))]
fn line_of(config: &Config, board: usize, text: &[u8]) -> Result<Line, LogProblem>
    ensures line { IfOk result (λ line. line_said config.now board text.now ≡ Ok line) }
    ensures problem { IfErr result (λ problem. line_said config.now board text.now ≡ Err problem) }
    ensures once { IfOk result (λ line. accesses_once line ≡ true) }
{
    let line = match parse_line(text) {
        Ok(Some(line)) => line,
        Ok(None) => return Err(LogProblem::Nothing),
        Err(fault) => return Err(LogProblem::Refused(fault)),
    };
    if !accesses_once(&line) {
        return Err(LogProblem::Several);
    }
    let rules = ScriptContext::InFile(MailboxDeclarations {
        map: config.map(),
        mailboxes: config.mailboxes(),
        board,
    });
    match rules.refusal(&line) {
        Some(fault) => Err(LogProblem::Refused(fault)),
        None => Ok(line),
    }
}

/// Returns the parts of a text before and after a mark that stands in it.
fn split_at<'b>(text: &'b [u8], mark: &[u8]) -> Option<(&'b [u8], &'b [u8])>
    ensures { option_map (λ parts. (parts.0.now, parts.1.now)) result ≡ cut_at mark.now text.now }
{
    for i in 0..text.len() {
        let (before, rest) = text.split_at(i);
        match after_mark(rest, mark) {
            Some(after) => return Some((before, after)),
            None => {}
        }
    }
    None
}

/// Returns what follows a mark, if a text begins with it.
fn after_mark<'b>(text: &'b [u8], mark: &[u8]) -> Option<&'b [u8]>
    ensures { option_map (λ after. after.now) result ≡ after_mark mark.now text.now }
{
    text.strip_prefix(mark)
}

/// Returns whether a text has no space at its ends, and is not empty.
fn is_trimmed(text: &[u8]) -> bool
    ensures { result ≡ is_trimmed text.now }
{
    match (text.first(), text.last()) {
        (Some(first), Some(last)) => *first != b' ' && *last != b' ',
        _ => false,
    }
}
