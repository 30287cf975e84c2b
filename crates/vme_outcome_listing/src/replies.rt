//! Which replies a line of a script may have.
ghost use Rattle.std.specs.Prelude.{ℕ, ◌≡◌, ◌<◌, ◌≤◌, List, Some, length, slice_get};
ghost use Rattle.vme_script.specs.declared.script.ScriptLine.{ScriptLine};

use std::alloc::{AllocError, Global};
use vme_cycle::Request;
use vme_grammar::Line;
use vme_master::Outcome;
use vme_memory::BoardCmd;
use vme_script::{Config, reply_line};
use vme_serve::Service;
use vme_shared::{LineReply, SharedOutcome};

/// The number of bytes before the reply in a report's line `1` of slot `1`.
const PLACE_LEN: usize = 4;

/// Returns whether a text, such as `read 01`, may be the reply to a line. A `?` stands for any
/// digit of its bytes.
///
/// Whether a line is refused, or ends by a bus error, follows from the line and the boards alone. So
/// the reply to the line by itself is the error or the refusal, if there is one.
pub(crate) fn may_reply(
    alloc: Global,
    config: &Config,
    board: usize,
    line: usize,
    text: &str,
) -> Result<bool, AllocError>
    requires board { board < length config.now.boards }
    requires line { (script : List ScriptLine) →
        slice_get config.now.scripts board ≡ Some script → line < length script }
{
    let boards = config.boards();
    prove!(board < boards);
    let line = config.script(board).line(line);
    let Ok(mut service) = Service::new(alloc, config) else {
        return Err(AllocError);
    };
    let reply = service.reply_to(board, line)?;
    match reply {
        LineReply::Refused(_)
        | LineReply::Transfer(Outcome::Berr { .. })
        | LineReply::Shared(SharedOutcome::Berr) => is_error(alloc, &reply, text),
        _ => Ok(is_good_reply(line, text)),
    }
}

/// Returns whether a text is a reply with an error, whose bytes may be others.
fn is_error(alloc: Global, reply: &LineReply, text: &str) -> Result<bool, AllocError> {
    let mut line = Vec::new(alloc);
    reply_line(1, 1, reply, &mut line)?;
    let bytes = match reply {
        LineReply::Transfer(Outcome::Berr { bytes, .. }) => bytes.len(),
        _ => 0,
    };
    let text = text.as_bytes();
    let digits = bytes.saturating_mul(2);
    if line.len() != text.len().saturating_add(PLACE_LEN + 1) || text.len() < digits {
        return Ok(false);
    }
    let (_place, own) = line.as_slice().split_at(PLACE_LEN);
    let (head, rest) = text.split_at(text.len() - digits);
    Ok(own.starts_with(head) && rest.iter().all(is_digit))
}

/// Returns whether a text may be the reply to a line that is not refused and meets no bus error: its
/// words are those of a reply to such a line, and it has as many bytes as such a reply.
fn is_good_reply(line: &Line, text: &str) -> bool {
    let Some((word, rest)) = text.split_once(' ') else {
        return lone_words(line).contains(&text);
    };
    match read_bytes(line) {
        Some((wanted, count)) => word == wanted && is_digits_of(rest, count),
        None => false,
    }
}
/// Returns the replies of one word that a line may have.
fn lone_words(line: &Line) -> &'static [&'static str] {
    match line {
        Line::Bus(Request::Write { .. } | Request::BlockWrite { .. } | Request::BlockFill { .. })
        | Line::Local(BoardCmd::LocalWrite { .. })
        | Line::Unlock { .. } => &["done"],
        Line::Await { .. } => &["met", "timeout"],
        Line::Lock { .. } => &["taken", "busy"],
        Line::Put { .. } => &["put", "busy", "full"],
        Line::Take { .. } => &["busy", "empty"],
        Line::Bus(Request::Read { .. } | Request::BlockRead { .. } | Request::Modify { .. })
        | Line::Local(_) => &[],
    }
}

/// Returns the first word of the reply that has all bytes which a line reads, and their number.
fn read_bytes(line: &Line) -> Option<(&'static str, usize)> {
    match line {
        Line::Bus(Request::Read { n, .. }) | Line::Local(BoardCmd::LocalRead { n, .. }) => {
            Some(("read", usize::from(*n)))
        }
        Line::Bus(Request::BlockRead { n, count, .. }) => {
            Some(("read", usize::from(*n).saturating_mul(usize::from(*count))))
        }
        Line::Bus(Request::Modify { n, .. }) | Line::Local(BoardCmd::LocalModify { n, .. }) => {
            Some(("old", usize::from(*n)))
        }
        Line::Take { .. } => Some(("took", 4)),
        _ => None,
    }
}

/// Returns whether a text is so many bytes, each as two lower-case hexadecimal digits or `?`.
pub(crate) fn is_digits_of(text: &str, count: usize) -> bool {
    let digits = text.as_bytes();
    digits.len() / 2 == count && digits.len() % 2 == 0 && digits.iter().all(is_digit)
}

/// Returns whether a byte is a lower-case hexadecimal digit, or `?` for any.
fn is_digit(byte: &u8) -> bool {
    match *byte {
        b'0'..=b'9' | b'a'..=b'f' | b'?' => true,
        _ => false,
    }
}
