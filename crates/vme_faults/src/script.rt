//! The faults of the lines of a script.
ghost use Rattle.std.specs.Prelude.{◌≡◌, Some, IfOk, IfSome, map, take, option_map};
ghost use Rattle.std.specs.Str.Lines.{lines};
ghost use Rattle.vme_script.specs.Contexts.{line_within};
ghost use Rattle.vme_faults.specs.Causes.{line_fault};
ghost use Rattle.vme_script.specs.declared.context.ScriptContext.{ScriptContext};
ghost use Rattle.vme_faults.specs.Lines.{fault_of, refusal_for, line_refusals, Declares};

use crate::cause::{BoardName, LineCause};
use crate::fields::{LocatedCause, cause_of};
use crate::tables::KnownBoard;
use crate::words::{WordSpan, span_of};
use std::alloc::{AllocError, Global};
use vme_decode::AddressMap;
use vme_grammar::{Line, LineFault, parse_line};
use vme_lexer::Lines;
use vme_script::{BoardRange, MOST_LINES, MailboxNumbers, ScriptContext, line_bytes};

/// What the causes of a script's lines name: boards and mailboxes of the file.
#[derive(Clone, Copy)]
pub(crate) struct Surroundings<'a> {
    /// The boards.
    pub boards: &'a [KnownBoard<'a>],
    /// The address map of all boards, if their ranges are known and share no address.
    pub map: Option<&'a AddressMap>,
    /// The bytes of the mailboxes.
    pub mailboxes: &'a [BoardRange],
    /// The number of mailbox tables, lawful or not, if it is known.
    pub declared: Option<usize>,
    /// The board of the script, by its index.
    pub board: usize,
}

/// The fault of a line, with the number of the line.
#[derive(Clone, Copy)]
pub(crate) struct FaultyLine {
    pub number: u16,
    pub cause: LineCause,
    pub span: WordSpan,
}

/// The faults of the first 1,000 lines of a script in a context, with the lines' numbers from 1.
pub(crate) fn faulty_lines(
    alloc: Global,
    text: &[u8],
    context: &ScriptContext<'_>,
    around: &Surroundings<'_>,
) -> Result<Vec<FaultyLine>, AllocError>
    ensures { IfOk result (λ faults. map refusal_for faults.items
        ≡ line_refusals context.now 1 (take 1000 (lines text.now))) }
{
    let mut faults = Vec::new(alloc);
    let mut left = MOST_LINES;
    let mut number = 0;
    for line in Lines::new(text) {
        if left == 0 {
            break;
        }
        left -= 1;
        number += 1;
        if let Some(fault) = fault_within(line, context, around) {
            faults.push(FaultyLine {
                number,
                cause: fault.cause,
                span: fault.span,
            })?;
        }
    }
    Ok(faults)
}

/// The fault of a line in a context.
#[tactic(auto, using(crate::proofs::Heads::fault_refused, crate::proofs::Heads::fault_empty, crate::proofs::Heads::fault_asked))]
pub(crate) fn fault_within(
    text: &[u8],
    context: &ScriptContext<'_>,
    around: &Surroundings<'_>,
) -> Option<LocatedCause>
    ensures { option_map (λ found. line_fault found.cause) result
        ≡ option_map Some (fault_of (line_within context.now text.now)) }
{
    match parse_line(text) {
        Ok(Some(line)) => match context.refusal(&line) {
            Some(fault) => Some(context_fault(text, &line, fault, around)),
            None => None,
        },
        Ok(None) => None,
        Err(fault) => Some(cause_of(text, fault)),
    }
}

/// The cause of a refusal by the context of a line.
fn context_fault(
    text: &[u8],
    line: &Line,
    fault: LineFault,
    around: &Surroundings<'_>,
) -> LocatedCause
    ensures { line_fault result.cause ≡ Some fault }
{
    match fault {
        LineFault::BadNumber => no_mailbox(text, line, around.declared.unwrap_or(0)),
        LineFault::MailboxBytes => touching(text, line, around),
        _ => cause_of(text, fault),
    }
}

/// The cause of S6 of a line that names a mailbox which the file does not declare.
fn no_mailbox(text: &[u8], line: &Line, declared: usize) -> LocatedCause
    ensures { line_fault result.cause ≡ Some LineFault.BadNumber }
{
    let number = match line {
        Line::Put { mailbox, .. } | Line::Take { mailbox } => *mailbox,
        _ => 0,
    };
    LocatedCause {
        cause: LineCause::NoMailbox { number, declared },
        span: span_of(text, 1),
    }
}

/// The fault of a line if of its context only the number of mailboxes may be known: the line has it
/// in each such context.
pub(crate) fn fault_alone(text: &[u8], around: &Surroundings<'_>) -> Option<LocatedCause>
    ensures { IfSome result (λ found. (rules : ScriptContext) → Declares around.now.declared rules →
        fault_of (line_within rules text.now) ≡ line_fault found.cause) }
{
    match parse_line(text) {
        Ok(Some(line)) => {
            let declared = around.declared?;
            if !MailboxNumbers::Declared(declared).may_name(&line) {
                return Some(no_mailbox(text, &line, declared));
            }
            None
        }
        Ok(None) => None,
        Err(fault) => Some(cause_of(text, fault)),
    }
}

/// The cause of S9 of a line, at its address or offset.
fn touching(text: &[u8], line: &Line, around: &Surroundings<'_>) -> LocatedCause
    ensures { line_fault result.cause ≡ Some LineFault.MailboxBytes }
{
    let bytes = match bytes_around(line, around) {
        Some(bytes) => bytes,
        None => BoardRange {
            board: around.board,
            offset: 0,
            len: 0,
        },
    };
    let (mailbox, range) = match bytes.first_shared(around.mailboxes) {
        Some(shared) => shared,
        None => (0, bytes),
    };
    let board = match around.boards.get(bytes.board) {
        Some(board) => board.name(bytes.board),
        None => BoardName::Index(bytes.board),
    };
    let word = match line {
        Line::Local(_) => 1,
        _ => 2,
    };
    LocatedCause {
        cause: LineCause::TouchesMailbox {
            board,
            low: bytes.offset,
            high: bytes.last(),
            mailbox,
            mailbox_low: range.offset,
            mailbox_high: range.last(),
        },
        span: span_of(text, word),
    }
}

/// The bytes that a line accesses, if the address map is known.
fn bytes_around(line: &Line, around: &Surroundings<'_>) -> Option<BoardRange> {
    line_bytes(around.map?, around.board, line)
}
