//! The cause of a refusal of the grammar: which word of the line is at fault, and why.
ghost use Rattle.std.specs.Prelude.{◌≡◌, Some};
ghost use Rattle.vme_grammar.specs.declared.fault.LineFault.TheVariants as faults;
ghost use Rattle.vme_faults.specs.Causes.{line_fault};

use crate::cause::{BoardName, DataLength, LineCause, LineForm};
use crate::form::{form_of, operand_count};
use crate::words::{WordSpan, span_of, word_count, word_of};
use vme_grammar::{LINE_LIMIT, LineFault};
use vme_lexer::{exact_bytes, small_number};

/// The cause of a line's refusal, and the bytes of the line that are at fault.
#[derive(Clone, Copy)]
pub struct LocatedCause {
    /// What is wrong, with the values that its text names.
    pub cause: LineCause,
    /// The bytes of the line that are at fault.
    pub span: WordSpan,
}

/// The cause, at the word of the line with this index, from 0.
fn at_word(line: &[u8], word: usize, cause: LineCause) -> LocatedCause
    ensures { result.cause ≡ cause }
{
    LocatedCause {
        cause,
        span: span_of(line, word),
    }
}

/// Returns the cause of a refusal of a line by itself. Reading a line by itself never gives
/// `MailboxBytes`.
pub fn cause_of(line: &[u8], fault: LineFault) -> LocatedCause
    ensures { line_fault result.cause ≡ Some fault }
{
    match fault {
        LineFault::LineTooLong => too_long(line),
        LineFault::UnknownWord => unknown_word(line),
        LineFault::WordCount => wrong_count(line),
        LineFault::BadCode => at_word(line, 1, LineCause::BadCode),
        LineFault::BadAddress => bad_address(line),
        LineFault::BadNumber => bad_number(line),
        LineFault::BadBytes => bad_bytes(line),
        LineFault::MailboxBytes => at_word(
            line,
            0,
            LineCause::TouchesMailbox {
                board: BoardName::Index(0),
                low: 0,
                high: 0,
                mailbox: 0,
                mailbox_low: 0,
                mailbox_high: 0,
            },
        ),
    }
}

/// The cause of S1, at the bytes past the limit.
fn too_long(line: &[u8]) -> LocatedCause
    ensures { line_fault result.cause ≡ Some faults.LineTooLong }
{
    let bytes = line.len();
    LocatedCause {
        cause: LineCause::TooLong { bytes },
        span: WordSpan {
            from: LINE_LIMIT.min(bytes),
            to: bytes,
        },
    }
}

/// The cause of S2: a comment that does not begin in the first column, an unknown command, or an
/// unknown function.
fn unknown_word(line: &[u8]) -> LocatedCause
    ensures { line_fault result.cause ≡ Some faults.UnknownWord }
{
    match form_of(line) {
        Some(LineForm::LocalModify) => at_word(line, 3, LineCause::UnknownFunction),
        Some(LineForm::Modify) => at_word(line, 4, LineCause::UnknownFunction),
        _ => unknown_command(line),
    }
}

/// The cause of S2 at the first word: a comment that does not begin in the first column, or an
/// unknown command.
fn unknown_command(line: &[u8]) -> LocatedCause
    ensures { line_fault result.cause ≡ Some faults.UnknownWord }
{
    if word_of(line, 0).first() == Some(&b'#') {
        let from = span_of(line, 0).from;
        return LocatedCause {
            cause: LineCause::IndentedComment,
            span: WordSpan {
                from,
                to: line.len().min(from.saturating_add(1)),
            },
        };
    }
    at_word(line, 0, LineCause::UnknownCommand)
}

/// The form of a line whose first word is a command; that of `r` for another line.
fn known_form(line: &[u8]) -> LineForm {
    match form_of(line) {
        Some(form) => form,
        None => LineForm::Read,
    }
}

/// The cause of S3, from the first word too many on, or at the end of the line.
fn wrong_count(line: &[u8]) -> LocatedCause
    ensures { line_fault result.cause ≡ Some faults.WordCount }
{
    let form = known_form(line);
    let wanted = operand_count(form);
    let cause = LineCause::WordCount {
        form,
        wanted,
        found: word_count(line).saturating_sub(1),
    };
    LocatedCause {
        cause,
        span: WordSpan {
            from: span_of(line, wanted.saturating_add(1)).from,
            to: line.len(),
        },
    }
}

/// Whether a line of this form is one of the local port.
fn is_local(form: LineForm) -> bool {
    matches!(
        form,
        LineForm::LocalRead
            | LineForm::LocalWrite
            | LineForm::LocalModify
            | LineForm::LocalModifySet
            | LineForm::LocalModifyExchange
            | LineForm::LocalModifyAdd
            | LineForm::LocalModifyCompare
    )
}

/// The cause of S5: the address, or the offset of a local line.
fn bad_address(line: &[u8]) -> LocatedCause
    ensures { line_fault result.cause ≡ Some faults.BadAddress }
{
    if is_local(known_form(line)) {
        return at_word(line, 1, LineCause::BadOffset);
    }
    at_word(line, 2, LineCause::BadAddress)
}

/// The cause of S6: the number of bytes or of data, or the number of a mailbox.
fn bad_number(line: &[u8]) -> LocatedCause
    ensures { line_fault result.cause ≡ Some faults.BadNumber }
{
    let form = known_form(line);
    if is_local(form) {
        return at_word(line, 2, LineCause::BadLocalByteCount);
    }
    match form {
        LineForm::Put | LineForm::Take => at_word(line, 1, LineCause::BadMailboxNumber),
        LineForm::BlockRead | LineForm::BlockFill if small_number(word_of(line, 3)).is_some() => {
            at_word(line, 4, LineCause::BadDataCount)
        }
        _ => at_word(line, 3, LineCause::BadByteCount),
    }
}

/// The index, from 0, of the word with the bytes of a line, and the numbers of bytes that it may
/// have.
fn bytes_of(line: &[u8], form: LineForm) -> (usize, DataLength) {
    match form {
        LineForm::BlockWrite => (4, DataLength::Any),
        LineForm::BlockFill => (5, number_at(line, 3)),
        LineForm::ModifyExchange | LineForm::ModifyAdd => (5, number_at(line, 3)),
        LineForm::ModifyCompare => (operand_of_two(line, 5, 3), number_at(line, 3)),
        LineForm::LocalWrite => (2, DataLength::PowerOfTwo),
        LineForm::LocalModifyExchange | LineForm::LocalModifyAdd => (4, number_at(line, 2)),
        LineForm::LocalModifyCompare => (operand_of_two(line, 4, 2), number_at(line, 2)),
        LineForm::Put => (2, DataLength::Exactly(4)),
        _ => (3, DataLength::UpTo8),
    }
}

/// The number of bytes that the word with this index states.
fn number_at(line: &[u8], word: usize) -> DataLength {
    match small_number(word_of(line, word)) {
        Some(number) => DataLength::Exactly(number),
        None => DataLength::Any,
    }
}

/// The index of the faulty one of two words from `first` on. The word with the index `number`
/// states how many bytes each has.
fn operand_of_two(line: &[u8], first: usize, number: usize) -> usize {
    match small_number(word_of(line, number)) {
        Some(len) if exact_bytes(len, word_of(line, first)).is_some() => first.saturating_add(1),
        _ => first,
    }
}

/// The cause of S7, at the word with the bytes.
fn bad_bytes(line: &[u8]) -> LocatedCause
    ensures { line_fault result.cause ≡ Some faults.BadBytes }
{
    let form = known_form(line);
    let (word, wanted) = bytes_of(line, form);
    let digits = word_of(line, word);
    if !digits.iter().all(|digit| digit.is_ascii_hexdigit()) {
        return at_word(line, word, LineCause::NoHexDigits);
    }
    if digits.len() % 2 == 1 {
        let digits = digits.len();
        return at_word(line, word, LineCause::OddDigits { digits });
    }
    let found = digits.len() / 2;
    let cause = LineCause::WrongLength {
        form,
        found,
        wanted,
    };
    at_word(line, word, cause)
}
