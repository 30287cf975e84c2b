//! The texts of faults of a mailbox.
use crate::report::Context;
use crate::texts::help::{Help, no_help, says};
use crate::texts::mailbox_number;
use crate::texts::message::{Message, Value, plain, with, with_three, with_two};
use crate::texts::names::{board_name, number_of, space_name};
use vme_faults::MailboxCause;

/// The message of a cause.
pub(crate) fn message_of(cause: MailboxCause, context: &Context<'_>) -> Message {
    let number = Value::Number(mailbox_number(context.place));
    match cause {
        MailboxCause::TooManyMailboxes { mailboxes } => with_two(
            "mailbox {}; a file declares at most 16, this one {}",
            number,
            Value::Number(mailboxes as u64),
        ),
        MailboxCause::CodeRange { am } => with_three(
            "mailbox {}: code {} is {}; it takes 09, 0d, 29, 2d, 39 or 3d",
            number,
            Value::Code(am),
            Value::Word(kind_of(am)),
        ),
        MailboxCause::AddressNotAligned { addr } => with_two(
            "mailbox {}: address 0x{} is not a multiple of 4",
            number,
            Value::Hex(u64::from(addr)),
        ),
        MailboxCause::SlotsRange { slots } => with_two(
            "mailbox {}: {} slots; it takes 1 to 64",
            number,
            Value::Number(u64::from(slots)),
        ),
        MailboxCause::NoBoardThere { addr, space, .. } => with_three(
            "mailbox {}: no {} board at {}",
            number,
            Value::Word(space_name(space)),
            Value::Address(u64::from(addr)),
        ),
        MailboxCause::SupervisoryBoard { board, am, .. } => with_three(
            "mailbox {}: {} is supervisory; code {} is not",
            number,
            board_name(board),
            Value::Code(u32::from(am)),
        ),
        MailboxCause::TooLong {
            slots,
            needed,
            board,
            left,
        } => Message {
            text: "mailbox {} takes {} bytes (16 + 4 x {}); {} has {} from there",
            values: [
                number,
                Value::Number(u64::from(needed)),
                Value::Number(u64::from(slots)),
                board_name(board),
                Value::Number(u64::from(left)),
                Value::None,
            ],
        },
        MailboxCause::NarrowBoard { board, width } => with_three(
            "mailbox {}: {} has {} data lines; a mailbox requires 32",
            number,
            board_name(board),
            Value::Number(u64::from(width)),
        ),
        MailboxCause::NoModify { board } => with_two(
            "mailbox {}: {} has no read-modify-write (`rmw`), which a mailbox requires",
            number,
            board_name(board),
        ),
        MailboxCause::Shared { other, .. } => with_two(
            "mailbox {} shares bytes with mailbox {}",
            number,
            Value::Number(number_of(other)),
        ),
    }
}

/// The help of a cause.
pub(crate) fn help_of(cause: MailboxCause) -> Help {
    match cause {
        MailboxCause::NoBoardThere {
            am,
            space,
            there: Some(there),
            ..
        } => says(with_three(
            "code {} selects {}; the board there is in {}",
            Value::Code(u32::from(am)),
            Value::Word(space_name(space)),
            Value::Word(space_name(there)),
        )),
        MailboxCause::SupervisoryBoard { instead, .. } => {
            says(with("write am = 0x{}", Value::Code(u32::from(instead))))
        }
        _ => no_help(),
    }
}

/// The text of the note at the other mailbox.
pub(crate) fn note_of(cause: MailboxCause) -> Message {
    match cause {
        MailboxCause::Shared { other, low, high } => with_three(
            "mailbox {} has {} to {} of its board",
            Value::Number(number_of(other)),
            Value::Address(u64::from(low)),
            Value::Address(u64::from(high)),
        ),
        _ => plain(""),
    }
}

/// The kind of a code that no mailbox takes, in words.
fn kind_of(am: u32) -> &'static str {
    match am {
        0x0b | 0x0f | 0x3b | 0x3f | 0x08 | 0x0c | 0x38 | 0x3c => "a block code",
        0x0a | 0x0e | 0x3a | 0x3e => "a program code",
        0x10..=0x1f => "user-defined",
        0x00..=0x3f => "reserved",
        _ => "above 3f",
    }
}
