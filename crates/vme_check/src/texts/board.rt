//! The texts of faults of a board.
use crate::report::Context;
use crate::texts::help::{Help, no_help, says};
use crate::texts::message::{Message, Value, plain, with, with_three, with_two};
use crate::texts::names::{board_name, space_name};
use crate::texts::quote::without_quotes;
use vme_faults::BoardCause;

/// The message of a cause.
pub(crate) fn message_of(cause: BoardCause) -> Message {
    match cause {
        BoardCause::SlotRange { slot } => with(
            "slot {}; a backplane has slots 1 to 21",
            Value::Number(u64::from(slot)),
        ),
        BoardCause::SlotTaken { slot, .. } => {
            with("a second board in slot {}", Value::Number(u64::from(slot)))
        }
        BoardCause::SlotOrder { slot, before, .. } => with_two(
            "slot {} after slot {}; boards are listed in rising order of slots",
            Value::Number(u64::from(slot)),
            Value::Number(u64::from(before)),
        ),
        BoardCause::LevelRange { level } => with(
            "level {}; a bus request level is 0 to 3",
            Value::Number(u64::from(level)),
        ),
        BoardCause::NoSpace => with(
            "{} is not an address space; `a16`, `a24` and `a32` are",
            Value::QuotedText,
        ),
        BoardCause::NoWidth { width } => with(
            "width {}; a slave has 8, 16 or 32 data lines",
            Value::Number(u64::from(width)),
        ),
        BoardCause::UnalignedWidth { width } => with(
            "unaligned transfers (`uat`) with {} data lines; they require 32",
            Value::Number(u64::from(width)),
        ),
        BoardCause::SizeRange { size } => with(
            "size {}; a board has 4 to 1048576 bytes",
            Value::Number(u64::from(size)),
        ),
        BoardCause::SizeNotAligned { size } => with(
            "size {} is not a multiple of 4",
            Value::Number(u64::from(size)),
        ),
        BoardCause::BaseNotAligned { base } => with(
            "base 0x{} is not a multiple of 4",
            Value::Hex(u64::from(base)),
        ),
        BoardCause::OutsideSpace { space, last } => with_three(
            "the board ends at {}; space {} ends at {}",
            Value::Hex(last),
            Value::Word(space_name(space)),
            Value::Hex(space.addresses().saturating_sub(1)),
        ),
        BoardCause::Overlap {
            board,
            other_board,
            space,
            low,
            high,
            ..
        } => Message {
            text: "{} and {} overlap at {} {} to {}",
            values: [
                board_name(board),
                board_name(other_board),
                Value::Word(space_name(space)),
                Value::Hex(u64::from(low)),
                Value::Hex(u64::from(high)),
                Value::None,
            ],
        },
    }
}

/// The help of a cause.
pub(crate) fn help_of(cause: BoardCause, context: &Context<'_>) -> Help {
    match cause {
        BoardCause::NoSpace => match without_quotes(context.word) {
            b"A16" => says(plain("write \"a16\"")),
            b"A24" => says(plain("write \"a24\"")),
            b"A32" => says(plain("write \"a32\"")),
            _ => no_help(),
        },
        BoardCause::SizeNotAligned { size } => {
            let next = u64::from(size / 4).saturating_add(1).saturating_mul(4);
            says(with("the next multiple is {}", Value::Number(next)))
        }
        _ => no_help(),
    }
}

/// The text of the note at the other board.
pub(crate) fn note_of(cause: BoardCause) -> Message {
    match cause {
        BoardCause::SlotTaken { slot, .. } => {
            with("slot {} is here", Value::Number(u64::from(slot)))
        }
        BoardCause::SlotOrder { before, .. } => {
            with("slot {} is here", Value::Number(u64::from(before)))
        }
        BoardCause::Overlap {
            other_board,
            space,
            other_low,
            other_high,
            ..
        } => Message {
            text: "{} has {} {} to {}",
            values: [
                board_name(other_board),
                Value::Word(space_name(space)),
                Value::Hex(u64::from(other_low)),
                Value::Hex(u64::from(other_high)),
                Value::None,
                Value::None,
            ],
        },
        _ => plain(""),
    }
}
