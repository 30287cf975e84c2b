//! The texts of faults of the arbiter and of the turns.
use crate::report::Context;
use crate::texts::help::{Help, no_help, says};
use crate::texts::message::{Message, Value, plain, with, with_two};
use crate::texts::quote::without_quotes;
use vme_faults::ScheduleCause;

/// The message of a cause.
pub(crate) fn message_of(cause: ScheduleCause) -> Message {
    match cause {
        ScheduleCause::NoArbiter => with(
            "{} is not an arbiter; `priority` and `rotating` are",
            Value::QuotedText,
        ),
        ScheduleCause::TriesRange { tries } => with(
            "`tries` is {}; it takes 1 to 1000000",
            Value::Number(u64::from(tries)),
        ),
        ScheduleCause::RoundsRange { rounds } => with(
            "`rounds` is {}; it takes 0 to 1000000",
            Value::Number(u64::from(rounds)),
        ),
        ScheduleCause::NoBoardInSlot { slot, more, .. } => no_board_in(
            u64::from(slot),
            more as u64,
        ),
        ScheduleCause::TooManyTurns { turns } => with(
            "the schedule passes 1000000 turns here; it has {}",
            Value::Number(turns),
        ),
    }
}

/// The message about a slot without a board, which this many further pairs name.
fn no_board_in(slot: u64, more: u64) -> Message {
    let slot = Value::Number(slot);
    match more {
        0 => with("no board in slot {}", slot),
        1 => with("no board in slot {} (1 more pair names it)", slot),
        _ => with_two(
            "no board in slot {} ({} more pairs name it)",
            slot,
            Value::Number(more),
        ),
    }
}

/// The help of a cause.
pub(crate) fn help_of(cause: ScheduleCause, context: &Context<'_>) -> Help {
    match cause {
        ScheduleCause::NoArbiter => {
            let word = without_quotes(context.word);
            if word.eq_ignore_ascii_case(b"priority") {
                says(plain("write \"priority\""))
            } else if word.eq_ignore_ascii_case(b"rotating") {
                says(plain("write \"rotating\""))
            } else {
                no_help()
            }
        }
        ScheduleCause::NoBoardInSlot { slots, .. } => says(with(
            if slots.count_ones() == 1 {
                "the only board is in slot{}"
            } else {
                "boards are in slots{}"
            },
            Value::Slots(slots),
        )),
        _ => no_help(),
    }
}
