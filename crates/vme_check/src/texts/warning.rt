//! The texts of warnings.
use crate::report::Context;
use crate::texts::cycle;
use crate::texts::help::{Help, no_help, says};
use crate::texts::message::{Message, Value, plain, with, with_three, with_two};
use crate::texts::names::space_name;
use vme_faults::{FileWarning, Lack, LineWarning};
use vme_positions::Place;

/// The message of a warning of a file.
pub(crate) fn message_of(warning: FileWarning, context: &Context<'_>) -> Message {
    match warning {
        FileWarning::NoTurns => plain(match context.place {
            Place::Table { .. } | Place::File => {
                "no `schedule` and no `rounds`: `vme step` leaves every line unfinished"
            }
            _ => "no slot has a turn: `vme step` leaves every line unfinished",
        }),
        FileWarning::NoTurnsOfSlot { slot } => with(
            "slot {} has a script and no turn: `vme step` leaves its lines unfinished",
            Value::Number(u64::from(slot)),
        ),
        FileWarning::FewTurns { slot, turns, least } => with_three(
            "slot {} has {}; its lines take at least {}: some stay unfinished",
            Value::Number(u64::from(slot)),
            Value::Count(turns, "turn"),
            Value::Number(least),
        ),
        FileWarning::IdleTurns { slot } => with(
            "slot {} has turns in `schedule` and no line",
            Value::Number(u64::from(slot)),
        ),
        FileWarning::NoLines => plain("no script has a line that requests anything"),
        FileWarning::IdleMailbox => plain("no line uses this mailbox"),
        FileWarning::Decimal { value } => with_three(
            "`{}` is decimal {}, hexadecimal {}",
            Value::Word(match context.place {
                Place::Key { key, .. } | Place::Value { key, .. } => key.name(),
                _ => "address",
            }),
            Value::Number(u64::from(value)),
            Value::Hex(u64::from(value)),
        ),
    }
}

/// The help of a warning of a file.
pub(crate) fn help_of(warning: FileWarning) -> Help {
    match warning {
        FileWarning::NoTurns => says(plain("add `rounds = 100` above the first [[board]]")),
        FileWarning::Decimal { value } => says(with(
            "write 0x{} if that was meant",
            Value::Number(u64::from(value)),
        )),
        _ => no_help(),
    }
}

/// The message of a warning of a line. Where its request is always refused, it is that of the
/// refusal.
pub(crate) fn line_message(warning: LineWarning) -> Message {
    match warning {
        LineWarning::AlwaysRefused(cause) => cycle::message_of(cause),
        LineWarning::NoBoardThere { space, addr, .. } => with_two(
            "no {} board at {}: always berr 0",
            Value::Word(space_name(space)),
            Value::Address(u64::from(addr)),
        ),
        LineWarning::SupervisoryBoard { slot, am, .. } => with_two(
            "slot {} is supervisory; code {} is not: always berr 0",
            Value::Number(u64::from(slot)),
            Value::Code(u32::from(am)),
        ),
        LineWarning::DatumPastEnd { slot, size, datum } => Message {
            text: "datum {} ends past slot {}, which has {} bytes: always berr {}",
            values: [
                Value::Number(u64::from(datum)),
                Value::Number(u64::from(slot)),
                Value::Number(u64::from(size)),
                Value::Number(u64::from(datum.saturating_sub(1))),
                Value::None,
                Value::None,
            ],
        },
        LineWarning::PastEnd { slot, size } => with_two(
            "the bytes end past slot {}, which has {} bytes: always berr 0",
            Value::Number(u64::from(slot)),
            Value::Number(u64::from(size)),
        ),
        LineWarning::BoardLacks { slot, lack, data } => lack_message(
            lack,
            Value::Number(u64::from(slot)),
            Value::Number(u64::from(data)),
        ),
        LineWarning::NeverMet => {
            plain("no line writes these bytes, which begin as zero: always timeout")
        }
        LineWarning::LockWritten { slot, line } => with_two(
            "the lock byte is also written by slot {} line {}",
            Value::Number(u64::from(slot)),
            Value::Number(u64::from(line)),
        ),
        LineWarning::LockKept => plain("no line unlocks this byte"),
    }
}

/// The message that the board in a slot lacks what a transfer needs, which ends after so many data.
fn lack_message(lack: Lack, slot: Value, data: Value) -> Message {
    match lack {
        Lack::Unaligned => with_two(
            "slot {} has no unaligned transfers (`uat`): always berr {}",
            slot,
            data,
        ),
        Lack::Blocks => with_two(
            "slot {} has no block transfers (`blt`): always berr {}",
            slot,
            data,
        ),
        Lack::Modifies => with_two(
            "slot {} has no read-modify-writes (`rmw`): always berr {}",
            slot,
            data,
        ),
        Lack::DataLines(lines) => with_three(
            "slot {} has fewer than {} data lines (`width`): always berr {}",
            slot,
            Value::Number(u64::from(lines)),
            data,
        ),
    }
}

/// The help of a warning of a line.
pub(crate) fn line_help(warning: LineWarning) -> Help {
    match warning {
        LineWarning::AlwaysRefused(cause) => cycle::help_of(cause),
        LineWarning::NoBoardThere {
            space,
            am,
            there: Some((slot, there)),
            ..
        } => says(Message {
            text: "slot {} has that address in {}; code {} selects {}",
            values: [
                Value::Number(u64::from(slot)),
                Value::Word(space_name(there)),
                Value::Code(u32::from(am)),
                Value::Word(space_name(space)),
                Value::None,
                Value::None,
            ],
        }),
        LineWarning::SupervisoryBoard { instead, .. } => {
            says(with("write {}", Value::Code(u32::from(instead))))
        }
        _ => no_help(),
    }
}
