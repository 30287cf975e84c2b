//! The heading of a cell.

use crate::diagram::shape::{begin_text, end_text, print_numbered};
use crate::diagram::window::Window;
use crate::scripts::print_line_of;
use std::alloc::AllocError;
use vme_arbiter::ArbReply;
use vme_core::EventReply;
use vme_grammar::print_number;
use vme_script::Config;
use vme_trace::{Activity, Observation, TransferredDatum};

/// The middle of a cell.
const MIDDLE: u16 = 52;

/// What the heading of an event has, besides what the event has.
#[derive(Clone, Copy, Debug, PartialEq, Eq)]
pub(crate) struct Heading {
    /// The number of the event.
    pub(crate) number: u32,
    /// The slot of the board that replies.
    pub(crate) slot: u16,
    /// The number of the datum in its transfer.
    pub(crate) datum: u32,
}

/// Appends the heading of a cell. Only the first cell of an event has its names.
pub(crate) fn print_heading(
    text: &mut Vec<u8>,
    config: &Config,
    heading: Heading,
    window: Window,
    event: &Observation,
) -> Result<(), AllocError> {
    print_title(text, config, event)?;
    print_names(text, is_first(window), heading.number, event)?;
    begin_text(text, b"w", MIDDLE, 44)?;
    print_activity(text, heading, window, &event.activity, &event.reply)?;
    end_text(text)
}

/// Appends the text of the line, which is shown when the pointer rests on the cell.
fn print_title(text: &mut Vec<u8>, config: &Config, event: &Observation) -> Result<(), AllocError> {
    text.extend_from_slice(b"<title>")?;
    print_line_of(text, config, event.board, event.line)?;
    text.extend_from_slice(b"</title>")
}

/// Appends the heading of a cell of polls that wait: the numbers of the first and of the last, and how
/// many they are.
pub(crate) fn print_folded(
    text: &mut Vec<u8>,
    first: u32,
    last: u32,
    count: u32,
) -> Result<(), AllocError> {
    begin_text(text, b"e", MIDDLE, 14)?;
    print_number(text, u64::from(first))?;
    if first < last {
        print_numbered(text, b"-", last)?;
    }
    end_text(text)?;
    begin_text(text, b"w", MIDDLE, 44)?;
    print_number(text, u64::from(count))?;
    text.extend_from_slice(if count == 1 { b" poll" } else { b" polls" })?;
    end_text(text)
}

/// Returns whether a cell is the first of its event.
fn is_first(window: Window) -> bool {
    !matches!(window, Window::Second | Window::Release)
}

/// Appends the names of an event, over its first cell.
fn print_names(
    text: &mut Vec<u8>,
    first: bool,
    number: u32,
    event: &Observation,
) -> Result<(), AllocError> {
    if !first {
        return Ok(());
    }
    print_event_name(text, number)?;
    print_line_name(text, event.slot, event.line)
}

/// Appends the number of an event.
fn print_event_name(text: &mut Vec<u8>, number: u32) -> Result<(), AllocError> {
    begin_text(text, b"e", MIDDLE, 14)?;
    print_number(text, u64::from(number))?;
    end_text(text)
}

/// Appends the slot and the line whose event it is.
fn print_line_name(text: &mut Vec<u8>, slot: u16, line: u16) -> Result<(), AllocError> {
    begin_text(text, b"s", MIDDLE, 29)?;
    print_number(text, u64::from(slot))?;
    print_numbered(text, b":", u32::from(line))?;
    end_text(text)
}

/// Appends what happens in a cell.
fn print_activity(
    text: &mut Vec<u8>,
    heading: Heading,
    window: Window,
    activity: &Activity,
    reply: &EventReply,
) -> Result<(), AllocError> {
    match activity {
        Activity::Requests if is_granted(reply) => text.extend_from_slice(b"request granted"),
        Activity::Requests => text.extend_from_slice(b"request waits"),
        Activity::Polls if is_granted(reply) => text.extend_from_slice(b"poll: granted"),
        Activity::Polls => text.extend_from_slice(b"poll: waits"),
        Activity::Releases(_) => print_release(text, window),
        Activity::Transfers(datum) => print_datum(text, heading, window, datum),
        Activity::Local(_) => text.extend_from_slice(b"local"),
        Activity::Other => Ok(()),
    }
}

/// Returns whether a reply grants the bus.
fn is_granted(reply: &EventReply) -> bool {
    matches!(reply, EventReply::Bus(ArbReply::Granted))
}

/// Appends a release, or the cycle before it that no board answers.
fn print_release(text: &mut Vec<u8>, window: Window) -> Result<(), AllocError> {
    match window {
        Window::Unanswered => text.extend_from_slice(b"no board"),
        _ => text.extend_from_slice(b"releases"),
    }
}

/// Appends which datum a cell shows, and the slot of the board that replies.
fn print_datum(
    text: &mut Vec<u8>,
    heading: Heading,
    window: Window,
    datum: &TransferredDatum,
) -> Result<(), AllocError> {
    print_number_before(text, heading.datum, is_numbered(window, datum))?;
    print_datum_word(text, window, datum)?;
    print_numbered(text, b"slot ", u32::from(heading.slot))
}

/// Appends the number of a datum, if it is one of several.
fn print_number_before(text: &mut Vec<u8>, number: u32, shown: bool) -> Result<(), AllocError> {
    if !shown {
        return Ok(());
    }
    print_numbered(text, b"#", number)?;
    text.extend_from_slice(b" ")
}

/// Returns whether a handshake has the number of its datum.
fn is_numbered(window: Window, datum: &TransferredDatum) -> bool {
    match window {
        Window::First => false,
        _ => in_block(datum),
    }
}

/// Returns whether a datum is one of several in its transfer.
fn in_block(datum: &TransferredDatum) -> bool {
    !(datum.first && datum.last)
}

/// Appends what a handshake does.
fn print_datum_word(
    text: &mut Vec<u8>,
    window: Window,
    datum: &TransferredDatum,
) -> Result<(), AllocError> {
    match window {
        Window::First if datum.function.is_none() => text.extend_from_slice(b"address "),
        Window::First => text.extend_from_slice(b"read "),
        Window::Second if datum.function.is_some() => text.extend_from_slice(b"write "),
        _ => print_single_word(text, datum),
    }
}

/// Appends what a single cycle does.
fn print_single_word(text: &mut Vec<u8>, datum: &TransferredDatum) -> Result<(), AllocError> {
    if in_block(datum) {
        return Ok(());
    }
    if datum.signals.write() {
        text.extend_from_slice(b"read ")
    } else {
        text.extend_from_slice(b"write ")
    }
}
