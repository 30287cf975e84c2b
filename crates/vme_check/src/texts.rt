//! The texts of findings: for each cause a message, and for some a help.
//!
//! A message and a help are one line without a line end. Each is data, a text and the values in it,
//! and one function prints them all.

mod board;
mod cycle;
mod document;
mod help;
mod line;
mod mailbox;
mod message;
mod names;
mod quote;
mod refused;
mod schedule;
mod warning;

use crate::report::{Context, Input, Located};
use crate::texts::help::{Help, no_help, push_help};
use crate::texts::message::{Message, plain, push_message};
use crate::texts::names::number_of;
use std::alloc::AllocError;
use vme_faults::{Cause, LineWarning};
use vme_positions::Place;

/// Appends the message of a finding.
///
/// # Errors
///
/// An allocation failed.
pub(crate) fn write_message(
    cause: Cause,
    context: &Context<'_>,
    to: &mut String,
) -> Result<(), AllocError> {
    push_message(&message_of(cause, context), context.word, to)?;
    to.push_str(ending_of(cause))
}

/// The message of a cause, without its ending.
fn message_of(cause: Cause, context: &Context<'_>) -> Message {
    match cause {
        Cause::Document(cause) => document::message_of(cause, context),
        Cause::Board(cause) => board::message_of(cause),
        Cause::Schedule(cause) => schedule::message_of(cause),
        Cause::Mailbox(cause) => mailbox::message_of(cause, context),
        Cause::Script { cause, .. } | Cause::RequestLine(cause) => line::message_of(cause, context),
        Cause::Refused(_) => refused::message_of(cause),
        Cause::File(warning) => warning::message_of(warning, context),
        Cause::Line { warning, .. } => warning::line_message(warning),
        Cause::RequestCycle(cause) => cycle::message_of(cause),
        Cause::RequestBoard => plain("the board of `cycles` has a32 0 to fff: always berr 0"),
    }
}

/// What follows the message of a cause: that a line's request is refused each time.
fn ending_of(cause: Cause) -> &'static str {
    match cause {
        Cause::Line {
            warning: LineWarning::AlwaysRefused(_),
            ..
        } => ": always refused",
        _ => "",
    }
}

/// Appends the help of a cause, or nothing.
///
/// # Errors
///
/// An allocation failed.
pub(crate) fn write_help(
    cause: Cause,
    context: &Context<'_>,
    to: &mut String,
) -> Result<(), AllocError> {
    push_help(&help_of(cause, context), context, to)
}

/// The help of a cause.
fn help_of(cause: Cause, context: &Context<'_>) -> Help {
    match cause {
        Cause::Document(cause) => document::help_of(cause, context),
        Cause::Board(cause) => board::help_of(cause, context),
        Cause::Schedule(cause) => schedule::help_of(cause, context),
        Cause::Mailbox(cause) => mailbox::help_of(cause),
        Cause::Script { cause, .. } | Cause::RequestLine(cause) => line::help_of(cause, context),
        Cause::File(warning) => warning::help_of(warning),
        Cause::Line { warning, .. } => warning::line_help(warning),
        Cause::RequestCycle(cause) => cycle::help_of(cause),
        Cause::Refused(_) | Cause::RequestBoard => no_help(),
    }
}

/// The offset of the other place of a finding, to which its note belongs.
pub(crate) fn note_offset(input: &Input<'_>, one: &Located) -> Option<usize> {
    if let Cause::Document(cause) = one.finding.cause {
        return document::note_offset(cause, input, one.span);
    }
    let place = one.finding.cause.other_place()?;
    Some(input.span(place).from)
}

/// Appends the text of the note at the other place of a finding.
///
/// # Errors
///
/// An allocation failed.
pub(crate) fn write_note(cause: Cause, to: &mut String) -> Result<(), AllocError> {
    push_message(&note_of(cause), &[], to)
}

/// The text of the note of a cause.
fn note_of(cause: Cause) -> Message {
    match cause {
        Cause::Document(cause) => document::note_of(cause),
        Cause::Board(cause) => board::note_of(cause),
        Cause::Mailbox(cause) => mailbox::note_of(cause),
        _ => plain(""),
    }
}

/// The number of the mailbox of a place, from 1.
fn mailbox_number(place: Place) -> u64 {
    match place {
        Place::Table { index, .. }
        | Place::Key { index, .. }
        | Place::Value { index, .. }
        | Place::Unknown { index, .. } => number_of(index),
        _ => 0,
    }
}
