//! The parts of an input that the text of a finding may quote.
use crate::report::{Input, Located};
use memchr::memrchr;
use std::alloc::Global;
use vme_positions::Place;

/// The greatest number of bytes before a place that are searched for the start of its line: more
/// than a line may have.
const LINE_REACH: usize = 128;

/// The number of bytes of a line that the text of a finding may quote.
const LINE_START: usize = 80;

/// The parts of an input that the text of a finding may quote.
#[derive(Clone, Copy)]
pub(crate) struct Context<'a> {
    pub(crate) alloc: Global,
    /// The place of the finding.
    pub(crate) place: Place,
    /// The bytes at that place; for an unknown key its name.
    pub(crate) word: &'a [u8],
    /// The first bytes of the script line or the request line that the place is in.
    pub(crate) line: &'a [u8],
    /// The input.
    pub(crate) input: Input<'a>,
}

impl<'a> Context<'a> {
    /// The context of a finding.
    pub(crate) fn of(alloc: Global, input: &Input<'a>, one: &Located) -> Context<'a> {
        Context {
            alloc,
            place: one.finding.place,
            word: word_of(input, one),
            line: line_of(input, one),
            input: *input,
        }
    }
}

/// The bytes at a place; for an unknown key its name.
fn word_of<'a>(input: &Input<'a>, one: &Located) -> &'a [u8] {
    if let Place::Unknown { table, index, nth } = one.finding.place
        && let Some(outline) = input.outline
        && let Some(name) = outline.unknown_name(table, index, nth)
    {
        return name.as_bytes();
    }
    one.span.bytes(input.text)
}

/// The first bytes of the line that a place is in.
fn line_of<'a>(input: &Input<'a>, one: &Located) -> &'a [u8] {
    if let Place::Word { board, line, .. } = one.finding.place {
        let start = Place::Word {
            board,
            line,
            from: 0,
            to: LINE_START,
        };
        return input.span(start).bytes(input.text);
    }
    let from = one.span.from;
    let near = input
        .text
        .get(from.saturating_sub(LINE_REACH)..from)
        .unwrap_or(&[]);
    match memrchr(b'\n', near) {
        Some(at) => near.get(at.saturating_add(1)..).unwrap_or(&[]),
        None => near,
    }
}
