//! The lines of a cell, one below another.
ghost use Rattle.std.specs.Prelude.{◌<◌, length};

use crate::diagram::point::{Point, collect_points, end_of, value_before};
use crate::diagram::shape::{
    Span, begin_text, end_text, print_box, print_dots, print_level, print_numbered,
    print_rectangle, print_words,
};
use crate::diagram::window::Window;
use std::alloc::AllocError;
use vme_grammar::print_hex;
use vme_trace::{Change, Code, Value};

/// The height of a bar.
const BAR_HEIGHT: u16 = 14;
/// The least width of a solid bar that has its name.
const NAMED_WIDTH: u8 = 40;

/// How a line is drawn.
#[derive(Clone, Copy, Debug, PartialEq, Eq)]
pub(crate) enum Style {
    /// One line.
    Level,
    /// BERR*, which is marked where it falls.
    Error,
    /// The address, with the address modifier. It has its text where it begins, and in the first
    /// cell of a strip.
    Address { leads: bool, modifier: u8 },
    /// Data lanes.
    Data,
    /// The upper half of eight-byte data, over the address.
    UpperData,
    /// A frame, while a slot requests the bus on a level.
    Request { level: u8 },
    /// A solid bar, while a slot holds the bus.
    Busy,
}

/// A row of a cell.
#[derive(Clone, Copy, Debug, PartialEq, Eq)]
pub(crate) struct Row {
    /// The line.
    pub(crate) code: Code,
    /// Its value before the cell.
    pub(crate) value: Value,
    /// How it is drawn.
    pub(crate) style: Style,
    /// Its top.
    pub(crate) y: u16,
}

/// Appends rows of a cell.
pub(crate) fn print_rows(
    text: &mut Vec<u8>,
    points: &mut Vec<Point>,
    window: Window,
    changes: &[Change],
    rows: &[Row],
) -> Result<(), AllocError> {
    for row in rows {
        print_row(text, points, window, changes, *row)?;
    }
    Ok(())
}

/// Appends a row of a cell.
fn print_row(
    text: &mut Vec<u8>,
    points: &mut Vec<Point>,
    window: Window,
    changes: &[Change],
    row: Row,
) -> Result<(), AllocError> {
    collect_points(points, window, row.code, row.value, changes)?;
    print_parts(text, row.style, points.as_slice(), row.y)
}

/// Appends the parts of a line.
fn print_parts(
    text: &mut Vec<u8>,
    style: Style,
    points: &[Point],
    y: u16,
) -> Result<(), AllocError> {
    for i in 0..points.len() {
        print_part(text, style, points, i, y)?;
    }
    Ok(())
}

/// Appends part `i` of a line.
fn print_part(
    text: &mut Vec<u8>,
    style: Style,
    points: &[Point],
    i: usize,
    y: u16,
) -> Result<(), AllocError>
    requires { i < length points.now }
{
    let span = Span::of(points, i);
    let value = points[i].value;
    match style {
        Style::Level => print_line(text, b"l", points, i, y),
        Style::Error if 1 < points.len() => print_line(text, b"x", points, i, y),
        Style::Error => print_line(text, b"l", points, i, y),
        Style::Address { leads, modifier } => {
            let named = is_named(leads, points, i);
            print_address(text, named, modifier, value, span, y)
        }
        Style::Data => print_data(text, value, span, y),
        Style::UpperData => print_upper_data(text, value, span, y),
        Style::Request { level } => print_request(text, level, value, span, y),
        Style::Busy => print_busy(text, value, span, y),
    }
}

/// Appends part `i` of one line.
fn print_line(
    text: &mut Vec<u8>,
    class: &[u8],
    points: &[Point],
    i: usize,
    y: u16,
) -> Result<(), AllocError>
    requires { i < length points.now }
{
    let before = value_before(points, i);
    print_level(text, class, before, points[i], end_of(points, i), y)
}

/// Returns whether an address has its text.
fn is_named(leads: bool, points: &[Point], i: usize) -> bool
    requires { i < length points.now }
{
    if i == 0 { leads } else { points[i].x < 10 }
}

/// Appends a part of an address.
fn print_address(
    text: &mut Vec<u8>,
    named: bool,
    modifier: u8,
    value: Value,
    span: Span,
    y: u16,
) -> Result<(), AllocError> {
    let Value::Number { number, .. } = value else {
        return print_dots(text, span.from, span.to, y);
    };
    print_box(text, b"u", span, y)?;
    if named {
        return print_address_label(text, modifier, number, span, y);
    }
    Ok(())
}

/// Appends the address modifier and the address.
fn print_address_label(
    text: &mut Vec<u8>,
    modifier: u8,
    number: u32,
    span: Span,
    y: u16,
) -> Result<(), AllocError> {
    begin_text(text, b"t", span.middle(), u32::from(y) + 11)?;
    print_byte(text, modifier)?;
    text.extend_from_slice(b" ")?;
    print_number(text, number)?;
    end_text(text)
}

/// Appends the two digits of a byte.
pub(crate) fn print_byte(text: &mut Vec<u8>, byte: u8) -> Result<(), AllocError> {
    print_hex(text, &[byte])
}

/// Appends the eight digits of a number.
pub(crate) fn print_number(text: &mut Vec<u8>, number: u32) -> Result<(), AllocError> {
    print_hex(text, &number.to_be_bytes())
}

/// Appends a part of data lanes, or dots if nothing drives them.
fn print_data(text: &mut Vec<u8>, value: Value, span: Span, y: u16) -> Result<(), AllocError> {
    match value {
        Value::Lanes(lanes) if is_driven(&lanes) => print_lanes(text, &lanes, span, y),
        _ => print_dots(text, span.from, span.to, y),
    }
}

/// Appends a part of the upper half of eight-byte data, if something drives it.
fn print_upper_data(
    text: &mut Vec<u8>,
    value: Value,
    span: Span,
    y: u16,
) -> Result<(), AllocError> {
    match value {
        Value::Lanes(lanes) if is_driven(&lanes) => print_lanes(text, &lanes, span, y),
        _ => Ok(()),
    }
}

/// Returns whether something drives a lane.
fn is_driven(lanes: &[Option<u8>]) -> bool {
    lanes.iter().any(|lane| lane.is_some())
}

/// Appends a part of data lanes.
fn print_lanes(
    text: &mut Vec<u8>,
    lanes: &[Option<u8>],
    span: Span,
    y: u16,
) -> Result<(), AllocError> {
    print_box(text, b"v", span, y)?;
    begin_text(text, b"t", span.middle(), u32::from(y) + 11)?;
    print_digits(text, lanes)?;
    end_text(text)
}

/// Appends two digits for each lane, or two dashes if nothing drives it.
fn print_digits(text: &mut Vec<u8>, lanes: &[Option<u8>]) -> Result<(), AllocError> {
    for lane in lanes {
        print_lane(text, *lane)?;
    }
    Ok(())
}

/// Appends two digits of a lane, or two dashes if nothing drives it.
fn print_lane(text: &mut Vec<u8>, lane: Option<u8>) -> Result<(), AllocError> {
    match lane {
        Some(byte) => print_hex(text, &[byte]),
        None => text.extend_from_slice(b"--"),
    }
}

/// Appends a frame, if the slot requests the bus.
fn print_request(
    text: &mut Vec<u8>,
    level: u8,
    value: Value,
    span: Span,
    y: u16,
) -> Result<(), AllocError> {
    match value {
        Value::Low => print_frame(text, level, span, y),
        _ => Ok(()),
    }
}

/// Appends a frame.
fn print_frame(text: &mut Vec<u8>, level: u8, span: Span, y: u16) -> Result<(), AllocError> {
    print_rectangle(text, b"r", span.from, span.to, y, BAR_HEIGHT)?;
    begin_text(text, b"t", span.middle(), u32::from(y) + 11)?;
    print_numbered(text, b"BR", u32::from(level))?;
    text.extend_from_slice(b"*</text>")
}

/// Appends a solid bar, if the slot holds the bus.
fn print_busy(text: &mut Vec<u8>, value: Value, span: Span, y: u16) -> Result<(), AllocError> {
    match value {
        Value::Low => print_bar(text, span, y),
        _ => Ok(()),
    }
}

/// Appends a solid bar.
fn print_bar(text: &mut Vec<u8>, span: Span, y: u16) -> Result<(), AllocError> {
    print_rectangle(text, b"h", span.from, span.to, y, BAR_HEIGHT)?;
    print_bar_label(text, span, y)
}

/// Appends the name of BBSY*, where the bar is wide enough.
fn print_bar_label(text: &mut Vec<u8>, span: Span, y: u16) -> Result<(), AllocError> {
    if span.to.saturating_sub(span.from) < NAMED_WIDTH {
        return Ok(());
    }
    print_words(text, b"o", span.middle(), u32::from(y) + 11, b"BBSY*")
}
