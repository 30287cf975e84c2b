//! Shapes of SVG.
ghost use Rattle.std.specs.Prelude.{◌<◌, length};

use crate::diagram::point::{Point, WIDTH, end_of};
use std::alloc::AllocError;
use vme_grammar::print_number;
use vme_trace::Value;

/// The part of a cell in which a line has a value.
#[derive(Clone, Copy, Debug, PartialEq, Eq)]
pub(crate) struct Span {
    /// The left end.
    pub(crate) from: u8,
    /// The right end.
    pub(crate) to: u8,
    /// Whether the value begins there, and not before the cell.
    pub(crate) begins: bool,
    /// Whether the value ends there, and not after the cell.
    pub(crate) ends: bool,
}

impl Span {
    /// Returns what the value of a point spans.
    pub(crate) fn of(points: &[Point], i: usize) -> Span
        requires { i < length points.now }
    {
        let to = end_of(points, i);
        Span {
            from: points[i].x,
            to,
            begins: 0 < i,
            ends: to < WIDTH,
        }
    }

    /// Returns its middle.
    pub(crate) fn middle(self) -> u16 {
        (u16::from(self.from) + u16::from(self.to)) / 2
    }

    /// Returns the left end of the long sides of its box.
    fn left(self) -> u16 {
        if self.begins {
            u16::from(self.from) + 3
        } else {
            u16::from(self.from)
        }
    }
}

/// Appends words and a number.
pub(crate) fn print_numbered(
    text: &mut Vec<u8>,
    words: &[u8],
    number: u32,
) -> Result<(), AllocError> {
    text.extend_from_slice(words)?;
    print_number(text, u64::from(number))
}

/// Appends the begin of a path at a point.
fn print_path(text: &mut Vec<u8>, class: &[u8], x: u16, y: u32) -> Result<(), AllocError> {
    text.extend_from_slice(b"<path class='")?;
    text.extend_from_slice(class)?;
    print_numbered(text, b"' d='M", u32::from(x))?;
    print_numbered(text, b" ", y)
}

/// Appends a horizontal line to a place.
fn print_to(text: &mut Vec<u8>, x: u16) -> Result<(), AllocError> {
    print_numbered(text, b"H", u32::from(x))
}

/// Appends the dots of a line that nothing drives.
pub(crate) fn print_dots(text: &mut Vec<u8>, from: u8, to: u8, y: u16) -> Result<(), AllocError> {
    print_path(text, b"z", u16::from(from), u32::from(y) + 7)?;
    print_to(text, u16::from(to))?;
    text.extend_from_slice(b"'/>")
}

/// Returns how far below the high level a driven line is.
fn depth(value: Value) -> Option<u8> {
    match value {
        Value::High => Some(0),
        Value::Low => Some(14),
        _ => None,
    }
}

/// Appends a part of a line, after another value: a level, or dots.
pub(crate) fn print_level(
    text: &mut Vec<u8>,
    class: &[u8],
    before: Value,
    point: Point,
    to: u8,
    y: u16,
) -> Result<(), AllocError> {
    match depth(point.value) {
        Some(level) => {
            let from = match depth(before) {
                Some(from) => from,
                None => level,
            };
            print_driven(text, class, from, level, point.x, to, y)
        }
        None => print_dots(text, point.x, to, y),
    }
}

/// Appends a line at a level, with the slope that leads to it.
fn print_driven(
    text: &mut Vec<u8>,
    class: &[u8],
    from: u8,
    level: u8,
    x: u8,
    to: u8,
    y: u16,
) -> Result<(), AllocError> {
    print_path(text, class, u16::from(x), u32::from(y) + u32::from(from))?;
    print_slope(text, from, level)?;
    print_to(text, u16::from(to))?;
    text.extend_from_slice(b"'/>")
}

/// Appends the slope from a depth to another.
fn print_slope(text: &mut Vec<u8>, from: u8, level: u8) -> Result<(), AllocError> {
    if from < level {
        return text.extend_from_slice(b"l4 14");
    }
    if level < from {
        return text.extend_from_slice(b"l4 -14");
    }
    Ok(())
}

/// Appends the box of a value of several lines.
pub(crate) fn print_box(
    text: &mut Vec<u8>,
    class: &[u8],
    span: Span,
    y: u16,
) -> Result<(), AllocError> {
    print_path(text, class, span.left(), u32::from(y))?;
    print_left(text, span.begins)?;
    print_right(text, span)?;
    print_to(text, span.left())?;
    text.extend_from_slice(b"'/>")
}

/// Appends the left side of a box: a corner, or open.
fn print_left(text: &mut Vec<u8>, begins: bool) -> Result<(), AllocError> {
    if begins {
        text.extend_from_slice(b"l-3 7l3 7")
    } else {
        text.extend_from_slice(b"m0 14")
    }
}

/// Appends the lower long side of a box, and its right side: a corner, or open.
fn print_right(text: &mut Vec<u8>, span: Span) -> Result<(), AllocError> {
    if span.ends {
        print_to(text, u16::from(span.to.saturating_sub(3)))?;
        return text.extend_from_slice(b"l3 -7l-3 -7");
    }
    print_to(text, u16::from(span.to))?;
    text.extend_from_slice(b"m0 -14")
}

/// Appends a rectangle.
pub(crate) fn print_rectangle(
    text: &mut Vec<u8>,
    class: &[u8],
    from: u8,
    to: u8,
    y: u16,
    height: u16,
) -> Result<(), AllocError> {
    print_corner(text, class, from, y)?;
    print_size(text, to.saturating_sub(from), height)
}

/// Appends the begin of a rectangle.
fn print_corner(text: &mut Vec<u8>, class: &[u8], x: u8, y: u16) -> Result<(), AllocError> {
    text.extend_from_slice(b"<rect class='")?;
    text.extend_from_slice(class)?;
    print_numbered(text, b"' x='", u32::from(x))?;
    print_numbered(text, b"' y='", u32::from(y))
}

/// Appends the size of a rectangle.
fn print_size(text: &mut Vec<u8>, width: u8, height: u16) -> Result<(), AllocError> {
    print_numbered(text, b"' width='", u32::from(width))?;
    print_numbered(text, b"' height='", u32::from(height))?;
    text.extend_from_slice(b"'/>")
}

/// Appends the begin of a text, whose base line is at a place.
pub(crate) fn begin_text(
    text: &mut Vec<u8>,
    class: &[u8],
    x: u16,
    y: u32,
) -> Result<(), AllocError> {
    text.extend_from_slice(b"<text class='")?;
    text.extend_from_slice(class)?;
    print_numbered(text, b"' x='", u32::from(x))?;
    print_numbered(text, b"' y='", y)?;
    text.extend_from_slice(b"'>")
}

/// Appends the end of a text.
pub(crate) fn end_text(text: &mut Vec<u8>) -> Result<(), AllocError> {
    text.extend_from_slice(b"</text>")
}

/// Appends a text.
pub(crate) fn print_words(
    text: &mut Vec<u8>,
    class: &[u8],
    x: u16,
    y: u32,
    words: &[u8],
) -> Result<(), AllocError> {
    begin_text(text, class, x, y)?;
    text.extend_from_slice(words)?;
    end_text(text)
}
