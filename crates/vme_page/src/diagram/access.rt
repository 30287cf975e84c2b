//! The accesses of the local ports.
ghost use Rattle.std.specs.Prelude.{◌≡◌, IfOk};
ghost use Rattle.vme_page.specs.Accesses.{is_high, is_raised, number_in, access_by};

use crate::diagram::layout::LocalPort;
use crate::diagram::point::{Point, first_value, number_of};
use crate::diagram::row::print_number;
use crate::diagram::shape::{begin_text, end_text, print_numbered, print_rectangle, print_words};
use crate::diagram::window::Window;
use std::alloc::AllocError;
use vme_grammar::print_hex;
use vme_trace::{Change, Value};

/// The middle of an access.
const MIDDLE: u16 = 53;

/// What a cell shows of an access by a local port.
#[derive(Clone, Copy, Debug, PartialEq, Eq)]
pub(crate) struct Access {
    /// Whether it writes.
    pub(crate) write: bool,
    /// The offset of the first byte.
    pub(crate) offset: u32,
    /// Whether a bus error answers.
    pub(crate) error: bool,
    /// The bytes, if there are some.
    pub(crate) bytes: Option<Value>,
}

/// Appends the access of a slot's local port, if the cell shows one.
pub(crate) fn print_port(
    text: &mut Vec<u8>,
    points: &mut Vec<Point>,
    window: Window,
    changes: &[Change],
    port: LocalPort,
    y: u16,
) -> Result<(), AllocError> {
    match first_value(points, window, port.write, changes)? {
        Some(write) => {
            let access = access_by(points, window, changes, port, write)?;
            print_access(text, port.slot, access, y)
        }
        None => Ok(()),
    }
}

/// Returns what a cell shows of an access, by the level of its write line.
fn access_by(
    points: &mut Vec<Point>,
    window: Window,
    changes: &[Change],
    port: LocalPort,
    write: Value,
) -> Result<Access, AllocError>
    ensures { IfOk result (λ access. access ≡ access_by window changes.now port write) }
{
    let offset = first_value(points, Window::Whole, port.offset, changes)?;
    let error = first_value(points, window, port.error, changes)?;
    let bytes = first_value(points, window, port.bytes, changes)?;
    Ok(Access {
        write: is_high(write),
        offset: number_in(offset),
        error: is_raised(error),
        bytes,
    })
}

/// Returns whether a line is high.
fn is_high(value: Value) -> bool
    ensures { result ≡ is_high value }
{
    matches!(value, Value::High)
}

/// Returns whether a line becomes high.
fn is_raised(value: Option<Value>) -> bool
    ensures { result ≡ is_raised value }
{
    match value {
        Some(value) => is_high(value),
        None => false,
    }
}

/// Returns the number that a line changes to; 0 if it is none.
fn number_in(value: Option<Value>) -> u32
    ensures { result ≡ number_in value }
{
    match value {
        Some(value) => number_of(value),
        None => 0,
    }
}

/// Appends an access.
fn print_access(text: &mut Vec<u8>, slot: u16, access: Access, y: u16) -> Result<(), AllocError> {
    print_frame(text, access.error, y)?;
    print_slot(text, slot, access.write, u32::from(y) + 13)?;
    print_offset(text, access.offset, u32::from(y) + 28)?;
    print_result(text, access, u32::from(y) + 43)
}

/// Appends the frame of an access.
fn print_frame(text: &mut Vec<u8>, error: bool, y: u16) -> Result<(), AllocError> {
    if error {
        print_rectangle(text, b"v x", 8, 98, y, 48)
    } else {
        print_rectangle(text, b"v", 8, 98, y, 48)
    }
}

/// Appends the first line of an access: the slot, and whether it reads or writes.
fn print_slot(text: &mut Vec<u8>, slot: u16, write: bool, y: u32) -> Result<(), AllocError> {
    begin_text(text, b"t", MIDDLE, y)?;
    print_numbered(text, b"slot ", u32::from(slot))?;
    print_direction(text, write)?;
    end_text(text)
}

/// Appends whether an access reads or writes.
fn print_direction(text: &mut Vec<u8>, write: bool) -> Result<(), AllocError> {
    if write {
        text.extend_from_slice(b" w")
    } else {
        text.extend_from_slice(b" r")
    }
}

/// Appends the second line of an access: the offset.
fn print_offset(text: &mut Vec<u8>, offset: u32, y: u32) -> Result<(), AllocError> {
    begin_text(text, b"t", MIDDLE, y)?;
    print_number(text, offset)?;
    end_text(text)
}

/// Appends the last line of an access: its bytes, or that it is an error.
fn print_result(text: &mut Vec<u8>, access: Access, y: u32) -> Result<(), AllocError> {
    if access.error {
        return print_words(text, b"b", MIDDLE, y, b"error");
    }
    match access.bytes {
        Some(Value::Lanes(lanes)) => print_bytes(text, &lanes, y),
        _ => Ok(()),
    }
}

/// Appends the bytes of an access.
fn print_bytes(text: &mut Vec<u8>, lanes: &[Option<u8>], y: u32) -> Result<(), AllocError> {
    begin_text(text, b"t", MIDDLE, y)?;
    print_driven_lanes(text, lanes)?;
    end_text(text)
}

/// Appends the bytes of the lanes that something drives.
fn print_driven_lanes(text: &mut Vec<u8>, lanes: &[Option<u8>]) -> Result<(), AllocError> {
    for lane in lanes {
        print_driven(text, *lane)?;
    }
    Ok(())
}

/// Appends the byte of a lane, if something drives it.
fn print_driven(text: &mut Vec<u8>, lane: Option<u8>) -> Result<(), AllocError> {
    match lane {
        Some(byte) => print_hex(text, &[byte]),
        None => Ok(()),
    }
}
