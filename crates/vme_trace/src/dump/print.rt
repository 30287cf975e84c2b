//! The text of events.
ghost use Rattle.std.specs.Prelude.{◌≡◌, ◌<◌, ◌+◌, ◌/◌, ◌%◌, ◌^◌, ◌∷◌, [], ◌++◌, ◌==◌, flat_map, slice_get, codes, OnOk};
ghost use Rattle.std.specs.List.{list_any, range_with_len};
ghost use Rattle.vme_trace.specs.Changes.{binary, lane_found, lane_digits, line_text, lane_text, grant_text, code_text, value_text, text_at, time_text, edge_text, event_text, end_text};

use crate::dump::change::{Change, Code, Value};
use crate::dump::edge::EDGES;
use std::alloc::AllocError;
use vme_grammar::print_number;

/// Appends the text of event `n`, whose changes these are.
#[tactic(auto, unfolding(crate::specs::Changes::event_text))]
pub(crate) fn print_event(text: &mut Vec<u8>, n: u32, changes: &[Change]) -> Result<(), AllocError>
    ensures { OnOk result (text.new.items ≡ text.old.items ++ event_text n changes.now) }
{
    for k in 0..EDGES {
        print_edge(text, n, changes, k)?;
    }
    Ok(())
}

/// Appends the text of the end, after `n` events.
pub(crate) fn print_end(text: &mut Vec<u8>, n: u32) -> Result<(), AllocError>
    ensures { OnOk result (text.new.items ≡ text.old.items ++ end_text n) }
{
    print_time(text, 100 * u64::from(n) + 100)
}

/// Appends edge `k` of an event, if something changes at it.
fn print_edge(text: &mut Vec<u8>, n: u32, changes: &[Change], k: u8) -> Result<(), AllocError>
    ensures { OnOk result (text.new.items ≡ text.old.items ++ edge_text n changes.now k) }
{
    if !is_edge(changes, k) {
        return Ok(());
    }
    print_time(text, 100 * u64::from(n) + 5 * u64::from(k))?;
    print_changes(text, changes, k)
}

/// Returns whether something changes at an edge.
fn is_edge(changes: &[Change], k: u8) -> bool
    ensures { result ≡ list_any (λ c. c.edge == k) changes.now }
{
    changes.iter().any(|change| change.edge == k)
}

/// Appends the changes at an edge.
fn print_changes(text: &mut Vec<u8>, changes: &[Change], k: u8) -> Result<(), AllocError>
    ensures { OnOk result (text.new.items ≡ text.old.items ++ flat_map (text_at k) changes.now) }
{
    for change in changes {
        print_at(text, change, k)?;
    }
    Ok(())
}

/// Appends a change, if it is at an edge.
fn print_at(text: &mut Vec<u8>, change: &Change, k: u8) -> Result<(), AllocError>
    ensures { OnOk result (text.new.items ≡ text.old.items ++ text_at k change.now) }
{
    if change.edge != k {
        return Ok(());
    }
    print_value(text, change.code, change.value)
}

/// Appends the lines of a value of the variable with this code.
pub(crate) fn print_value(text: &mut Vec<u8>, code: Code, value: Value) -> Result<(), AllocError>
    ensures { OnOk result (text.new.items ≡ text.old.items ++ value_text code value) }
{
    match value {
        Value::Low => print_line(text, b"0", code),
        Value::High => print_line(text, b"1", code),
        Value::Free => print_line(text, b"z", code),
        Value::Released => print_line(text, b"bz ", code),
        Value::Number { width, number } => print_vector(text, width, number, code),
        Value::Lanes(lanes) => print_lanes(text, code, &lanes),
        Value::Grants(bits) => print_grants(text, code, bits),
    }
}

/// Appends the line of a value with these digits.
fn print_line(text: &mut Vec<u8>, digits: &[u8], code: Code) -> Result<(), AllocError>
    ensures { OnOk result (text.new.items ≡ text.old.items ++ line_text digits.now code) }
{
    text.extend_from_slice(digits)?;
    print_code(text, code)?;
    text.extend_from_slice(b"\n")
}

/// Appends the line of a number as the value of a vector.
fn print_vector(text: &mut Vec<u8>, width: u8, number: u32, code: Code) -> Result<(), AllocError>
    ensures { OnOk result (text.new.items ≡ text.old.items
        ++ line_text (codes "b" ++ (binary width number ++ codes " ")) code) }
{
    text.extend_from_slice(b"b")?;
    print_binary(text, width, number)?;
    print_line(text, b" ", code)
}

/// Appends so many binary digits of a number.
fn print_binary(text: &mut Vec<u8>, width: u8, number: u32) -> Result<(), AllocError>
    ensures { OnOk result (text.new.items ≡ text.old.items ++ binary width number) }
{
    for k in 0..width {
        text.push(digit(number, width - 1 - k))?;
    }
    Ok(())
}

/// Returns the binary digit of a number at a place, counted from 0 for the least significant one.
fn digit(number: u32, place: u8) -> u8
    ensures { result ≡ 48 + number / 2 ^ place % 2 }
{
    if 32 <= place {
        return b'0';
    }
    b'0' + ((number >> place) % 2) as u8
}

/// Appends the lines of four data lanes.
fn print_lanes(text: &mut Vec<u8>, code: Code, lanes: &[Option<u8>]) -> Result<(), AllocError>
    ensures { OnOk result (text.new.items
        ≡ text.old.items ++ flat_map (lane_text code lanes.now) (range_with_len 0 4)) }
{
    for i in 0..4 {
        print_lane(text, code, lanes, i)?;
    }
    Ok(())
}

/// Appends the line of a data lane.
fn print_lane(text: &mut Vec<u8>, code: Code, lanes: &[Option<u8>], i: u8) -> Result<(), AllocError>
    requires { i < 4 }
    ensures { OnOk result (text.new.items ≡ text.old.items ++ lane_text code lanes.now i) }
{
    text.extend_from_slice(b"b")?;
    print_lane_digits(text, lane_in(lanes, i))?;
    text.extend_from_slice(b" ")?;
    print_part_end(text, code, i)
}

/// Returns the lane at an index; none carries nothing.
fn lane_in(lanes: &[Option<u8>], i: u8) -> Option<u8>
    ensures { result ≡ lane_found (slice_get lanes.now i) }
{
    match lanes.get(usize::from(i)) {
        Some(lane) => *lane,
        None => None,
    }
}

/// Appends the digits of a lane.
fn print_lane_digits(text: &mut Vec<u8>, lane: Option<u8>) -> Result<(), AllocError>
    ensures { OnOk result (text.new.items ≡ text.old.items ++ lane_digits lane) }
{
    match lane {
        Some(byte) => text.extend_from_slice(&byte_digits(byte)),
        None => text.extend_from_slice(b"z"),
    }
}

/// Appends the lines of BG0IN* to BG3IN*.
fn print_grants(text: &mut Vec<u8>, code: Code, bits: u8) -> Result<(), AllocError>
    ensures { OnOk result (text.new.items
        ≡ text.old.items ++ flat_map (grant_text code bits) (range_with_len 0 4)) }
{
    for level in 0..4 {
        print_grant(text, code, bits, level)?;
    }
    Ok(())
}

/// Appends the line of a grant line.
fn print_grant(text: &mut Vec<u8>, code: Code, bits: u8, level: u8) -> Result<(), AllocError>
    requires { level < 4 }
    ensures { OnOk result (text.new.items ≡ text.old.items ++ grant_text code bits level) }
{
    text.push(digit(u32::from(bits), level))?;
    print_part_end(text, code, level)
}

/// Appends the code of one of several lines with names of their own, and the end of its line.
fn print_part_end(text: &mut Vec<u8>, code: Code, part: u8) -> Result<(), AllocError>
    requires { part < 4 }
    ensures { OnOk result
        (text.new.items ≡ text.old.items ++ (code_text code ++ (48 + part) ∷ 10 ∷ [])) }
{
    print_code(text, code)?;
    text.extend_from_slice(&[b'0' + part, b'\n'])
}

/// Returns the digits of a byte.
#[rattlefmt::skip]
fn byte_digits(byte: u8) -> [u8; 8]
    ensures { result ≡ binary 8 byte }
{
    [
        b'0' + byte / 128 % 2, b'0' + byte / 64 % 2, b'0' + byte / 32 % 2, b'0' + byte / 16 % 2,
        b'0' + byte / 8 % 2, b'0' + byte / 4 % 2, b'0' + byte / 2 % 2, b'0' + byte / 1 % 2,
    ]
}

/// Appends the code of a variable.
pub(crate) fn print_code(text: &mut Vec<u8>, code: Code) -> Result<(), AllocError>
    ensures { OnOk result (text.new.items ≡ text.old.items ++ code_text code) }
{
    text.push(code.first)?;
    match code.second {
        Some(second) => text.extend_from_slice(&[second]),
        None => Ok(()),
    }
}

/// Appends the line of a time.
fn print_time(text: &mut Vec<u8>, time: u64) -> Result<(), AllocError>
    ensures { OnOk result (text.new.items ≡ text.old.items ++ time_text time) }
{
    text.extend_from_slice(b"#")?;
    print_number(text, time)?;
    text.extend_from_slice(b"\n")
}
