//! The text of a line.
ghost use Rattle.std.specs.Prelude.{◌≡◌, ◌≤◌, ◌<◌, ◌++◌, string_bytes, OnOk};
ghost use Rattle.vme_bus_log.specs.Lines.{access_line, access_text, answer_text, bytes_text, data_text, datum_line, direction_text, end_text, lane_text, lanes_text, level_text, levels_text, names_text, slot_text, time_text};

use crate::entry::{LogAccess, LogDatum};
use std::alloc::AllocError;
use std::fmt::Write;

/// Appends the line of a datum, with its end.
///
/// # Errors
///
/// An allocation failed.
#[tactic(auto, unfolding(crate::specs::Lines::datum_line))]
pub fn print_datum(datum: &LogDatum, to: &mut String) -> Result<(), AllocError>
    ensures { OnOk result (string_bytes to.new ≡ string_bytes to.old ++ datum_line datum.now) }
{
    print_time(datum.time, to)?;
    print_names(datum, to)?;
    print_levels(datum, to)?;
    print_data(datum, to)?;
    print_end(datum, to)
}

/// Appends the line of an access, with its end.
///
/// # Errors
///
/// An allocation failed.
#[tactic(auto, unfolding(crate::specs::Lines::access_line))]
pub fn print_access(access: &LogAccess, to: &mut String) -> Result<(), AllocError>
    ensures { OnOk result (string_bytes to.new ≡ string_bytes to.old ++ access_line access.now) }
{
    print_time(access.time, to)?;
    print_access_names(access, to)?;
    print_bytes(access.len, access.bytes, to)?;
    to.push_str("\n")
}

/// Appends a time, if there is one.
fn print_time(time: Option<u64>, to: &mut String) -> Result<(), AllocError>
    ensures { OnOk result (string_bytes to.new ≡ string_bytes to.old ++ time_text time) }
{
    match time {
        Some(time) => write!(to, "{time} "),
        None => Ok(()),
    }
}

/// Appends the number of a datum, its code and its address.
#[tactic(auto, unfolding(crate::specs::Lines::names_text))]
fn print_names(datum: &LogDatum, to: &mut String) -> Result<(), AllocError>
    ensures { OnOk result (string_bytes to.new ≡ string_bytes to.old ++ names_text datum.now) }
{
    let (index, am, address) = (datum.index, datum.am, datum.address);
    write!(to, "n={index} am={am:02x} a={address:08x}")
}

/// Appends the levels of a datum.
#[tactic(auto, unfolding(crate::specs::Lines::levels_text))]
fn print_levels(datum: &LogDatum, to: &mut String) -> Result<(), AllocError>
    ensures { OnOk result (string_bytes to.new ≡ string_bytes to.old ++ levels_text datum.now) }
{
    print_level(" ds1=", datum.ds1, to)?;
    print_level(" ds0=", datum.ds0, to)?;
    print_level(" a01=", datum.a01, to)?;
    print_level(" lword=", datum.lword, to)?;
    print_level(" write=", datum.write, to)
}

/// Appends a level after the name of its line.
fn print_level(name: &str, is_high: bool, to: &mut String) -> Result<(), AllocError>
    ensures { OnOk result (string_bytes to.new ≡ string_bytes to.old ++ level_text name.now is_high) }
{
    to.push_str(name)?;
    to.push_str(if is_high { "1" } else { "0" })
}

/// Appends the data lanes of a datum.
#[tactic(auto, unfolding(crate::specs::Lines::data_text))]
fn print_data(datum: &LogDatum, to: &mut String) -> Result<(), AllocError>
    ensures { OnOk result (string_bytes to.new ≡ string_bytes to.old ++ data_text datum.now) }
{
    to.push_str(" data=")?;
    print_lanes(datum, if datum.is_wide { 8 } else { 4 }, to)
}

/// Appends the digits of so many data lanes, from the highest to the lowest.
fn print_lanes(datum: &LogDatum, lanes: u32, to: &mut String) -> Result<(), AllocError>
    requires { lanes ≤ 8 }
    ensures { OnOk result (string_bytes to.new ≡ string_bytes to.old ++ lanes_text datum.now.lines datum.now.idle lanes) }
{
    if lanes == 0 {
        return Ok(());
    }
    let lane = lanes - 1;
    print_lane(datum, lane, to)?;
    print_lanes(datum, lane, to)
}

/// Appends the digits of a data lane, which counts from D07 to D00 up, or two dashes if one of its
/// lines carries nothing.
fn print_lane(datum: &LogDatum, lane: u32, to: &mut String) -> Result<(), AllocError>
    requires { lane < 8 }
    ensures { OnOk result (string_bytes to.new ≡ string_bytes to.old ++ lane_text datum.now.lines datum.now.idle lane) }
{
    let below = 8 * lane;
    if datum.idle >> below & 255 != 0 {
        return to.push_str("--");
    }
    let byte = datum.lines >> below & 255;
    write!(to, "{byte:02x}")
}

/// Appends the answer of a datum and the slot, to the end of the line.
#[tactic(auto, unfolding(crate::specs::Lines::end_text))]
fn print_end(datum: &LogDatum, to: &mut String) -> Result<(), AllocError>
    ensures { OnOk result (string_bytes to.new ≡ string_bytes to.old ++ end_text datum.now) }
{
    print_answer(datum.is_acknowledged, to)?;
    print_slot(datum.slot, to)?;
    to.push_str("\n")
}

/// Appends the answer of a datum.
fn print_answer(is_acknowledged: bool, to: &mut String) -> Result<(), AllocError>
    ensures { OnOk result (string_bytes to.new ≡ string_bytes to.old ++ answer_text is_acknowledged) }
{
    to.push_str(if is_acknowledged { " dtack" } else { " berr" })
}

/// Appends the slot that drives BBSY*, if it is known.
fn print_slot(slot: Option<u8>, to: &mut String) -> Result<(), AllocError>
    ensures { OnOk result (string_bytes to.new ≡ string_bytes to.old ++ slot_text slot) }
{
    match slot {
        Some(slot) => write!(to, " slot={slot}"),
        None => Ok(()),
    }
}

/// Appends the slot, the direction and the offset of an access.
#[tactic(auto, unfolding(crate::specs::Lines::access_text))]
fn print_access_names(access: &LogAccess, to: &mut String) -> Result<(), AllocError>
    ensures { OnOk result (string_bytes to.new ≡ string_bytes to.old ++ access_text access.now) }
{
    let (slot, offset) = (access.slot, access.offset);
    write!(to, "lp slot={slot} ")?;
    print_direction(access.is_write, to)?;
    write!(to, " {offset:08x} ")
}

/// Appends the direction of an access.
fn print_direction(is_write: bool, to: &mut String) -> Result<(), AllocError>
    ensures { OnOk result (string_bytes to.new ≡ string_bytes to.old ++ direction_text is_write) }
{
    to.push_str(if is_write { "w" } else { "r" })
}

/// Appends the bytes of an access by their number.
fn print_bytes(len: u8, bytes: u32, to: &mut String) -> Result<(), AllocError>
    ensures { OnOk result (string_bytes to.new ≡ string_bytes to.old ++ bytes_text len bytes) }
{
    match len {
        1 => write!(to, "{bytes:02x}"),
        2 => write!(to, "{bytes:04x}"),
        _ => write!(to, "{bytes:08x}"),
    }
}
