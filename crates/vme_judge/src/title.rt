//! What is wrong at a sample, as text.
ghost use Rattle.std.specs.Prelude.{◌≡◌, ◌++◌, codes, string_bytes, OnOk};
ghost use Rattle.std.specs.Fmt.{decimal};
ghost use Rattle.vme_judge.specs.Messages.{access_text, among_text, answer_text, bytes_text, asked_text, byte_text, datum_text, drivers_of, holders_text, is_of_bytes, known_text, lane_text, lanes_text, memory_text, offset_text, order_text, reader_text, reading_text, title_text, two_holders_text, undefined_text};

use crate::finding::{Asked, Broken, Finding};
use std::alloc::AllocError;
use std::fmt::Write;
use vme_answers::Wrong;
use vme_protocol::{Datum, Local, Rule, Sample};
use vme_vcd_reader::ControlLine;

/// Appends what is wrong.
///
/// # Errors
///
/// An allocation failed.
pub(crate) fn write_title(finding: &Finding, to: &mut String) -> Result<(), AllocError>
    ensures { OnOk result (string_bytes to.new ≡ string_bytes to.old ++ title_text finding.now finding.now.broken) }
{
    match &finding.broken {
        Broken::Order(rule) => write_order(finding, *rule, to),
        Broken::Port(rule, slot) => write_of_slot(*slot, rule.text(), to),
        Broken::Answer(wrong, asked, slot) => write_answer(wrong, asked, *slot, to),
    }
}

/// Appends a slot and what is wrong with it.
fn write_of_slot(slot: u8, text: &str, to: &mut String) -> Result<(), AllocError>
    ensures { OnOk result (
        string_bytes to.new ≡ string_bytes to.old ++ (codes "slot " ++ decimal slot ++ codes ": " ++ text.now)) }
{
    write!(to, "slot {slot}: {text}")
}

/// Appends what is wrong by the order of samples.
fn write_order(finding: &Finding, rule: Rule, to: &mut String) -> Result<(), AllocError>
    ensures { OnOk result (string_bytes to.new ≡ string_bytes to.old ++ order_text finding.now rule) }
{
    match rule {
        Rule::TwoHolders => write_holders(drivers_of(&finding.samples), to),
        Rule::Undefined => write_undefined(finding.undefined, to),
        rule => to.push_str(rule.text()),
    }
}

/// Appends which line is undefined, if it is known.
fn write_undefined(line: Option<ControlLine>, to: &mut String) -> Result<(), AllocError>
    ensures { OnOk result (string_bytes to.new ≡ string_bytes to.old ++ undefined_text line) }
{
    match line {
        Some(line) => write_undefined_line(line.name(), to),
        None => to.push_str(Rule::Undefined.text()),
    }
}

/// Appends that a line is undefined.
fn write_undefined_line(name: &str, to: &mut String) -> Result<(), AllocError>
    ensures { OnOk result (string_bytes to.new ≡ string_bytes to.old ++ (name.now ++ codes " is undefined")) }
{
    write!(to, "{name} is undefined")
}

/// The slots that drive BBSY* at the sample of a finding.
fn drivers_of(samples: &Option<(Sample, Sample)>) -> u32
    ensures { result ≡ drivers_of samples.now }
{
    match samples {
        Some((_, after)) => after.drivers,
        None => 0,
    }
}

/// Appends which slots hold the bus.
fn write_holders(drivers: u32, to: &mut String) -> Result<(), AllocError>
    ensures { OnOk result (string_bytes to.new ≡ string_bytes to.old ++ holders_text drivers) }
{
    let others = drivers & drivers.saturating_sub(1);
    if others == 0 {
        return to.push_str(Rule::TwoHolders.text());
    }
    let first = u64::from(drivers.trailing_zeros()) + 1;
    let second = u64::from(others.trailing_zeros()) + 1;
    write_two_holders(first, second, to)
}

/// Appends that two slots hold the bus.
#[tactic(auto, unfolding(crate::specs::Messages::two_holders_text))]
fn write_two_holders(first: u64, second: u64, to: &mut String) -> Result<(), AllocError>
    ensures { OnOk result (string_bytes to.new ≡ string_bytes to.old ++ two_holders_text first second) }
{
    write!(to, "slots {first} and {second} drive BBSY* at once")
}

/// Appends what is wrong with an answer.
fn write_answer(
    wrong: &Wrong,
    asked: &Asked,
    slot: Option<u8>,
    to: &mut String,
) -> Result<(), AllocError>
    ensures { OnOk result (string_bytes to.new ≡ string_bytes to.old ++ answer_text wrong.now asked.now slot) }
{
    let Some(slot) = slot else {
        return to.push_str(wrong.rule.text());
    };
    if !is_of_bytes(wrong.rule) {
        return write_of_slot(slot, wrong.rule.text(), to);
    }
    write_reading(wrong, asked, slot, to)
}

/// Appends the bytes that a board reads, and those that its memory has.
#[tactic(auto, unfolding(crate::specs::Messages::reading_text))]
fn write_reading(wrong: &Wrong, asked: &Asked, slot: u8, to: &mut String) -> Result<(), AllocError>
    ensures { OnOk result (string_bytes to.new ≡ string_bytes to.old ++ reading_text wrong.now asked.now slot) }
{
    write_reader(slot, to)?;
    write_bytes(asked, to)?;
    write_offset(wrong.offset, to)?;
    write_memory(wrong, to)
}

/// Appends the slot of a board that reads.
#[tactic(auto, unfolding(crate::specs::Messages::reader_text))]
fn write_reader(slot: u8, to: &mut String) -> Result<(), AllocError>
    ensures { OnOk result (string_bytes to.new ≡ string_bytes to.old ++ reader_text slot) }
{
    write!(to, "the board of slot {slot} reads ")
}

/// Appends the offset of what a board reads.
#[tactic(auto, unfolding(crate::specs::Messages::offset_text))]
fn write_offset(offset: u32, to: &mut String) -> Result<(), AllocError>
    ensures { OnOk result (string_bytes to.new ≡ string_bytes to.old ++ offset_text offset) }
{
    write!(to, " at offset {offset:08x}")
}

/// Appends the bytes that the memory of a board has.
#[tactic(auto, unfolding(crate::specs::Messages::memory_text))]
fn write_memory(wrong: &Wrong, to: &mut String) -> Result<(), AllocError>
    ensures { OnOk result (string_bytes to.new ≡ string_bytes to.old ++ memory_text wrong.now) }
{
    to.push_str(", where its memory has ")?;
    write_known(wrong, to)
}

/// Appends the bytes that an access has.
///
/// # Errors
///
/// An allocation failed.
pub(crate) fn write_bytes(asked: &Asked, to: &mut String) -> Result<(), AllocError>
    ensures { OnOk result (string_bytes to.new ≡ string_bytes to.old ++ asked_text asked.now) }
{
    match asked {
        Asked::Datum(datum) => write_datum(datum, to),
        Asked::Access(access) => write_access(access, to),
    }
}

/// Appends the bytes of a local access.
fn write_access(access: &Local, to: &mut String) -> Result<(), AllocError>
    ensures { OnOk result (string_bytes to.new ≡ string_bytes to.old ++ access_text access.now.len access.now.data) }
{
    let bytes = access.data;
    match access.len {
        1 => write!(to, "{bytes:02x}"),
        2 => write!(to, "{bytes:04x}"),
        _ => write!(to, "{bytes:08x}"),
    }
}

/// Appends the bytes of a datum, in order of address.
fn write_datum(datum: &Datum, to: &mut String) -> Result<(), AllocError>
    ensures { OnOk result (string_bytes to.new ≡ string_bytes to.old ++ datum_text datum.now) }
{
    let low = usize::from(datum.lane);
    let high = low + usize::from(datum.len);
    write_lanes(&datum.lines.to_be_bytes(), low, high, to)
}

/// Appends the bytes at the lanes from one on to before another.
fn write_lanes(bytes: &[u8], low: usize, high: usize, to: &mut String) -> Result<(), AllocError>
    ensures { OnOk result (string_bytes to.new ≡ string_bytes to.old ++ lanes_text 0 low high bytes.now) }
{
    for (index, byte) in bytes.iter().enumerate() {
        write_lane(*byte, low <= index && index < high, to)?;
    }
    Ok(())
}

/// Appends a byte, if it is among those that are shown.
fn write_lane(byte: u8, is_among: bool, to: &mut String) -> Result<(), AllocError>
    ensures { OnOk result (string_bytes to.new ≡ string_bytes to.old ++ lane_text is_among byte) }
{
    if is_among {
        write!(to, "{byte:02x}")
    } else {
        Ok(())
    }
}

/// Appends what was known of the bytes of an access.
///
/// # Errors
///
/// An allocation failed.
pub(crate) fn write_known(wrong: &Wrong, to: &mut String) -> Result<(), AllocError>
    ensures { OnOk result (string_bytes to.new ≡ string_bytes to.old ++ known_text wrong.now) }
{
    write_first(&wrong.known, usize::from(wrong.len), to)
}

/// Appends what is known of the first bytes.
fn write_first(known: &[Option<u8>], end: usize, to: &mut String) -> Result<(), AllocError>
    ensures { OnOk result (string_bytes to.new ≡ string_bytes to.old ++ bytes_text 0 end known.now) }
{
    for (index, byte) in known.iter().enumerate() {
        write_among(*byte, index < end, to)?;
    }
    Ok(())
}

/// Appends what is known of a byte, if it is among those that are shown.
fn write_among(byte: Option<u8>, is_among: bool, to: &mut String) -> Result<(), AllocError>
    ensures { OnOk result (string_bytes to.new ≡ string_bytes to.old ++ among_text is_among byte) }
{
    if is_among {
        write_byte(byte, to)
    } else {
        Ok(())
    }
}

/// Appends what is known of a byte.
fn write_byte(byte: Option<u8>, to: &mut String) -> Result<(), AllocError>
    ensures { OnOk result (string_bytes to.new ≡ string_bytes to.old ++ byte_text byte) }
{
    match byte {
        Some(byte) => write!(to, "{byte:02x}"),
        None => to.push_str("--"),
    }
}

/// Whether a rule is that of the bytes that a board reads.
pub(crate) fn is_of_bytes(rule: Rule) -> bool
    ensures { result ≡ is_of_bytes rule }
{
    matches!(rule, Rule::WrongBytes)
}
