//! The texts of signals, outcomes, refusals and numbers, appended to a buffer. Each public function
//! appends its whole text, or leaves the buffer's text unchanged if an allocation fails.
ghost use Rattle.std.specs.Prelude.{◌≡◌, ◌+◌, ◌*◌, ◌<◌, ◌≤◌, ◌++◌, length, true, false, vec_len, vec_capacity, OnOk, OnErr, codes};
ghost use Rattle.std.specs.Fmt.{decimal};
ghost use Rattle.std.specs.Int.{w32, to_be_bytes};
ghost use Rattle.vme_lanes.specs.Rows.{row_of};
ghost use Rattle.vme_grammar.specs.Texts.{hex_byte, hex_text, level_text, lane_text, lanes_text, printed_lanes, address_text, strobes_text, signals_text, Read, Done, Old, Berr, more_bytes, outcome_text, cycle_fault_text, line_fault_text, output_line};

use crate::fault::LineFault;
use std::alloc::AllocError;
use vme_am::AmFault;
use vme_cycle::{CycleFault, Signals};
use vme_lanes::{DataLines, Location};

/// The two digits of each byte. A constant would be built anew at each use.
#[rattlefmt::skip]
static PAIRS: [[u8; 2]; 256] = [
    *b"00", *b"01", *b"02", *b"03", *b"04", *b"05", *b"06", *b"07", *b"08", *b"09", *b"0a", *b"0b", *b"0c", *b"0d", *b"0e", *b"0f",
    *b"10", *b"11", *b"12", *b"13", *b"14", *b"15", *b"16", *b"17", *b"18", *b"19", *b"1a", *b"1b", *b"1c", *b"1d", *b"1e", *b"1f",
    *b"20", *b"21", *b"22", *b"23", *b"24", *b"25", *b"26", *b"27", *b"28", *b"29", *b"2a", *b"2b", *b"2c", *b"2d", *b"2e", *b"2f",
    *b"30", *b"31", *b"32", *b"33", *b"34", *b"35", *b"36", *b"37", *b"38", *b"39", *b"3a", *b"3b", *b"3c", *b"3d", *b"3e", *b"3f",
    *b"40", *b"41", *b"42", *b"43", *b"44", *b"45", *b"46", *b"47", *b"48", *b"49", *b"4a", *b"4b", *b"4c", *b"4d", *b"4e", *b"4f",
    *b"50", *b"51", *b"52", *b"53", *b"54", *b"55", *b"56", *b"57", *b"58", *b"59", *b"5a", *b"5b", *b"5c", *b"5d", *b"5e", *b"5f",
    *b"60", *b"61", *b"62", *b"63", *b"64", *b"65", *b"66", *b"67", *b"68", *b"69", *b"6a", *b"6b", *b"6c", *b"6d", *b"6e", *b"6f",
    *b"70", *b"71", *b"72", *b"73", *b"74", *b"75", *b"76", *b"77", *b"78", *b"79", *b"7a", *b"7b", *b"7c", *b"7d", *b"7e", *b"7f",
    *b"80", *b"81", *b"82", *b"83", *b"84", *b"85", *b"86", *b"87", *b"88", *b"89", *b"8a", *b"8b", *b"8c", *b"8d", *b"8e", *b"8f",
    *b"90", *b"91", *b"92", *b"93", *b"94", *b"95", *b"96", *b"97", *b"98", *b"99", *b"9a", *b"9b", *b"9c", *b"9d", *b"9e", *b"9f",
    *b"a0", *b"a1", *b"a2", *b"a3", *b"a4", *b"a5", *b"a6", *b"a7", *b"a8", *b"a9", *b"aa", *b"ab", *b"ac", *b"ad", *b"ae", *b"af",
    *b"b0", *b"b1", *b"b2", *b"b3", *b"b4", *b"b5", *b"b6", *b"b7", *b"b8", *b"b9", *b"ba", *b"bb", *b"bc", *b"bd", *b"be", *b"bf",
    *b"c0", *b"c1", *b"c2", *b"c3", *b"c4", *b"c5", *b"c6", *b"c7", *b"c8", *b"c9", *b"ca", *b"cb", *b"cc", *b"cd", *b"ce", *b"cf",
    *b"d0", *b"d1", *b"d2", *b"d3", *b"d4", *b"d5", *b"d6", *b"d7", *b"d8", *b"d9", *b"da", *b"db", *b"dc", *b"dd", *b"de", *b"df",
    *b"e0", *b"e1", *b"e2", *b"e3", *b"e4", *b"e5", *b"e6", *b"e7", *b"e8", *b"e9", *b"ea", *b"eb", *b"ec", *b"ed", *b"ee", *b"ef",
    *b"f0", *b"f1", *b"f2", *b"f3", *b"f4", *b"f5", *b"f6", *b"f7", *b"f8", *b"f9", *b"fa", *b"fb", *b"fc", *b"fd", *b"fe", *b"ff",
];

/// Reserves capacity for `fixed` bytes and for two digits for each of `bytes`.
fn reserve_hex(text: &mut Vec<u8>, fixed: usize, bytes: &[u8]) -> Result<(), AllocError>
    ensures capacity { OnOk result
        (vec_len text.new + (fixed + 2 * length bytes.now) ≤ vec_capacity text.new) }
    ensures kept { text.new.items ≡ text.old.items }
{
    let digits = bytes.len().checked_mul(2).ok_or(AllocError)?;
    let capacity = fixed.checked_add(digits).ok_or(AllocError)?;
    text.reserve(capacity)
}

/// Appends a text for which there is capacity.
fn push_text(text: &mut Vec<u8>, more: &[u8])
    requires { vec_len text.old + length more.now ≤ vec_capacity text.old }
    ensures items { text.new.items ≡ text.old.items ++ more.now }
    ensures len { vec_len text.new ≡ vec_len text.old + length more.now }
    ensures capacity { vec_capacity text.old ≤ vec_capacity text.new }
{
    text.extend_from_slice(more).unwrap();
}

/// Appends two digits for each byte. There is capacity for them.
fn push_hex_bytes(text: &mut Vec<u8>, bytes: &[u8])
    requires { vec_len text.old + 2 * length bytes.now ≤ vec_capacity text.old }
    ensures items { text.new.items ≡ text.old.items ++ hex_text bytes.now }
    ensures len { vec_len text.new ≡ vec_len text.old + 2 * length bytes.now }
    ensures capacity { vec_capacity text.old ≤ vec_capacity text.new }
{
    for byte in bytes {
        push_text(text, &hex_digits(*byte));
    }
}

/// Appends two lower-case hexadecimal digits for each byte.
///
/// # Errors
///
/// `AllocError`: an allocation failed; the text is unchanged.
pub fn print_hex(text: &mut Vec<u8>, bytes: &[u8]) -> Result<(), AllocError>
    ensures text { OnOk result (text.new.items ≡ text.old.items ++ hex_text bytes.now) }
    ensures kept { OnErr result (text.new.items ≡ text.old.items) }
{
    reserve_hex(text, 0, bytes)?;
    push_hex_bytes(text, bytes);
    Ok(())
}

/// Appends a number in decimal.
///
/// # Errors
///
/// `AllocError`: an allocation failed; the text is unchanged.
pub fn print_number(text: &mut Vec<u8>, number: u64) -> Result<(), AllocError>
    ensures text { OnOk result (text.new.items ≡ text.old.items ++ decimal number) }
    ensures kept { OnErr result (text.new.items ≡ text.old.items) }
{
    let mut buffer = itoa::Buffer::new();
    text.extend_from_slice(buffer.format(number).as_bytes())
}

/// Returns the two hexadecimal digits of a byte.
fn hex_digits(byte: u8) -> [u8; 2]
    ensures { result ≡ hex_byte byte }
{
    PAIRS[usize::from(byte)]
}

/// The code, and the address lines as an address of eight digits, in one piece.
#[rattlefmt::skip]
#[tactic(auto, unfolding(crate::specs::Texts::address_text))]
fn address_text(code: u8, addr: u32) -> [u8; 16]
    ensures { result ≡ address_text code addr }
{
    let [high, low] = hex_digits(code);
    let [first, second, third, last] = addr.to_be_bytes();
    let (first, second) = (hex_digits(first), hex_digits(second));
    let (third, last) = (hex_digits(third), hex_digits(last));
    [
        b'a', b'm', b'=', high, low, b' ', b'a', b'=',
        first[0], first[1], second[0], second[1], third[0], third[1], last[0], last[1],
    ]
}

/// The levels of the data strobes, A01, LWORD* and WRITE* of a location, and the name of the data
/// lines after them, in one piece. `high` is the level of WRITE*.
#[tactic(auto, unfolding(crate::specs::Texts::strobes_text))]
fn levels_text(location: Location, high: bool) -> &'static [u8; 40]
    ensures { result.now ≡ strobes_text (row_of location).strobes
        ++ (level_text (codes " write=") high ++ codes " data=") }
{
    match (location, high) {
        (Location::Byte0, true) => b" ds1=0 ds0=1 a01=0 lword=1 write=1 data=",
        (Location::Byte0, false) => b" ds1=0 ds0=1 a01=0 lword=1 write=0 data=",
        (Location::Byte1, true) => b" ds1=1 ds0=0 a01=0 lword=1 write=1 data=",
        (Location::Byte1, false) => b" ds1=1 ds0=0 a01=0 lword=1 write=0 data=",
        (Location::Byte2, true) => b" ds1=0 ds0=1 a01=1 lword=1 write=1 data=",
        (Location::Byte2, false) => b" ds1=0 ds0=1 a01=1 lword=1 write=0 data=",
        (Location::Byte3, true) => b" ds1=1 ds0=0 a01=1 lword=1 write=1 data=",
        (Location::Byte3, false) => b" ds1=1 ds0=0 a01=1 lword=1 write=0 data=",
        (Location::Bytes01, true) => b" ds1=0 ds0=0 a01=0 lword=1 write=1 data=",
        (Location::Bytes01, false) => b" ds1=0 ds0=0 a01=0 lword=1 write=0 data=",
        (Location::Bytes23, true) => b" ds1=0 ds0=0 a01=1 lword=1 write=1 data=",
        (Location::Bytes23, false) => b" ds1=0 ds0=0 a01=1 lword=1 write=0 data=",
        (Location::Bytes03, true) => b" ds1=0 ds0=0 a01=0 lword=0 write=1 data=",
        (Location::Bytes03, false) => b" ds1=0 ds0=0 a01=0 lword=0 write=0 data=",
        (Location::Bytes02, true) => b" ds1=0 ds0=1 a01=0 lword=0 write=1 data=",
        (Location::Bytes02, false) => b" ds1=0 ds0=1 a01=0 lword=0 write=0 data=",
        (Location::Bytes13, true) => b" ds1=1 ds0=0 a01=0 lword=0 write=1 data=",
        (Location::Bytes13, false) => b" ds1=1 ds0=0 a01=0 lword=0 write=0 data=",
        (Location::Bytes12, true) => b" ds1=0 ds0=0 a01=1 lword=0 write=1 data=",
        (Location::Bytes12, false) => b" ds1=0 ds0=0 a01=1 lword=0 write=0 data=",
    }
}

/// Returns the two digits of a data lane, or two dashes if it carries nothing.
fn lane_digits(lane: Option<u8>) -> [u8; 2]
    ensures { result ≡ lane_text lane }
{
    match lane {
        Some(byte) => hex_digits(byte),
        None => *b"--",
    }
}

/// The digits of the last four data lanes.
#[rattlefmt::skip]
fn last_lanes(lines: DataLines) -> [u8; 8]
    ensures { result ≡ lanes_text (printed_lanes false lines.lanes) }
{
    let [_, _, _, _, first, second, third, last] = lines.lanes();
    let (first, second) = (lane_digits(first), lane_digits(second));
    let (third, last) = (lane_digits(third), lane_digits(last));
    [first[0], first[1], second[0], second[1], third[0], third[1], last[0], last[1]]
}

/// The digits of all eight data lanes.
#[rattlefmt::skip]
fn all_lanes(lines: DataLines) -> [u8; 16]
    ensures { result ≡ lanes_text (printed_lanes true lines.lanes) }
{
    let [first, second, third, fourth, fifth, sixth, seventh, last] = lines.lanes();
    let (first, second) = (lane_digits(first), lane_digits(second));
    let (third, fourth) = (lane_digits(third), lane_digits(fourth));
    let (fifth, sixth) = (lane_digits(fifth), lane_digits(sixth));
    let (seventh, last) = (lane_digits(seventh), lane_digits(last));
    [
        first[0], first[1], second[0], second[1], third[0], third[1], fourth[0], fourth[1],
        fifth[0], fifth[1], sixth[0], sixth[1], seventh[0], seventh[1], last[0], last[1],
    ]
}

/// Appends the digits of the data lanes: all eight with a code of eight-byte data, otherwise the
/// last four. There is capacity for them.
fn push_lanes(text: &mut Vec<u8>, wide: bool, lines: DataLines)
    requires { vec_len text.old + 16 ≤ vec_capacity text.old }
    ensures items { text.new.items ≡ text.old.items ++ lanes_text (printed_lanes wide lines.lanes) }
    ensures len { vec_len text.new ≤ vec_len text.old + 16 }
    ensures capacity { vec_capacity text.old ≤ vec_capacity text.new }
{
    if wide {
        push_text(text, &all_lanes(lines));
    } else {
        push_text(text, &last_lanes(lines));
    }
}

/// The greatest length in bytes of the line of a cycle's signals, its LF included.
const SIGNALS_LEN: usize = 73;

/// Appends the line of a cycle's signals: the code, the address, the levels of the data strobes,
/// A01, LWORD* and WRITE*, and the data lines.
///
/// The data lines are sixteen digits with a code of eight-byte data, otherwise the eight of the
/// last four data lanes; a data lane that carries nothing is `--`.
///
/// # Errors
///
/// `AllocError`: an allocation failed; the text is unchanged.
#[tactic(auto, unfolding(crate::specs::Texts::signals_text, crate::specs::Texts::levels_text, crate::specs::Texts::data_text))]
pub fn print_signals(text: &mut Vec<u8>, signals: &Signals) -> Result<(), AllocError>
    ensures text { OnOk result
        (text.new.items ≡ text.old.items ++ output_line (signals_text signals.now)) }
    ensures kept { OnErr result (text.new.items ≡ text.old.items) }
{
    text.reserve(SIGNALS_LEN)?;
    push_text(text, &address_text(signals.am().code(), signals.addr()));
    push_text(text, levels_text(signals.location(), signals.write()));
    push_lanes(text, signals.am().wide(), signals.lines());
    push_text(text, b"\n");
    Ok(())
}

/// Appends the line of a transfer that read `bytes`: `read` and the bytes.
///
/// # Errors
///
/// `AllocError`: an allocation failed; the text is unchanged.
#[tactic(auto, unfolding(crate::specs::Texts::outcome_text))]
pub fn print_read(text: &mut Vec<u8>, bytes: &[u8]) -> Result<(), AllocError>
    ensures text { OnOk result
        (text.new.items ≡ text.old.items ++ output_line (outcome_text (Read bytes.now))) }
    ensures kept { OnErr result (text.new.items ≡ text.old.items) }
{
    reserve_hex(text, 6, bytes)?;
    push_text(text, b"read ");
    push_hex_bytes(text, bytes);
    push_text(text, b"\n");
    Ok(())
}

/// Appends the line of a read-modify-write that found `bytes`: `old` and the bytes.
///
/// # Errors
///
/// `AllocError`: an allocation failed; the text is unchanged.
#[tactic(auto, unfolding(crate::specs::Texts::outcome_text))]
pub fn print_old(text: &mut Vec<u8>, bytes: &[u8]) -> Result<(), AllocError>
    ensures text { OnOk result
        (text.new.items ≡ text.old.items ++ output_line (outcome_text (Old bytes.now))) }
    ensures kept { OnErr result (text.new.items ≡ text.old.items) }
{
    reserve_hex(text, 5, bytes)?;
    push_text(text, b"old ");
    push_hex_bytes(text, bytes);
    push_text(text, b"\n");
    Ok(())
}

/// Appends the line of a transfer that wrote all its data: `done`.
///
/// # Errors
///
/// `AllocError`: an allocation failed; the text is unchanged.
#[tactic(auto, unfolding(crate::specs::Texts::outcome_text))]
pub fn print_done(text: &mut Vec<u8>) -> Result<(), AllocError>
    ensures text { OnOk result (text.new.items ≡ text.old.items ++ output_line (outcome_text Done)) }
    ensures kept { OnErr result (text.new.items ≡ text.old.items) }
{
    text.extend_from_slice(b"done\n")
}

/// Appends the line of a transfer that ended with a bus error after `count` data: `berr`, the count
/// in decimal, and the bytes that were read before, if any.
///
/// # Errors
///
/// `AllocError`: an allocation failed; the text is unchanged.
#[tactic(auto, unfolding(crate::specs::Texts::outcome_text))]
pub fn print_berr(text: &mut Vec<u8>, count: u16, bytes: &[u8]) -> Result<(), AllocError>
    ensures text { OnOk result
        (text.new.items ≡ text.old.items ++ output_line (outcome_text (Berr count bytes.now))) }
    ensures kept { OnErr result (text.new.items ≡ text.old.items) }
{
    let mut buffer = itoa::Buffer::new();
    let number = buffer.format(count).as_bytes();
    reserve_hex(text, 7 + number.len(), bytes)?;
    push_text(text, b"berr ");
    push_text(text, number);
    push_more_bytes(text, bytes);
    push_text(text, b"\n");
    Ok(())
}

/// Appends a space and the bytes, if there are any.
fn push_more_bytes(text: &mut Vec<u8>, bytes: &[u8])
    requires { vec_len text.old + (1 + 2 * length bytes.now) ≤ vec_capacity text.old }
    ensures items { text.new.items ≡ text.old.items ++ more_bytes bytes.now }
    ensures len { vec_len text.new ≤ vec_len text.old + (1 + 2 * length bytes.now) }
    ensures capacity { vec_capacity text.old ≤ vec_capacity text.new }
{
    if !bytes.is_empty() {
        push_text(text, b" ");
        push_hex_bytes(text, bytes);
    }
}

/// Appends the line of a refused request: `refused` and the number of the refusal, K1 to K9.
///
/// # Errors
///
/// `AllocError`: an allocation failed; the text is unchanged.
pub fn print_refusal(text: &mut Vec<u8>, fault: CycleFault) -> Result<(), AllocError>
    ensures text { OnOk result
        (text.new.items ≡ text.old.items ++ output_line (codes "refused " ++ cycle_fault_text fault)) }
    ensures kept { OnErr result (text.new.items ≡ text.old.items) }
{
    text.extend_from_slice(&refusal(fault))
}

/// Returns the line of a refused request.
fn refusal(fault: CycleFault) -> [u8; 11]
    ensures { result ≡ output_line (codes "refused " ++ cycle_fault_text fault) }
{
    match fault {
        CycleFault::Code(AmFault::TooLarge) => *b"refused K9\n",
        CycleFault::Code(AmFault::UserDefined) => *b"refused K2\n",
        CycleFault::Code(AmFault::Reserved) => *b"refused K1\n",
        CycleFault::WrongKindOfCode => *b"refused K5\n",
        CycleFault::ProgramModify => *b"refused K7\n",
        CycleFault::BadCount => *b"refused K8\n",
        CycleFault::OutsideSpace => *b"refused K4\n",
        CycleFault::NoCycle => *b"refused K3\n",
        CycleFault::CrossesBoundary => *b"refused K6\n",
    }
}

/// Appends the line of a refused line: `line refused` and the number of the refusal, S1 to S7 or
/// S9.
///
/// # Errors
///
/// `AllocError`: an allocation failed; the text is unchanged.
pub fn print_line_refusal(text: &mut Vec<u8>, fault: LineFault) -> Result<(), AllocError>
    ensures text { OnOk result (text.new.items
        ≡ text.old.items ++ output_line (codes "line refused " ++ line_fault_text fault)) }
    ensures kept { OnErr result (text.new.items ≡ text.old.items) }
{
    text.extend_from_slice(&line_refusal(fault))
}

/// Returns the line of a refused line.
fn line_refusal(fault: LineFault) -> [u8; 16]
    ensures { result ≡ output_line (codes "line refused " ++ line_fault_text fault) }
{
    match fault {
        LineFault::LineTooLong => *b"line refused S1\n",
        LineFault::UnknownWord => *b"line refused S2\n",
        LineFault::WordCount => *b"line refused S3\n",
        LineFault::BadCode => *b"line refused S4\n",
        LineFault::BadAddress => *b"line refused S5\n",
        LineFault::BadNumber => *b"line refused S6\n",
        LineFault::BadBytes => *b"line refused S7\n",
        LineFault::MailboxBytes => *b"line refused S9\n",
    }
}
