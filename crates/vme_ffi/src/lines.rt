//! The lines of a cycle.
ghost use Rattle.std.specs.Prelude.{◌≡◌, ◌%◌, ◌<◌, ◌≤◌, length, IsTrue, IsFalse, IfSome, IfNone};
ghost use Rattle.vme_am.specs.Spaces.{addresses_of};
ghost use Rattle.vme_cycle.specs.SignalLines.{answered_lines};
ghost use Rattle.vme_c_types.specs.Data.{datum_of};
ghost use Rattle.vme_ffi.specs.Lines.{sensed, cycle_shown, selects, lines_struct, Shows};
ghost use Rattle.vme_c_types.specs.Results.{ok, bad_call};
ghost use Rattle.vme_ffi.specs.Results.{bad_lines};

use crate::levels::{lane_numbers, lanes_of, level_number};
use crate::results::BAD_LINES;
use crate::tables::{VmeStrobes, strobes_from, strobes_of};
use vme_am::Am;
use vme_c_types::{BAD_CALL, OK, VmeDatum, datum_of, level_of};
use vme_cycle::Signals;
use vme_lanes::DataLines;

/// The lines of one cycle: IEEE 1014-1987, 2.2 (data transfer bus lines).
#[repr(C)]
#[derive(Clone, Copy)]
pub struct VmeLines {
    /// The address lines from A02 up, as the address of a group of four.
    pub addr: u32,
    /// The address modifier code.
    pub am: u8,
    /// WRITE*: low for a write.
    pub write: u8,
    /// DS1*, DS0*, A01 and LWORD*.
    pub strobes: VmeStrobes,
    /// What the lanes carry, from D63-D56 on: a byte each, or nothing if the number is above 255.
    /// The data lines are the last four.
    pub lanes: [u16; 8],
}

/// The signals of a cycle, if the lines show one: the code has a row, the address is a multiple of
/// four in its space, and the strobes select bytes.
pub(crate) fn signals_of(lines: &VmeLines) -> Option<Signals>
    ensures { result ≡ cycle_shown lines.now }
{
    match Am::from_code(lines.am) {
        Ok(am) if lines.addr % 4 == 0 && u64::from(lines.addr) < am.space().addresses() => {
            sensed(lines, am)
        }
        _ => None,
    }
}

/// The signals of a cycle with an address modifier, if the strobes select bytes.
fn sensed(lines: &VmeLines, am: Am) -> Option<Signals>
    requires aligned { lines.now.addr % 4 ≡ 0 }
    requires in_space { lines.now.addr < addresses_of am.space }
    ensures { result ≡ sensed lines.now am }
{
    let data = DataLines::of(lanes_of(&lines.lanes));
    let write = level_of(lines.write);
    Signals::from_lines(am, lines.addr, strobes_of(&lines.strobes), write, data)
}

/// The struct that shows some signals.
pub(crate) fn lines_from(signals: &Signals) -> VmeLines
    ensures shows { Shows result signals.now }
    ensures exact { result ≡ lines_struct signals.now }
{
    VmeLines {
        addr: signals.addr(),
        am: signals.am().code(),
        write: level_number(signals.write()),
        strobes: strobes_from(signals.strobes()),
        lanes: lane_numbers(&signals.lines().lanes()),
    }
}

/// Whether code and strobes select as many bytes as there are.
fn selects(signals: &Signals, bytes: &[u8]) -> bool
    requires { length bytes.now ≤ 8 }
    ensures { result ≡ selects signals.now bytes.now }
{
    let len = usize::from(signals.location().len());
    if signals.am().wide() {
        len == 4 && bytes.len() == 8
    } else {
        bytes.len() == len
    }
}

/// Puts the bytes that a slave replied to a read on the lanes that code and strobes select: IEEE
/// 1014-1987, 2.2.3 (data lines). Returns `BAD_LINES` if the lines show no cycle, and `BAD_CALL` if
/// they select another number of bytes.
#[unsafe(no_mangle)]
pub extern "C" fn vme_lines_answer(lines: &mut VmeLines, datum: &VmeDatum) -> u8
    ensures answered { IfSome (cycle_shown lines.old) (λ s. IsTrue (selects s (datum_of datum.now)) →
        (result ≡ ok) × Shows lines.new (answered_lines s (datum_of datum.now))) }
    ensures exact { IfSome (cycle_shown lines.old) (λ s. IsTrue (selects s (datum_of datum.now)) →
        lines.new ≡ lines_struct (answered_lines s (datum_of datum.now))) }
    ensures other_len { IfSome (cycle_shown lines.old) (λ s. IsFalse (selects s (datum_of datum.now)) →
        (result ≡ bad_call) × (lines.new ≡ lines.old)) }
    ensures no_cycle { IfNone (cycle_shown lines.old) ((result ≡ bad_lines) × (lines.new ≡ lines.old)) }
{
    let Some(signals) = signals_of(lines) else {
        return BAD_LINES;
    };
    let datum = datum_of(datum);
    if !selects(&signals, datum.as_slice()) {
        return BAD_CALL;
    }
    *lines = lines_from(&signals.answered(datum.as_slice()));
    OK
}
