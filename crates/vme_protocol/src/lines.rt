ghost use Rattle.std.specs.Prelude.{◌≡◌, ◌+◌};
ghost use Rattle.vme_lanes.specs.Rows.{row_of};
ghost use Rattle.vme_protocol.specs.Lines.{space_lines, counted_lines, lanes_of, meet, moved, vague};

use crate::sample::Sample;
use vme_am::{Am, Space};
use vme_lanes::Location;

/// LWORD* in the lines of a sample.
pub(crate) const LWORD: u64 = 0x1_0000_0000;

/// A01 in the lines of a sample.
pub(crate) const A01: u64 = 0x2_0000_0000;

/// The distance of A02 from the lowest of the lines.
pub(crate) const BELOW_A02: u64 = 0x4_0000_0000;

/// The address lines that count in a space, and LWORD*.
fn space_lines(space: Space) -> u64
    ensures { result ≡ space_lines space }
{
    match space {
        Space::A16 => 0xffff_0000_0000,
        Space::A24 => 0xff_ffff_0000_0000,
        Space::A32 => 0xffff_ffff_0000_0000,
    }
}

/// The address lines that count with a code, and LWORD*; none with a code that has no space.
#[tactic(auto, unfolding(crate::specs::Lines::counted_lines))]
pub(crate) fn counted_lines(am: u8) -> u64
    ensures { result ≡ counted_lines am }
{
    match Am::from_code(am) {
        Ok(am) => space_lines(am.space()),
        Err(_) => 0,
    }
}

/// The data lines of a location.
pub(crate) fn lanes_of(location: Location) -> u64
    ensures { result ≡ lanes_of location }
{
    match location {
        Location::Byte0 | Location::Byte2 => 0xff00,
        Location::Byte1 | Location::Byte3 => 0xff,
        Location::Bytes01 | Location::Bytes23 => 0xffff,
        Location::Bytes03 => 0xffff_ffff,
        Location::Bytes02 => 0xffff_ff00,
        Location::Bytes13 => 0xff_ffff,
        Location::Bytes12 => 0xff_ff00,
    }
}

/// The first lane of a location, of eight.
pub(crate) fn lane_of(location: Location) -> u8
    ensures { result ≡ 4 + (row_of location).lane }
{
    match location {
        Location::Byte0 | Location::Byte2 | Location::Bytes01 | Location::Bytes23 => 6,
        Location::Byte1 | Location::Byte3 => 7,
        Location::Bytes03 | Location::Bytes02 => 4,
        Location::Bytes13 | Location::Bytes12 => 5,
    }
}

/// Whether two sets of lines have one in common.
pub(crate) fn meet(a: u64, b: u64) -> bool
    ensures { result ≡ meet a b }
{
    a & b != 0
}

/// The lines that are undefined in one of two samples.
pub(crate) fn vague(before: &Sample, after: &Sample) -> u64
    ensures { result ≡ vague before.now after.now }
{
    before.lines_undefined | after.lines_undefined
}

/// The lines that are defined in two samples, and have other levels.
pub(crate) fn moved(before: &Sample, after: &Sample) -> u64
    ensures { result ≡ moved before.now after.now }
{
    let vague = vague(before, after);
    ((before.lines ^ after.lines) | vague) ^ vague
}
