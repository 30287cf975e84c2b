//! The tables of address modifiers and of byte locations.
ghost use Rattle.std.specs.Prelude.{◌≡◌, IfSome, IfNone, IfOk, IfErr};
ghost use Rattle.vme_am.specs.Codes.{read_code};
ghost use Rattle.vme_lanes.specs.Rows.{row_of, location_at, location_sensed};
ghost use Rattle.vme_c_types.specs.Data.{level_of};
ghost use Rattle.vme_ffi.specs.Tables.{space_number, kind_number, strobes_of, strobes_struct, am_struct};
ghost use Rattle.vme_c_types.specs.Results.{ok, code_refusal_number, refusal_number};
ghost use Rattle.vme_ffi.specs.Results.{bad_lines};
ghost use Rattle.vme_cycle.specs.declared.fault.CycleFault.TheVariants.{NoCycle};

use crate::levels::level_number;
use crate::results::BAD_LINES;
use vme_am::{Am, Kind, Space};
use vme_c_types::{NO_CYCLE, OK, code_refusal_number, level_of};
use vme_lanes::{Location, Strobes};

/// The row of an address modifier code: IEEE 1014-1987, 2.2.2 (address modifier lines).
#[repr(C)]
#[derive(Clone, Copy)]
pub struct VmeAm {
    /// The number of address lines that count: 16, 24 or 32.
    pub space: u8,
    /// 1: data access. 2: program access. 3: block access. 4: short access.
    pub kind: u8,
    /// Whether the code is supervisory.
    pub supervisory: u8,
    /// Whether a datum has eight bytes.
    pub wide: u8,
}

/// The levels of the lines that select byte locations, 0 for low: IEEE 1014-1987, 2.2.1 (addressing
/// lines).
#[repr(C)]
#[derive(Clone, Copy)]
pub struct VmeStrobes {
    /// DS1*.
    pub ds1: u8,
    /// DS0*.
    pub ds0: u8,
    /// A01.
    pub a01: u8,
    /// LWORD*.
    pub lword: u8,
}

/// The bytes of a group of four that a cycle reaches.
#[repr(C)]
#[derive(Clone, Copy)]
pub struct VmePlace {
    /// The place of the first byte in the group, 0 to 3.
    pub first: u8,
    /// The number of bytes.
    pub n: u8,
}

/// The number of address lines that count in a space.
fn space_number(space: Space) -> u8
    ensures { result ≡ space_number space }
{
    match space {
        Space::A16 => 16,
        Space::A24 => 24,
        Space::A32 => 32,
    }
}

/// The number of a kind of access.
fn kind_number(kind: Kind) -> u8
    ensures { result ≡ kind_number kind }
{
    match kind {
        Kind::DataAccess => 1,
        Kind::ProgramAccess => 2,
        Kind::BlockAccess => 3,
        Kind::ShortAccess => 4,
    }
}

/// The levels of the strobes.
pub(crate) fn strobes_of(strobes: &VmeStrobes) -> Strobes
    ensures { result ≡ strobes_of strobes.now }
{
    Strobes {
        ds1: level_of(strobes.ds1),
        ds0: level_of(strobes.ds0),
        a01: level_of(strobes.a01),
        lword: level_of(strobes.lword),
    }
}

/// The struct of the levels of the strobes.
pub(crate) fn strobes_from(strobes: Strobes) -> VmeStrobes
    ensures strobes { strobes_of result ≡ strobes }
    ensures exact { result ≡ strobes_struct strobes }
{
    VmeStrobes {
        ds1: level_number(strobes.ds1),
        ds0: level_number(strobes.ds0),
        a01: level_number(strobes.a01),
        lword: level_number(strobes.lword),
    }
}

/// Writes the row of an address modifier code: IEEE 1014-1987, 2.2.2 (address modifier lines).
/// Returns K1, K2 or K9 if the code has none.
#[unsafe(no_mangle)]
pub extern "C" fn vme_am_read(code: u8, out: &mut VmeAm) -> u8
    ensures row { IfOk (read_code code) (λ row. (result ≡ ok)
        × (out.new.space ≡ space_number row.space) × (out.new.kind ≡ kind_number row.kind)
        × (level_of out.new.supervisory ≡ row.supervisory) × (level_of out.new.wide ≡ row.wide)) }
    ensures exact { IfOk (read_code code) (λ row. out.new ≡ am_struct row) }
    ensures refused { IfErr (read_code code) (λ fault. (result ≡ code_refusal_number fault) × (out.new ≡ out.old)) }
{
    match Am::from_code(code) {
        Ok(am) => {
            *out = VmeAm {
                space: space_number(am.space()),
                kind: kind_number(am.kind()),
                supervisory: level_number(am.is_supervisory()),
                wide: level_number(am.wide()),
            };
            OK
        }
        Err(fault) => code_refusal_number(fault),
    }
}

/// Writes the strobes of `n` bytes that begin at an address: IEEE 1014-1987, 2.2.1 (addressing
/// lines). Returns K3 if no single cycle reaches these bytes.
#[unsafe(no_mangle)]
pub extern "C" fn vme_strobes_drive(addr: u32, n: u8, out: &mut VmeStrobes) -> u8
    ensures found { IfSome (location_at addr n) (λ l. (result ≡ ok) × (strobes_of out.new ≡ (row_of l).strobes)) }
    ensures exact { IfSome (location_at addr n) (λ l. out.new ≡ strobes_struct (row_of l).strobes) }
    ensures none { IfNone (location_at addr n) ((result ≡ refusal_number NoCycle) × (out.new ≡ out.old)) }
{
    let Some(location) = Location::of(addr, n) else {
        return NO_CYCLE;
    };
    *out = strobes_from(Strobes::of(location));
    OK
}

/// Writes the place and the number of the bytes that a slave senses from the strobes: IEEE
/// 1014-1987, 2.2.1 (addressing lines). Returns `BAD_LINES` if they select none.
#[unsafe(no_mangle)]
pub extern "C" fn vme_strobes_sense(strobes: &VmeStrobes, out: &mut VmePlace) -> u8
    ensures found { IfSome (location_sensed (strobes_of strobes.now)) (λ l. (result ≡ ok)
        × (out.new.first ≡ (row_of l).first) × (out.new.n ≡ (row_of l).len)) }
    ensures none { IfNone (location_sensed (strobes_of strobes.now)) ((result ≡ bad_lines) × (out.new ≡ out.old)) }
{
    let Some(location) = Location::sense(strobes_of(strobes)) else {
        return BAD_LINES;
    };
    *out = VmePlace {
        first: location.first(),
        n: location.len(),
    };
    OK
}
