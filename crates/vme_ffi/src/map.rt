//! The address decoder, over an array of entries that the caller holds.
ghost use Rattle.std.specs.Prelude.{◌≡◌, ◌↔◌, map, None, Some, IsOk, IfOk, IfErr, IfSome, IfNone};
ghost use Rattle.vme_am.specs.Codes.{read_code};
ghost use Rattle.vme_decode.specs.Lawful.{first_refusal};
ghost use Rattle.vme_decode.specs.Select.{selection_at};
ghost use Rattle.vme_c_types.specs.Boards.{entry_of};
ghost use Rattle.vme_c_types.specs.Results.{ok, no_board, code_refusal_number};
ghost use Rattle.vme_ffi.specs.Results.{map_result};

use vme_am::{Am, Space};
use vme_c_types::{NO_BOARD, OK, VmeEntry, code_refusal_number, entry_of, map_refusal_number};
use vme_decode::{Entry, MapFault, check};

/// The greatest number of entries of a map: one for each slot of a backplane.
const MOST_ENTRIES: usize = 21;

/// An entry that covers no address.
const EMPTY: Entry = Entry {
    space: Space::A32,
    base: 0,
    size: 0,
    supervisory: false,
};

/// The selected entry, and the offset in it.
#[repr(C)]
#[derive(Clone, Copy)]
pub struct VmeSelection {
    /// The index of the entry.
    pub place: usize,
    /// The offset of the address from the entry's base.
    pub offset: u32,
}

/// Checks that the entries are a lawful map.
#[tactic(auto, unfolding(vme_decode::specs::Lawful::first_refusal))]
fn check_entries(entries: &[VmeEntry]) -> Result<(), MapFault>
    ensures lawful { IsOk result ↔ (first_refusal (map entry_of entries.now) ≡ None) }
    ensures refused { IfErr result (λ fault. first_refusal (map entry_of entries.now) ≡ Some fault) }
{
    if entries.len() > MOST_ENTRIES {
        return Err(MapFault::TooMany);
    }
    let mut read = [EMPTY; MOST_ENTRIES];
    for (place, entry) in entries.iter().enumerate() {
        read[place] = entry_of(entry);
    }
    check(&read[..entries.len()])
}

/// Returns `OK` if the entries are a lawful map, and otherwise their first refusal: C1 to C4.
#[unsafe(no_mangle)]
pub extern "C" fn vme_map_check(entries: &[VmeEntry]) -> u8
    ensures { result ≡ map_result (first_refusal (map entry_of entries.now)) }
{
    match check_entries(entries) {
        Ok(()) => OK,
        Err(fault) => map_refusal_number(fault),
    }
}

/// The first entry that responds to a code and an address, and the offset in it.
fn selected(entries: &[VmeEntry], am: Am, addr: u32) -> Option<(usize, u32)>
    ensures { result ≡ selection_at (map entry_of entries.now) am addr }
{
    for (place, entry) in entries.iter().enumerate() {
        let entry = entry_of(entry);
        if entry.responds(am, addr) {
            return Some((place, addr - entry.base));
        }
    }
    None
}

/// Writes the first entry that responds to a code and the address of a first byte, and the offset
/// in it: IEEE 1014-1987, 2.3.5 (addressing). Returns `NO_BOARD` if no entry responds, and K1, K2
/// or K9 if the code has no row.
#[unsafe(no_mangle)]
pub extern "C" fn vme_map_select(
    entries: &[VmeEntry],
    am: u8,
    addr: u32,
    out: &mut VmeSelection,
) -> u8
    ensures found { IfOk (read_code am) (λ row. IfSome (selection_at (map entry_of entries.now) row addr) (λ found.
        (result ≡ ok) × (out.new.place ≡ found.0) × (out.new.offset ≡ found.1))) }
    ensures none { IfOk (read_code am) (λ row. IfNone (selection_at (map entry_of entries.now) row addr)
        ((result ≡ no_board) × (out.new ≡ out.old))) }
    ensures refused { IfErr (read_code am) (λ fault.
        (result ≡ code_refusal_number fault) × (out.new ≡ out.old)) }
{
    let am = match Am::from_code(am) {
        Ok(am) => am,
        Err(fault) => return code_refusal_number(fault),
    };
    let Some((place, offset)) = selected(entries, am, addr) else {
        return NO_BOARD;
    };
    *out = VmeSelection { place, offset };
    OK
}
