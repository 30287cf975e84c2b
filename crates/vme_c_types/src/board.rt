//! Boards and the kind of their arbiter, as C has them.
ghost use Rattle.std.specs.Prelude.{◌≡◌};
ghost use Rattle.vme_c_types.specs.Boards.{space_of, entry_of, class_of, kind_of};

use crate::datum::level_of;
use vme_am::Space;
use vme_arbiter::ArbiterKind;
use vme_decode::Entry;
use vme_memory::{Class, Width8To32};

/// The addresses at which one board responds: IEEE 1014-1987, 2.3.5 (addressing).
#[repr(C)]
#[derive(Clone, Copy)]
pub struct VmeEntry {
    /// The first address.
    pub base: u32,
    /// The number of bytes. An entry of size 0 covers no address.
    pub size: u32,
    /// The address space: 16, 24 or 32. Another number counts as the next one below, or as 16.
    pub space: u8,
    /// Whether only supervisory codes are admitted.
    pub supervisory: u8,
}

/// The cycles to which the slave of a board replies.
#[repr(C)]
#[derive(Clone, Copy)]
pub struct VmeClass {
    /// The data width: 8 is D08(EO), 16 is D16 and 32 is D32. Another number counts as the next one
    /// below, or as 8.
    pub width: u8,
    /// Unaligned cycles.
    pub uat: u8,
    /// Block transfers.
    pub blt: u8,
    /// Read-modify-write cycles.
    pub rmw: u8,
}

/// The address space that a number selects: 16, 24 or 32, or the next one below.
fn space_of(number: u8) -> Space
    ensures { result ≡ space_of number }
{
    if number < 24 {
        Space::A16
    } else if number < 32 {
        Space::A24
    } else {
        Space::A32
    }
}

/// The entry of a board in an address map.
pub fn entry_of(entry: &VmeEntry) -> Entry
    ensures { result ≡ entry_of entry.now }
{
    Entry {
        space: space_of(entry.space),
        base: entry.base,
        size: entry.size,
        supervisory: level_of(entry.supervisory),
    }
}

/// The class of a board.
pub fn class_of(class: &VmeClass) -> Class
    ensures { result ≡ class_of class.now }
{
    let width = if class.width < 16 {
        Width8To32::D08
    } else if class.width < 32 {
        Width8To32::D16
    } else {
        Width8To32::D32
    };
    Class {
        width,
        uat: level_of(class.uat),
        blt: level_of(class.blt),
        rmw: level_of(class.rmw),
    }
}

/// The kind of arbiter that a number selects: 0 is priority (PRI), every other number rotating
/// (RRS).
pub fn kind_of(kind: u8) -> ArbiterKind
    ensures { result ≡ kind_of kind }
{
    if kind == 0 {
        ArbiterKind::Priority
    } else {
        ArbiterKind::Rotating
    }
}
