//! Which cycles a class of slave has.
ghost use Rattle.std.specs.Prelude.{◌≡◌, ◌≤◌, ℕ, List, length};
ghost use Rattle.vme_memory.specs.Boards.{Board};
ghost use Rattle.vme_memory.specs.Classes.{answers, answers_quads, is_block_place, is_modify_place};
ghost use Rattle.vme_answers.specs.Cycles.{has_cycle, has_block_cycle, has_datum, has_modify};

use vme_lanes::Location;
use vme_memory::{Class, Width8To32};

/// Whether a class has the cycle of a location.
fn answers(class: Class, location: Location) -> bool
    ensures { result ≡ answers class location }
{
    match location {
        Location::Byte0 | Location::Byte1 | Location::Byte2 | Location::Byte3 => true,
        Location::Bytes01 | Location::Bytes23 => class.width != Width8To32::D08,
        Location::Bytes03 => class.width == Width8To32::D32,
        Location::Bytes02 | Location::Bytes13 | Location::Bytes12 => {
            class.width == Width8To32::D32 && class.uat
        }
    }
}

/// Whether a class has the cycle of some bytes.
fn has_cycle(class: Class, at: u32, len: u8) -> bool
    ensures { result ≡ has_cycle class at len }
{
    match Location::of(at, len) {
        Some(location) => answers(class, location),
        None => false,
    }
}

/// Whether a class has the cycle of a datum of a block.
fn has_block_cycle(class: Class, at: u32, len: u8) -> bool
    ensures { result ≡ has_block_cycle class at len }
{
    if len == 8 {
        class.width == Width8To32::D32
    } else {
        has_cycle(class, at, len)
    }
}

/// Whether a datum of a block may be here.
fn is_block_place(at: u32, len: u8) -> bool
    ensures { result ≡ is_block_place at len }
{
    match len {
        1 => true,
        2 => at % 2 == 0,
        4 | 8 => at % 4 == 0,
        _ => false,
    }
}

/// Whether a read-modify-write may be here.
fn is_modify_place(at: u32, len: u8) -> bool
    ensures { result ≡ is_modify_place at len }
{
    match len {
        1 => true,
        2 => at % 2 == 0,
        4 => at % 4 == 0,
        _ => false,
    }
}

/// Whether a class has the datum of some bytes, of a block or not.
pub(crate) fn has_datum(class: Class, block: bool, at: u32, len: u8) -> bool
    ensures { result ≡ has_datum class block at len }
{
    if block {
        has_block_cycle(class, at, len) && is_block_place(at, len) && class.blt
    } else {
        has_cycle(class, at, len)
    }
}

/// Whether a class has the read-modify-write of some bytes.
pub(crate) fn has_modify(class: Class, at: u32, len: u8) -> bool
    ensures { result ≡ has_modify class at len }
{
    has_cycle(class, at, len) && is_modify_place(at, len) && class.rmw
}
