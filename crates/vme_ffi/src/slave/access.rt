//! Reads, writes and read-modify-writes of a slave at an offset, without the lines of a cycle. Some
//! functions are always inlined because reads and writes of the library for C call them: there a
//! read of four bytes takes 3.6 ns with them inlined, and 5.7 ns without (`bench/library`).
ghost use Rattle.std.specs.Prelude.{◌≡◌, ◌≢◌, ◌≤◌, ◌&&◌, ℕ, List, length, false, IsTrue, IfSome, IfNone};
ghost use Rattle.std.specs.Option.{option_map_or};
ghost use Rattle.vme_lanes.specs.Rows.{location_at};
ghost use Rattle.vme_memory.specs.Classes.{answers, is_block_place, is_modify_place};
ghost use Rattle.vme_memory.specs.declared.reply.Reply.TheVariants.{Bytes, Berr};
ghost use Rattle.vme_memory.specs.Steps as Steps;
ghost use Rattle.vme_memory.specs.Steps.{step, fits, can_answer, has_block_cycle, read_command, write_command};
ghost use Rattle.vme_ffi.specs.Slices.{board_of};

use crate::slave::bytes::{bytes_at, datum_of, fits, overwrite};
use vme_cycle::Modify;
use vme_memory::{Class, Reply, Width8To32};

/// The number of bytes of a datum on all eight lanes.
pub(crate) const WIDE_LEN: u8 = 8;

/// Returns the bytes of the reply to a read of `n` bytes at offset `at`, single or as one datum of
/// a block: IEEE 1014-1987, 2.3.6 (basic data transfer) and 2.3.7 (block transfer). `None` is a bus
/// error: the bytes are not within the slice, or the class does not have this cycle.
#[inline(always)]
pub(crate) fn bytes_read(bytes: &[u8], class: Class, block: bool, at: u32, n: u8) -> Option<&[u8]>
    ensures bytes { IfSome result (λ read. Bytes (record { items = read.now })
        ≡ (step (board_of bytes.now class) (read_command block at n)).0) }
    ensures berr { IfNone result (Berr ≡ (step (board_of bytes.now class) (read_command block at n)).0) }
    ensures short { IfSome result (λ read. length read.now ≤ 8) }
{
    if !reaches(bytes, class, block, at, n) {
        return None;
    }
    Some(bytes_at(bytes, at, n))
}

/// Returns the reply to a read of `n` bytes at offset `at`, single or as one datum of a block: IEEE
/// 1014-1987, 2.3.6 (basic data transfer) and 2.3.7 (block transfer). The reply is `Berr` if the
/// bytes are not within the slice, or if the class does not have this cycle.
pub(crate) fn read(bytes: &[u8], class: Class, block: bool, at: u32, n: u8) -> Reply
    ensures reply { result ≡ (step (board_of bytes.now class) (read_command block at n)).0 }
    ensures memory { board_of bytes.now class ≡ (step (board_of bytes.now class) (read_command block at n)).1 }
{
    match bytes_read(bytes, class, block, at, n) {
        Some(read) => Reply::Bytes(datum_of(read)),
        None => Reply::Berr,
    }
}

/// Returns the reply to a write of some bytes at offset `at`, single or as one datum of a block:
/// IEEE 1014-1987, 2.3.6 (basic data transfer) and 2.3.7 (block transfer). The reply is `Berr` if
/// the bytes are not within the slice, or if the class does not have this cycle. After `Berr`
/// nothing has changed.
#[inline(always)]
pub(crate) fn write(bytes: &mut [u8], class: Class, block: bool, at: u32, new: &[u8]) -> Reply
    requires short { length new.now ≤ 8 }
    ensures reply { result ≡ (step (board_of bytes.old class) (write_command block at new.now)).0 }
    ensures memory { board_of bytes.new class ≡ (step (board_of bytes.old class) (write_command block at new.now)).1 }
    ensures berr { result ≡ Reply.Berr → bytes.new ≡ bytes.old }
{
    if !reaches(bytes, class, block, at, new.len() as u8) {
        return Reply::Berr;
    }
    overwrite(bytes, at, new);
    Reply::Done
}

/// Returns the reply to a read-modify-write of `n` bytes at offset `at`, which has the old bytes:
/// IEEE 1014-1987, 2.3.8 (read-modify-write). The reply is `Berr` if the bytes are not within the
/// slice, if the class does not have this cycle, or if an operand of `f` does not have `n` bytes.
/// After `Berr` nothing has changed.
pub(crate) fn modify(bytes: &mut [u8], class: Class, at: u32, n: u8, f: &Modify) -> Reply
    ensures reply { result ≡ (step (board_of bytes.old class) (Steps.Modify at n f.now)).0 }
    ensures memory { board_of bytes.new class ≡ (step (board_of bytes.old class) (Steps.Modify at n f.now)).1 }
    ensures berr { result ≡ Reply.Berr → bytes.new ≡ bytes.old }
{
    let has_place = fits(bytes, at, n) && has_cycle(class, at, n) && is_whole_place(at, n);
    if !(has_place && class.rmw && f.has_len(n)) {
        return Reply::Berr;
    }
    let old = datum_of(bytes_at(bytes, at, n));
    let new = f.value(&old);
    overwrite(bytes, at, new.as_slice());
    Reply::Bytes(old)
}

/// Whether `n` bytes at an offset lie within a slice, and the class has the cycle of this datum,
/// single or in a block.
#[inline(always)]
fn reaches(bytes: &[u8], class: Class, block: bool, at: u32, n: u8) -> bool
    ensures reads { result ≡ can_answer (board_of bytes.now class) (read_command block at n) }
    ensures writes { (new : List ℕ) → length new ≡ n →
        result ≡ can_answer (board_of bytes.now class) (write_command block at new) }
    ensures short { IsTrue result → n ≤ 8 }
{
    if block {
        reaches_block(bytes, class, at, n)
    } else {
        fits(bytes, at, n) && has_cycle(class, at, n)
    }
}

/// Whether `n` bytes at an offset lie within a slice, and the class has the cycle of this datum of
/// a block.
fn reaches_block(bytes: &[u8], class: Class, at: u32, n: u8) -> bool
    ensures reaches { result ≡ (fits (board_of bytes.now class) at n && has_block_cycle (board_of bytes.now class) at n
        && is_block_place at n && class.blt) }
    ensures short { IsTrue result → n ≤ 8 }
{
    if !fits(bytes, at, n) || !class.blt {
        return false;
    }
    if n == WIDE_LEN {
        return class.width == Width8To32::D32 && at % 4 == 0;
    }
    has_cycle(class, at, n) && is_whole_place(at, n)
}

/// Whether a class has the cycle of `n` bytes at an offset.
#[tactic(auto, unfolding(vme_lanes::specs::Rows::location_at))]
fn has_cycle(class: Class, at: u32, n: u8) -> bool
    ensures cycle { result ≡ option_map_or (answers class) (location_at at n) false }
    ensures short { IsTrue result → n ≤ 4 }
{
    let place = at % 4;
    match n {
        1 => true,
        2 if place % 2 == 0 => class.width != Width8To32::D08,
        4 => class.width == Width8To32::D32 && place == 0,
        2 | 3 => class.width == Width8To32::D32 && class.uat && place + u32::from(n) <= 4,
        _ => false,
    }
}

/// Whether a datum of a block, or a read-modify-write, of `n` bytes may be at an offset.
fn is_whole_place(at: u32, n: u8) -> bool
    ensures block { n ≢ 8 → result ≡ is_block_place at n }
    ensures modify { result ≡ is_modify_place at n }
{
    match n {
        1 => true,
        2 => at % 2 == 0,
        4 => at % 4 == 0,
        _ => false,
    }
}
