//! The reply of a slave to a cycle of the data transfer bus.
ghost use Rattle.std.specs.Prelude.{◌≡◌};
ghost use Rattle.std.specs.Option.{option_map};
ghost use Rattle.vme_memory.specs.Steps.{answer, driven_write, wide_command, cycle};
ghost use Rattle.vme_ffi.specs.Slices.{board_of};

use crate::slave::access::{WIDE_LEN, modify, read, write};
use vme_cycle::{Modify, Signals};
use vme_lanes::{DataLines, Location, pick, pick_wide};
use vme_memory::{Class, Reply};

/// Returns the reply to the cycle that the signals show, with its first byte at offset `at` and the
/// function of a read-modify-write: IEEE 1014-1987, 2.3.6 (basic data transfer) to 2.3.9 (unaligned
/// transfer). The reply is `Berr` if the class does not have the cycle, if its bytes are not within
/// the slice, or if `at` modulo four is not the place of the first byte that the strobes select.
/// After `Berr` nothing has changed.
///
/// In a block, this is one datum: the slave increments the address and takes A01 from `at`. A
/// read-modify-write shows its read half, and the reply has the old bytes.
#[tactic(auto, unfolding(vme_memory::specs::Steps::cycle))]
pub(crate) fn cycle(
    bytes: &mut [u8],
    class: Class,
    signals: &Signals,
    at: u32,
    f: Option<&Modify>,
) -> Reply
    ensures reply { result ≡ (cycle (board_of bytes.old class) signals.now at (option_map (λ f. f.now) f.entry)).0 }
    ensures memory { board_of bytes.new class
        ≡ (cycle (board_of bytes.old class) signals.now at (option_map (λ f. f.now) f.entry)).1 }
    ensures berr { result ≡ Reply.Berr → bytes.new ≡ bytes.old }
{
    let Some(location) = signals.sensed_at(at) else {
        return Reply::Berr;
    };
    if u32::from(location.first()) != at % 4 {
        return Reply::Berr;
    }
    if signals.am().wide() {
        return wide_cycle(bytes, class, signals, location, at, f);
    }
    let block = signals.am().kind().is_block();
    let n = location.len();
    match (block, signals.write(), f) {
        (_, true, None) => read(bytes, class, block, at, n),
        (_, false, None) => drive(bytes, class, block, location, at, signals.lines()),
        (false, true, Some(f)) => modify(bytes, class, at, n, f),
        (_, _, Some(_)) => Reply::Berr,
    }
}

/// The reply to a cycle with a code of eight-byte data, in which BYTE(0-3) stands for all eight
/// bytes.
fn wide_cycle(
    bytes: &mut [u8],
    class: Class,
    signals: &Signals,
    location: Location,
    at: u32,
    f: Option<&Modify>,
) -> Reply
    ensures reply { result ≡ (answer (board_of bytes.old class)
        (wide_command signals.now.write (option_map (λ f. f.now) f.entry) at location signals.now.lanes)).0 }
    ensures memory { board_of bytes.new class ≡ (answer (board_of bytes.old class)
        (wide_command signals.now.write (option_map (λ f. f.now) f.entry) at location signals.now.lanes)).1 }
    ensures berr { result ≡ Reply.Berr → bytes.new ≡ bytes.old }
{
    if f.is_some() || location.len() != 4 {
        return Reply::Berr;
    }
    if signals.write() {
        return read(bytes, class, true, at, WIDE_LEN);
    }
    let lines = signals.lines();
    if !lines.carries_all() {
        return Reply::Berr;
    }
    write(bytes, class, true, at, pick_wide(lines).as_slice())
}

/// The reply to a write of the bytes on the lanes of a location.
fn drive(
    bytes: &mut [u8],
    class: Class,
    block: bool,
    location: Location,
    at: u32,
    lines: DataLines,
) -> Reply
    ensures reply { result ≡ (answer (board_of bytes.old class) (driven_write block location at lines.lanes)).0 }
    ensures memory { board_of bytes.new class
        ≡ (answer (board_of bytes.old class) (driven_write block location at lines.lanes)).1 }
    ensures berr { result ≡ Reply.Berr → bytes.new ≡ bytes.old }
{
    if !lines.carries(location) {
        return Reply::Berr;
    }
    write(bytes, class, block, at, pick(location, lines).as_slice())
}
