//! The slave of a board whose bytes the caller holds, for C; `slave/` has its replies to cycles of
//! the data transfer bus, to accesses without lines, and to its local port. Replies and new bytes
//! are those of a `vme_memory` board (ANSI/IEEE Std 1014-1987, section 2.3.6: D08(EO), D16 and D32
//! slaves).
ghost use Rattle.std.specs.Prelude.{◌≡◌, IfSome, IfNone};
ghost use Rattle.vme_memory.specs.Steps as Steps;
ghost use Rattle.vme_memory.specs.Steps.{cycle, step, read_command, write_command};
ghost use Rattle.vme_ffi.specs.Slices.{board_of};
ghost use Rattle.vme_c_types.specs.Boards.{class_of};
ghost use Rattle.vme_c_types.specs.Data.{level_of, datum_of, modify_of};
ghost use Rattle.vme_ffi.specs.Requests.{function_of};
ghost use Rattle.vme_ffi.specs.Lines.{cycle_shown};
ghost use Rattle.vme_ffi.specs.Boards.{result_of, Writes};
ghost use Rattle.vme_ffi.specs.Results.{bad_lines};

mod access;
mod bytes;
mod cycle;
pub(crate) mod local_port;

use crate::lines::{VmeLines, signals_of};
use crate::modify::function_of;
use crate::results::BAD_LINES;
use crate::slave::access::{bytes_read, modify, write};
use crate::slave::cycle::cycle;
use vme_c_types::{
    BUS_ERROR, OK, VmeClass, VmeDatum, VmeModify, bytes_of, class_of, datum_from, level_of,
    modify_of,
};
use vme_memory::{Class, Reply};

/// Writes the bytes of a reply unless it is a bus error, and returns its result.
pub(crate) fn write_reply(reply: &Reply, out: &mut VmeDatum) -> u8
    ensures result { result ≡ result_of reply.now }
    ensures bytes { Writes reply.now out.old out.new }
{
    match reply {
        Reply::Bytes(datum) => *out = datum_from(datum.as_slice()),
        Reply::Done => *out = datum_from(&[]),
        Reply::Berr => return BUS_ERROR,
    }
    OK
}

/// The result of a reply.
pub(crate) fn result_of(reply: &Reply) -> u8
    ensures { result ≡ result_of reply.now }
{
    match reply {
        Reply::Bytes(_) | Reply::Done => OK,
        Reply::Berr => BUS_ERROR,
    }
}

/// Replies to the cycle that the lines show, with its first byte at offset `at` of the board and
/// the function of a read-modify-write: IEEE 1014-1987, 2.3.6 (basic data transfer) to 2.3.9
/// (unaligned transfer). Returns `OK` for DTACK* and writes the bytes that were read, none after a
/// write; `BUS_ERROR`; or `BAD_LINES` if the lines show no cycle.
#[unsafe(no_mangle)]
pub extern "C" fn vme_slave_cycle(
    bytes: &mut [u8],
    class: &VmeClass,
    lines: &VmeLines,
    at: u32,
    f: &VmeModify,
    out: &mut VmeDatum,
) -> u8
    ensures result { IfSome (cycle_shown lines.now) (λ s.
        result ≡ result_of (cycle (board_of bytes.old (class_of class.now)) s at (function_of f.now)).0) }
    ensures out { IfSome (cycle_shown lines.now) (λ s.
        Writes (cycle (board_of bytes.old (class_of class.now)) s at (function_of f.now)).0 out.old out.new) }
    ensures memory { IfSome (cycle_shown lines.now) (λ s. board_of bytes.new (class_of class.now)
        ≡ (cycle (board_of bytes.old (class_of class.now)) s at (function_of f.now)).1) }
    ensures no_cycle { IfNone (cycle_shown lines.now)
        ((result ≡ bad_lines) × (bytes.new ≡ bytes.old) × (out.new ≡ out.old)) }
{
    let Some(signals) = signals_of(lines) else {
        return BAD_LINES;
    };
    let f = function_of(f);
    let reply = cycle(bytes, class_of(class), &signals, at, f.as_ref());
    write_reply(&reply, out)
}

/// Replies to a read of `n` bytes at offset `at`, single or as one datum of a block: IEEE
/// 1014-1987, 2.3.6 (basic data transfer) and 2.3.7 (block transfer). Returns `OK` for DTACK* and
/// writes the bytes, or `BUS_ERROR`.
#[unsafe(no_mangle)]
pub extern "C" fn vme_slave_read(
    bytes: &[u8],
    class: &VmeClass,
    block: u8,
    at: u32,
    n: u8,
    out: &mut VmeDatum,
) -> u8
    ensures result { result ≡ result_of
        (step (board_of bytes.now (class_of class.now)) (read_command (level_of block) at n)).0 }
    ensures out { Writes (step (board_of bytes.now (class_of class.now)) (read_command (level_of block) at n)).0
        out.old out.new }
{
    let Some(read) = bytes_read(bytes, class_of(class), level_of(block), at, n) else {
        return BUS_ERROR;
    };
    *out = datum_from(read);
    OK
}

/// Replies to a write of a datum at offset `at`, single or as one datum of a block: IEEE 1014-1987,
/// 2.3.6 (basic data transfer) and 2.3.7 (block transfer). Returns `OK` for DTACK*, or `BUS_ERROR`.
#[unsafe(no_mangle)]
pub extern "C" fn vme_slave_write(
    bytes: &mut [u8],
    class: &VmeClass,
    block: u8,
    at: u32,
    datum: &VmeDatum,
) -> u8
    ensures result { result ≡ result_of (step (board_of bytes.old (class_of class.now))
        (write_command (level_of block) at (datum_of datum.now))).0 }
    ensures memory { board_of bytes.new (class_of class.now) ≡ (step (board_of bytes.old (class_of class.now))
        (write_command (level_of block) at (datum_of datum.now))).1 }
{
    let new = bytes_of(datum);
    result_of(&write(bytes, class_of(class), level_of(block), at, new))
}

/// Replies to a read-modify-write of `n` bytes at offset `at`: IEEE 1014-1987, 2.3.8
/// (read-modify-write). Returns `OK` for DTACK* and writes the old bytes, or `BUS_ERROR`.
#[unsafe(no_mangle)]
pub extern "C" fn vme_slave_modify(
    bytes: &mut [u8],
    class: &VmeClass,
    at: u32,
    n: u8,
    f: &VmeModify,
    out: &mut VmeDatum,
) -> u8
    ensures result { result ≡ result_of
        (step (board_of bytes.old (class_of class.now)) (Steps.Modify at n (modify_of f.now))).0 }
    ensures out { Writes (step (board_of bytes.old (class_of class.now)) (Steps.Modify at n (modify_of f.now))).0
        out.old out.new }
    ensures memory { board_of bytes.new (class_of class.now)
        ≡ (step (board_of bytes.old (class_of class.now)) (Steps.Modify at n (modify_of f.now))).1 }
{
    let reply = modify(bytes, class_of(class), at, n, &modify_of(f));
    write_reply(&reply, out)
}
