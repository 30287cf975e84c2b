//! The local port of a board whose bytes the caller holds.
ghost use Rattle.std.specs.Prelude.{◌≡◌};
ghost use Rattle.vme_memory.specs.declared.class.Class.{Class as BoardClass};
ghost use Rattle.vme_memory.specs.Steps as Steps;
ghost use Rattle.vme_memory.specs.Steps.{step};
ghost use Rattle.vme_ffi.specs.Slices.{board_of};
ghost use Rattle.vme_c_types.specs.Data.{datum_of, modify_of};
ghost use Rattle.vme_ffi.specs.Boards.{result_of, Writes};

use crate::slave::local_port::{local_modify, local_read, local_write};
use crate::slave::{result_of, write_reply};
use vme_c_types::{VmeDatum, VmeModify, bytes_of, modify_of};

/// Replies to a read of `n` bytes, 1, 2 or 4, at offset `at` by the local port. Returns `OK` and
/// writes the bytes, or `BUS_ERROR`.
#[unsafe(no_mangle)]
pub extern "C" fn vme_local_read(bytes: &[u8], at: u32, n: u8, out: &mut VmeDatum) -> u8
    ensures result { (class : BoardClass) →
        result ≡ result_of (step (board_of bytes.now class) (Steps.LocalRead at n)).0 }
    ensures out { (class : BoardClass) →
        Writes (step (board_of bytes.now class) (Steps.LocalRead at n)).0 out.old out.new }
{
    write_reply(&local_read(bytes, at, n), out)
}

/// Replies to a write of a datum of 1, 2 or 4 bytes at offset `at` by the local port. Returns `OK`,
/// or `BUS_ERROR`.
#[unsafe(no_mangle)]
pub extern "C" fn vme_local_write(bytes: &mut [u8], at: u32, datum: &VmeDatum) -> u8
    ensures result { (class : BoardClass) →
        result ≡ result_of (step (board_of bytes.old class) (Steps.LocalWrite at (datum_of datum.now))).0 }
    ensures memory { (class : BoardClass) → board_of bytes.new class
        ≡ (step (board_of bytes.old class) (Steps.LocalWrite at (datum_of datum.now))).1 }
{
    result_of(&local_write(bytes, at, bytes_of(datum)))
}

/// Replies to a read-modify-write of `n` bytes, 1, 2 or 4, at offset `at` by the local port.
/// Returns `OK` and writes the old bytes, or `BUS_ERROR`.
#[unsafe(no_mangle)]
pub extern "C" fn vme_local_modify(
    bytes: &mut [u8],
    at: u32,
    n: u8,
    f: &VmeModify,
    out: &mut VmeDatum,
) -> u8
    ensures result { (class : BoardClass) →
        result ≡ result_of (step (board_of bytes.old class) (Steps.LocalModify at n (modify_of f.now))).0 }
    ensures out { (class : BoardClass) →
        Writes (step (board_of bytes.old class) (Steps.LocalModify at n (modify_of f.now))).0 out.old out.new }
    ensures memory { (class : BoardClass) → board_of bytes.new class
        ≡ (step (board_of bytes.old class) (Steps.LocalModify at n (modify_of f.now))).1 }
{
    write_reply(&local_modify(bytes, at, n, &modify_of(f)), out)
}
