//! The local port of a board: one, two or four bytes at any offset, for every class. The standard
//! has no local port; a processor on the board reaches its memory by it without the bus.
ghost use Rattle.std.specs.Prelude.{◌≡◌, ◌+◌, ◌≤◌, length, nat_le, ◌&&◌};
ghost use Rattle.vme_memory.specs.declared.class.Class.{Class};
ghost use Rattle.vme_memory.specs.Classes.{is_local_len};
ghost use Rattle.vme_memory.specs.Steps as Steps;
ghost use Rattle.vme_memory.specs.Steps.{step};
ghost use Rattle.vme_ffi.specs.Slices.{board_of};

use crate::slave::bytes::{bytes_at, datum_of, fits, overwrite};
use vme_cycle::Modify;
use vme_memory::Reply;

/// Whether the local port reaches `n` bytes at an offset.
fn is_local_place(bytes: &[u8], at: u32, n: u8) -> bool
    ensures { result ≡ (nat_le (at + n) (length bytes.now) && is_local_len n) }
{
    fits(bytes, at, n) && (n == 1 || n == 2 || n == 4)
}

/// Returns the reply to a read of `n` bytes at offset `at` by the local port. The reply is `Berr`
/// if `n` is not 1, 2 or 4, or if the bytes are not within the slice.
pub(crate) fn local_read(bytes: &[u8], at: u32, n: u8) -> Reply
    ensures { (class : Class) → result ≡ (step (board_of bytes.now class) (Steps.LocalRead at n)).0 }
{
    if !is_local_place(bytes, at, n) {
        return Reply::Berr;
    }
    Reply::Bytes(datum_of(bytes_at(bytes, at, n)))
}

/// Returns the reply to a write of some bytes at offset `at` by the local port. The reply is `Berr`
/// if these are not 1, 2 or 4 bytes, or not within the slice. After `Berr` nothing has changed.
pub(crate) fn local_write(bytes: &mut [u8], at: u32, new: &[u8]) -> Reply
    requires short { length new.now ≤ 8 }
    ensures reply { (class : Class) → result ≡ (step (board_of bytes.old class) (Steps.LocalWrite at new.now)).0 }
    ensures memory { (class : Class) →
        board_of bytes.new class ≡ (step (board_of bytes.old class) (Steps.LocalWrite at new.now)).1 }
    ensures berr { result ≡ Reply.Berr → bytes.new ≡ bytes.old }
{
    if !is_local_place(bytes, at, new.len() as u8) {
        return Reply::Berr;
    }
    overwrite(bytes, at, new);
    Reply::Done
}

/// Returns the reply to a read-modify-write of `n` bytes at offset `at` by the local port, which
/// has the old bytes. The reply is `Berr` if `n` is not 1, 2 or 4, if the bytes are not within the
/// slice, or if an operand of `f` does not have `n` bytes. After `Berr` nothing has changed.
pub(crate) fn local_modify(bytes: &mut [u8], at: u32, n: u8, f: &Modify) -> Reply
    ensures reply { (class : Class) → result ≡ (step (board_of bytes.old class) (Steps.LocalModify at n f.now)).0 }
    ensures memory { (class : Class) →
        board_of bytes.new class ≡ (step (board_of bytes.old class) (Steps.LocalModify at n f.now)).1 }
    ensures berr { result ≡ Reply.Berr → bytes.new ≡ bytes.old }
{
    if !is_local_place(bytes, at, n) {
        return Reply::Berr;
    }
    if !f.has_len(n) {
        return Reply::Berr;
    }
    let old = datum_of(bytes_at(bytes, at, n));
    let new = f.value(&old);
    overwrite(bytes, at, new.as_slice());
    Reply::Bytes(old)
}
