//! The bytes of a slice at an offset: how they are read and replaced.
ghost use Rattle.std.specs.Prelude.{◌≡◌, ◌+◌, ◌≤◌, length, nat_le, slice_range};
ghost use Rattle.vme_memory.specs.Boards.{bytes_after_write};

use vme_lanes::Datum;

/// Whether `len` bytes at an offset lie within a slice.
pub(crate) fn fits(bytes: &[u8], at: u32, len: u8) -> bool
    ensures { result ≡ nat_le (at + len) (length bytes.now) }
{
    at as usize + usize::from(len) <= bytes.len()
}

/// The `len` bytes at an offset.
pub(crate) fn bytes_at(bytes: &[u8], at: u32, len: u8) -> &[u8]
    requires { at + len ≤ length bytes.now }
    ensures value { result.now ≡ slice_range bytes.now at (at + len) }
    ensures len { length result.now ≡ len }
{
    let start = at as usize;
    &bytes[start..start + usize::from(len)]
}

/// The datum of some bytes.
pub(crate) fn datum_of(bytes: &[u8]) -> Datum
    requires { length bytes.now ≤ 8 }
    ensures { result.items ≡ bytes.now }
{
    // The lengths are literals, so that the compiler copies without a call.
    match bytes {
        [a] => Datum::try_from(&[*a][..]).unwrap(),
        [a, b] => Datum::try_from(&[*a, *b][..]).unwrap(),
        [a, b, c, d] => Datum::try_from(&[*a, *b, *c, *d][..]).unwrap(),
        other => Datum::try_from(other).unwrap(),
    }
}

/// Replaces the bytes at an offset; all others are unchanged.
pub(crate) fn overwrite(bytes: &mut [u8], at: u32, new: &[u8])
    requires { at + length new.now ≤ length bytes.old }
    ensures { bytes.new ≡ bytes_after_write bytes.old at new.now }
{
    let start = at as usize;
    let old = &mut bytes[start..start + new.len()];
    // The lengths are literals, so that the compiler copies without a call.
    match new {
        [a] => old.copy_from_slice(&[*a]),
        [a, b] => old.copy_from_slice(&[*a, *b]),
        [a, b, c, d] => old.copy_from_slice(&[*a, *b, *c, *d]),
        other => old.copy_from_slice(other),
    }
}
