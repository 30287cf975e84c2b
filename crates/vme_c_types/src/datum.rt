//! Switches and the bytes of a datum, as C has them.
ghost use Rattle.std.specs.Prelude.{◌≡◌, ◌≤◌, length};
ghost use Rattle.vme_c_types.specs.Data.{level_of, datum_of, datum_struct};

use vme_lanes::Datum;

/// The greatest number of bytes of a datum.
const MOST_BYTES: usize = 8;

/// The bytes of one datum, in order of address: the first `n` of `bytes`.
#[repr(C)]
#[derive(Clone, Copy)]
pub struct VmeDatum {
    /// The number of bytes, 0 to 8. A greater number counts as 8.
    pub n: u8,
    /// The bytes. Those after the first `n` are ignored, and written as 0.
    pub bytes: [u8; 8],
}

/// The level of a line, or the position of a switch: every number but 0 is high or on.
pub fn level_of(number: u8) -> bool
    ensures { result ≡ level_of number }
{
    number != 0
}

/// Borrows the bytes of a datum.
pub fn bytes_of(datum: &VmeDatum) -> &[u8]
    ensures value { result.now ≡ datum_of datum.now }
    ensures len { length result.now ≤ 8 }
{
    &datum.bytes[..usize::from(datum.n).min(MOST_BYTES)]
}

/// The bytes of a datum.
pub fn datum_of(datum: &VmeDatum) -> Datum
    ensures value { result.items ≡ datum_of datum.now }
    ensures len { length result.items ≤ 8 }
{
    let [a, b, c, d, ..] = datum.bytes;
    // The lengths are literals, so that the compiler copies without a call.
    match datum.n {
        1 => Datum::try_from(&[a][..]).unwrap(),
        2 => Datum::try_from(&[a, b][..]).unwrap(),
        4 => Datum::try_from(&[a, b, c, d][..]).unwrap(),
        n => Datum::try_from(&datum.bytes[..usize::from(n).min(MOST_BYTES)]).unwrap(),
    }
}

/// The struct of a datum of some bytes, which zeros follow.
pub fn datum_from(bytes: &[u8]) -> VmeDatum
    requires { length bytes.now ≤ 8 }
    ensures value { datum_of result ≡ bytes.now }
    ensures exact { result ≡ datum_struct bytes.now }
{
    let n = bytes.len() as u8;
    // The lengths are literals, so that the compiler copies without a call.
    match bytes {
        [] => VmeDatum { n, bytes: [0; 8] },
        [a] => VmeDatum {
            n,
            bytes: [*a, 0, 0, 0, 0, 0, 0, 0],
        },
        [a, b] => VmeDatum {
            n,
            bytes: [*a, *b, 0, 0, 0, 0, 0, 0],
        },
        [a, b, c, d] => VmeDatum {
            n,
            bytes: [*a, *b, *c, *d, 0, 0, 0, 0],
        },
        _ => {
            let mut all = [0; 8];
            all[..bytes.len()].copy_from_slice(bytes);
            VmeDatum { n, bytes: all }
        }
    }
}
