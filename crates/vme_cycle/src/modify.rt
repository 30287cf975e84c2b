ghost use Rattle.std.specs.Prelude.{◌≡◌, ◌+◌, ◌<◌, ◌≤◌, ◌^◌, [], length};
ghost use Rattle.vme_cycle.specs.Functions.{number_from, bytes_onto, number_bytes, sum_of};

use vme_lanes::{Datum, copy_bytes};

/// The function of a read-modify-write cycle. It determines the bytes that replace the old bytes:
/// IEEE 1014-1987, 2.3.8 (read-modify-write).
#[derive(Debug, Drop, PartialEq, Eq)]
pub enum Modify {
    /// Sets bit 7 of the byte at the lowest address.
    Set,
    /// Replaces the old bytes by these bytes.
    Exchange(Datum),
    /// Adds this number, modulo 256 to the power of the number of bytes.
    Add(Datum),
    /// Writes `put` if the old bytes equal `expect`. Otherwise it writes the old bytes back.
    Compare { expect: Datum, put: Datum },
}

impl Modify {
    ghost use Rattle.std.specs.Prelude.{IsTrue};
    ghost use Rattle.vme_cycle.specs.Functions.{value, has_len};

    /// Returns the bytes that replace `old`, as many as `old` has.
    pub fn value(&self, old: &Datum) -> Datum
        requires { IsTrue (has_len self.now (length old.now.items)) }
        ensures value { result.items ≡ value self.now old.now.items }
        ensures len { length result.items ≡ length old.now.items }
    {
        match self {
            Modify::Set => {
                let mut new = copy_bytes(old);
                if let Some(first) = new.as_mut_slice().first_mut() {
                    *first |= 0x80;
                }
                new
            }
            Modify::Exchange(put) => copy_bytes(put),
            Modify::Add(by) => sum_of(old, by),
            Modify::Compare { expect, put } => {
                if old.as_slice() == expect.as_slice() {
                    copy_bytes(put)
                } else {
                    copy_bytes(old)
                }
            }
        }
    }

    /// Returns a copy of the function. It allocates nothing.
    pub fn copy(&self) -> Modify
        ensures { result ≡ self.now }
    {
        match self {
            Modify::Set => Modify::Set,
            Modify::Exchange(put) => Modify::Exchange(copy_bytes(put)),
            Modify::Add(by) => Modify::Add(copy_bytes(by)),
            Modify::Compare { expect, put } => Modify::Compare {
                expect: copy_bytes(expect),
                put: copy_bytes(put),
            },
        }
    }

    /// Returns whether each datum of the function has `len` bytes.
    pub fn has_len(&self, len: u8) -> bool
        ensures { result ≡ has_len self.now len }
    {
        let len = usize::from(len);
        match self {
            Modify::Set => true,
            Modify::Exchange(datum) | Modify::Add(datum) => datum.len() == len,
            Modify::Compare { expect, put } => expect.len() == len && put.len() == len,
        }
    }
}

/// The sum of two numbers, in as many bytes as the first has. Data of four bytes are the most
/// frequent and are added as words; other lengths are added byte by byte.
#[tactic(auto, unfolding(crate::specs::Functions::sum_of))]
fn sum_of(old: &Datum, by: &Datum) -> Datum
    requires { length by.now.items ≡ length old.now.items }
    ensures value { result.items ≡ sum_of old.now.items by.now.items }
    ensures len { length result.items ≡ length old.now.items }
{
    match (old.as_slice(), by.as_slice()) {
        ([a, b, c, d], [e, f, g, h]) => {
            let word = u32::from_be_bytes([*a, *b, *c, *d]);
            sum_of_words(word, u32::from_be_bytes([*e, *f, *g, *h]))
        }
        _ => spelled(old.len(), number_of(old) + number_of(by)),
    }
}

/// The sum of two words, modulo 2^32, as four bytes.
fn sum_of_words(word: u32, by: u32) -> Datum
    ensures value { result.items ≡ number_bytes 4 (word + by) }
    ensures len { length result.items ≡ 4 }
{
    Datum::try_from(&word.wrapping_add(by).to_be_bytes()[..]).unwrap()
}

/// The number that bytes spell, the first byte most significant.
fn number_of(bytes: &[u8]) -> u128
    requires { length bytes.now ≤ 8 }
    ensures value { result ≡ number_from 0 bytes.now }
    ensures small { result < 2 ^ 64 }
{
    let mut number: u128 = 0;
    for byte in bytes {
        number = 256 * number + u128::from(*byte);
    }
    number
}

/// The last `len` bytes of a number.
fn spelled(len: usize, number: u128) -> Datum
    requires { len ≤ 8 }
    ensures value { result.items ≡ bytes_onto len number [] }
    ensures len { length result.items ≡ len }
{
    let mut bytes = Datum::new();
    let mut rest = number;
    for _place in 0..len {
        bytes.insert(0, (rest % 256) as u8);
        rest /= 256;
    }
    bytes
}
