ghost use Rattle.std.specs.Prelude.{◌≡◌, ◌+◌, ◌≤◌, ◌<◌, Some, unwrap_or, IsTrue, length, take, ◌++◌, slice_get, slice_range};
ghost use Rattle.vme_lanes.specs.Rows.{row_of};
ghost use Rattle.vme_lanes.specs.Lanes.{carries, bytes_on};
ghost use Rattle.vme_memory.specs.Words.{bytes_after_write, word_bytes, part_of, enables_of};

use vme_lanes::{DataLines, Datum, Location, Strobes};

/// The byte enables of a location as a mask of the word: all bits of each of its bytes.
fn enables(location: Location) -> u32
    ensures { result ≡ enables_of location }
{
    match location {
        Location::Byte0 => 0xff00_0000,
        Location::Byte1 => 0x00ff_0000,
        Location::Byte2 => 0x0000_ff00,
        Location::Byte3 => 0x0000_00ff,
        Location::Bytes01 => 0xffff_0000,
        Location::Bytes23 => 0x0000_ffff,
        Location::Bytes03 => 0xffff_ffff,
        Location::Bytes02 => 0xffff_ff00,
        Location::Bytes13 => 0x00ff_ffff,
        Location::Bytes12 => 0x00ff_ff00,
    }
}

/// Returns `word` with the bytes of a location taken from `new`. The other bytes stay.
pub fn merge(word: u32, location: Location, new: u32) -> u32
    ensures { word_bytes result ≡ bytes_after_write (word_bytes word) (row_of location).first (part_of location new) }
{
    let mask = enables(location);
    word & !mask | new & mask
}

/// Returns `word` with the first `len` bytes of `new` at `place`. The other bytes stay.
pub fn merge_from(word: u32, place: u32, len: u32, new: u32) -> u32
    requires some { 0 < len }
    requires within { place + len ≤ 4 }
    ensures { word_bytes result ≡ bytes_after_write (word_bytes word) place (take len (word_bytes new)) }
{
    let mask = u32::MAX << (32 - 8 * len) >> (8 * place);
    word & !mask | (new >> (8 * place)) & mask
}

/// Returns the word of the four bytes at `place` in two consecutive words.
pub fn word_across(here: u32, next: u32, place: u32) -> u32
    requires { place < 4 }
    ensures { word_bytes result ≡ slice_range (word_bytes here ++ word_bytes next) place (place + 4) }
{
    let pair = (u64::from(here) << 32) + u64::from(next);
    (pair << (8 * place) >> 32) as u32
}

/// Returns two consecutive words with the four bytes of `new` at `place` in the first. The other
/// bytes stay.
#[tactic(auto, using(crate::proofs::Shifts::merged_across))]
pub fn merge_across(here: u32, next: u32, place: u32, new: u32) -> (u32, u32)
    requires { place < 4 }
    ensures { word_bytes result.0 ++ word_bytes result.1
        ≡ bytes_after_write (word_bytes here ++ word_bytes next) place (word_bytes new) }
{
    let rotated_word = new.rotate_right(8 * place);
    let mask = u32::MAX >> (8 * place);
    (
        here & !mask | rotated_word & mask,
        rotated_word & !mask | next & mask,
    )
}

/// Returns the four bytes of a word, the lowest address most significant.
#[tactic(auto, unfolding(crate::specs::Words::word_bytes))]
pub fn bytes_of(word: u32) -> [u8; 4]
    ensures { result ≡ word_bytes word }
{
    word.to_be_bytes()
}

/// Returns the word of four bytes, the lowest address most significant.
pub fn word_of(bytes: [u8; 4]) -> u32
    ensures { word_bytes result ≡ bytes }
{
    u32::from_be_bytes(bytes)
}

/// Returns a word with the bytes that the data lines carry for a location, at the location's place:
/// IEEE 1014-1987, 2.2.3 (data lines).
///
/// Where LWORD* is low, each lane carries the byte of its own place. Otherwise both halves of the
/// word take D15-D00.
pub fn driven_word(location: Location, lines: DataLines) -> u32
    requires { IsTrue (carries location lines.lanes) }
    ensures bytes { part_of location result ≡ bytes_on location lines.lanes }
    ensures len { length (bytes_on location lines.lanes) ≡ (row_of location).len }
{
    let [.., d31, d23, d15, d07] = lines.lanes();
    if Strobes::of(location).lword {
        word_of([byte(d15), byte(d07), byte(d15), byte(d07)])
    } else {
        word_of([byte(d31), byte(d23), byte(d15), byte(d07)])
    }
}

fn byte(lane: Option<u8>) -> u8
    ensures { result ≡ unwrap_or lane 0 }
{
    lane.unwrap_or(0)
}

/// Returns a word with these bytes at the place of a location, and zeros elsewhere.
pub fn placed_word(location: Location, bytes: &[u8]) -> u32
    requires { length bytes.now ≡ (row_of location).len }
    ensures { part_of location result ≡ bytes.now }
{
    match (location, bytes) {
        (Location::Byte0, [a]) => word_of([*a, 0, 0, 0]),
        (Location::Byte1, [b]) => word_of([0, *b, 0, 0]),
        (Location::Byte2, [c]) => word_of([0, 0, *c, 0]),
        (Location::Byte3, [d]) => word_of([0, 0, 0, *d]),
        (Location::Bytes01, [a, b]) => word_of([*a, *b, 0, 0]),
        (Location::Bytes23, [c, d]) => word_of([0, 0, *c, *d]),
        (Location::Bytes03, [a, b, c, d]) => word_of([*a, *b, *c, *d]),
        (Location::Bytes02, [a, b, c]) => word_of([*a, *b, *c, 0]),
        (Location::Bytes13, [b, c, d]) => word_of([0, *b, *c, *d]),
        (Location::Bytes12, [b, c]) => word_of([0, *b, *c, 0]),
        _ => unreachable!(),
    }
}

/// Returns the word that begins with these bytes and continues with zeros.
pub fn leading_word(bytes: &[u8]) -> u32
    requires some { 0 < length bytes.now }
    requires short { length bytes.now ≤ 4 }
    ensures { take (length bytes.now) (word_bytes result) ≡ bytes.now }
{
    match bytes {
        [a] => word_of([*a, 0, 0, 0]),
        [a, b] => word_of([*a, *b, 0, 0]),
        [a, b, c] => word_of([*a, *b, *c, 0]),
        [a, b, c, d] => word_of([*a, *b, *c, *d]),
        _ => unreachable!(),
    }
}

/// Returns the first `len` bytes of a word.
#[tactic(auto, unfolding(crate::specs::Words::word_bytes))]
pub fn first_bytes(word: u32, len: u8) -> Datum
    requires some { 0 < len }
    requires short { len ≤ 4 }
    ensures value { result.items ≡ take len (word_bytes word) }
    ensures len { length result.items ≡ len }
{
    let [a, b, c, d] = bytes_of(word);
    match len {
        1 => datum(&[a]),
        2 => datum(&[a, b]),
        3 => datum(&[a, b, c]),
        4 => datum(&[a, b, c, d]),
        _ => unreachable!(),
    }
}

/// Returns the bytes of a location in a word, in order of address.
#[tactic(auto, unfolding(crate::specs::Words::word_bytes))]
pub fn bytes_at(location: Location, word: u32) -> Datum
    ensures value { result.items ≡ part_of location word }
    ensures len { length result.items ≡ (row_of location).len }
{
    let [a, b, c, d] = bytes_of(word);
    match location {
        Location::Byte0 => datum(&[a]),
        Location::Byte1 => datum(&[b]),
        Location::Byte2 => datum(&[c]),
        Location::Byte3 => datum(&[d]),
        Location::Bytes01 => datum(&[a, b]),
        Location::Bytes23 => datum(&[c, d]),
        Location::Bytes03 => datum(&[a, b, c, d]),
        Location::Bytes02 => datum(&[a, b, c]),
        Location::Bytes13 => datum(&[b, c, d]),
        Location::Bytes12 => datum(&[b, c]),
    }
}

/// Returns the eight bytes of two consecutive words.
#[tactic(auto, unfolding(crate::specs::Words::word_bytes))]
pub fn bytes_of_pair(here: u32, next: u32) -> Datum
    ensures value { result.items ≡ word_bytes here ++ word_bytes next }
    ensures len { length result.items ≡ 8 }
{
    let [a, b, c, d] = bytes_of(here);
    let [e, f, g, h] = bytes_of(next);
    datum(&[a, b, c, d, e, f, g, h])
}

/// Returns the two consecutive words of eight bytes.
pub fn pair_of(bytes: &[u8]) -> (u32, u32)
    requires { length bytes.now ≡ 8 }
    ensures { word_bytes result.0 ++ word_bytes result.1 ≡ bytes.now }
{
    match bytes {
        [a, b, c, d, e, f, g, h] => (word_of([*a, *b, *c, *d]), word_of([*e, *f, *g, *h])),
        _ => unreachable!(),
    }
}

fn datum<const N: usize>(bytes: &[u8; N]) -> Datum
    requires { N ≤ 8 }
    ensures { result.items ≡ bytes.now }
{
    Datum::try_from(bytes.as_slice()).unwrap()
}

/// Returns the byte of a word at `place`, 0 to 3.
pub fn byte_in(word: u32, place: u8) -> u8
    requires { place < 4 }
    ensures { Some result ≡ slice_get (word_bytes word) place }
{
    bytes_of(word)[usize::from(place)]
}
