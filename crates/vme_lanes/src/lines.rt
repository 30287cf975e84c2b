ghost use Rattle.std.specs.Prelude.{◌≡◌, ◌≤◌, List, [], ◌∷◌, ℕ, None, map, length, IsTrue};
ghost use Rattle.vme_lanes.specs.declared.location.Location.{Location};
ghost use Rattle.vme_lanes.specs.Rows.{row_of};
ghost use Rattle.vme_lanes.specs.Lanes.{idle_lanes, lanes_with, wide_lanes, carries, carries_all, bytes_of, bytes_on};
ghost use Rattle.vme_lanes.specs.Words.{word_bytes, word_of, flag_of, byte_of, flagged, flagged_lanes, are_set};

use crate::location::Location;
use arrayvec::ArrayVec;
use std::marker::Model;

/// The bytes of one cycle, or of one datum of a block, in order of address: at most eight.
pub type Datum = ArrayVec<u8, 8>;

/// Returns a copy of the bytes. It allocates nothing.
pub fn copy_bytes<const N: usize>(bytes: &ArrayVec<u8, N>) -> ArrayVec<u8, N>
    ensures { result ≡ bytes.now }
{
    ArrayVec::try_from(bytes.as_slice()).unwrap()
}

/// The number of lanes before D31-D24.
const UPPER: usize = 4;

/// The data lanes of the bus, the most significant first. Each lane carries a byte or nothing: IEEE
/// 1014-1987, 2.2.3 (data lines).
///
/// The first four lanes are those of the address lines, D63 to D32. They carry data only in a block
/// of eight-byte data. The last four are D31-D24, D23-D16, D15-D08 and D07-D00.
// Two words, because a copy of eight `Option<u8>` waits for the stores of their single bytes.
#[derive(Clone, Copy, Debug, PartialEq, Eq)]
pub struct DataLines {
    /// A byte for each lane, zero where the lane carries nothing.
    bytes: u64,
    /// A byte for each lane: 1 where the lane carries a byte, and otherwise 0.
    driven: u64,
}

impl Model for DataLines {
    ghost use Rattle.vme_lanes.specs.Lanes.{CarriedLanes};

    ghost Value = { CarriedLanes };

    ghost use Rattle.vme_lanes.specs.Words.{lanes_in, IsOfLanes, words_of, words_again};

    ghost view = { λ s. record { lanes = lanes_in s } };

    ghost invariant = { IsOfLanes };

    ghost inverse = { words_of };

    ghost inverse_ok = { words_again };
}

impl DataLines {
    /// Returns the data lines when nothing drives them.
    pub fn idle() -> DataLines
        ensures { result.lanes ≡ idle_lanes }
    {
        DataLines::of([None; 8])
    }

    /// Returns the data lines with these lanes.
    pub fn of(lanes: [Option<u8>; 8]) -> DataLines
        ensures { result.lanes ≡ lanes }
    {
        DataLines {
            bytes: word(bytes_of(lanes)),
            driven: word(flags_of(lanes)),
        }
    }

    /// Returns what each lane carries.
    #[tactic(auto, using(crate::proofs::lemmas::Words::flagged_again))]
    pub fn lanes(self) -> [Option<u8>; 8]
        ensures { result ≡ self.lanes }
    {
        lanes_of(self.flags(), self.bytes())
    }

    /// Returns whether each lane of the location carries a byte.
    #[tactic(auto, using(crate::proofs::lemmas::Words::flags_between))]
    pub fn carries(&self, location: Location) -> bool
        ensures { result ≡ carries location self.now.lanes }
    {
        let first = UPPER + location.lane();
        let len = usize::from(location.len());
        are_set(&self.flags()[first..first + len])
    }

    /// Returns whether each of the eight lanes carries a byte.
    #[tactic(auto, using(crate::proofs::lemmas::Words::flags_all))]
    pub fn carries_all(&self) -> bool
        ensures { result ≡ carries_all self.now.lanes }
    {
        are_set(&self.flags())
    }

    /// The flag of each lane.
    #[tactic(auto, unfolding(crate::specs::Words::word_bytes))]
    fn flags(self) -> [u8; 8]
        ensures { result ≡ map flag_of self.lanes }
    {
        self.driven.to_be_bytes()
    }

    /// The byte of each lane, zero where it carries none.
    #[tactic(auto, unfolding(crate::specs::Words::word_bytes))]
    fn bytes(self) -> [u8; 8]
        ensures { result ≡ map byte_of self.lanes }
    {
        self.bytes.to_be_bytes()
    }
}

/// The flag of each lane.
#[rattlefmt::skip]
fn flags_of(lanes: [Option<u8>; 8]) -> [u8; 8]
    ensures { result ≡ map flag_of lanes }
{
    let [a, b, c, d, e, f, g, h] = lanes;
    [flag(a), flag(b), flag(c), flag(d), flag(e), flag(f), flag(g), flag(h)]
}

fn flag(lane: Option<u8>) -> u8
    ensures { result ≡ flag_of lane }
{
    match lane {
        Some(_) => 1,
        None => 0,
    }
}

/// The byte of each lane, zero where it carries none.
#[rattlefmt::skip]
fn bytes_of(lanes: [Option<u8>; 8]) -> [u8; 8]
    ensures { result ≡ map byte_of lanes }
{
    let [a, b, c, d, e, f, g, h] = lanes;
    [byte(a), byte(b), byte(c), byte(d), byte(e), byte(f), byte(g), byte(h)]
}

fn byte(lane: Option<u8>) -> u8
    ensures { result ≡ byte_of lane }
{
    lane.unwrap_or(0)
}

/// The lanes of flags and bytes.
#[rattlefmt::skip]
fn lanes_of(flags: [u8; 8], bytes: [u8; 8]) -> [Option<u8>; 8]
    ensures { result ≡ flagged_lanes flags bytes }
{
    let [a, b, c, d, e, f, g, h] = flags;
    let [i, j, k, l, m, n, o, p] = bytes;
    [lane(a, i), lane(b, j), lane(c, k), lane(d, l), lane(e, m), lane(f, n), lane(g, o), lane(h, p)]
}

fn lane(flag: u8, byte: u8) -> Option<u8>
    ensures { result ≡ flagged flag byte }
{
    if flag == 1 { Some(byte) } else { None }
}

/// Whether each of the flags is 1.
fn are_set(flags: &[u8]) -> bool
    ensures { result ≡ are_set flags.now }
{
    flags.iter().all(|flag| *flag == 1)
}

/// The word of eight bytes, the most significant first.
fn word(bytes: [u8; 8]) -> u64
    ensures value { result ≡ word_of bytes }
    ensures bytes { word_bytes result ≡ bytes }
{
    u64::from_be_bytes(bytes)
}

/// Returns the lanes with bytes on those of a location, in order of address: IEEE 1014-1987, 2.2.3
/// (data lines). The other lanes carry nothing.
pub fn place(location: Location, bytes: &[u8]) -> DataLines
    requires { length bytes.now ≡ (row_of location).len }
    ensures { result.lanes ≡ lanes_with location bytes.now }
{
    match (location, bytes) {
        (Location::Byte0 | Location::Byte2, [a]) => narrow(None, None, Some(*a), None),
        (Location::Byte1 | Location::Byte3, [a]) => narrow(None, None, None, Some(*a)),
        (Location::Bytes01 | Location::Bytes23, [a, b]) => narrow(None, None, Some(*a), Some(*b)),
        (Location::Bytes03, [a, b, c, d]) => narrow(Some(*a), Some(*b), Some(*c), Some(*d)),
        (Location::Bytes02, [a, b, c]) => narrow(Some(*a), Some(*b), Some(*c), None),
        (Location::Bytes13, [a, b, c]) => narrow(None, Some(*a), Some(*b), Some(*c)),
        (Location::Bytes12, [a, b]) => narrow(None, Some(*a), Some(*b), None),
        _ => unreachable!(),
    }
}

/// The lanes with these bytes, or with nothing, on D31-D24 to D07-D00. The address lines carry
/// nothing.
fn narrow(first: Option<u8>, second: Option<u8>, third: Option<u8>, last: Option<u8>) -> DataLines
    ensures { result.lanes ≡ None ∷ None ∷ None ∷ None ∷ first ∷ second ∷ third ∷ last ∷ [] }
{
    DataLines::of([None, None, None, None, first, second, third, last])
}

/// Returns the lanes with a datum of eight bytes on all of them: the lowest address is on the most
/// significant lane.
// No `inline` attribute: a caller that places at most four bytes would carry this code too.
pub fn place_wide(bytes: &[u8]) -> DataLines
    requires { length bytes.now ≡ 8 }
    ensures { result.lanes ≡ wide_lanes bytes.now }
{
    match bytes {
        [a, b, c, d, e, f, g, h] => DataLines::of([
            Some(*a),
            Some(*b),
            Some(*c),
            Some(*d),
            Some(*e),
            Some(*f),
            Some(*g),
            Some(*h),
        ]),
        _ => unreachable!(),
    }
}

/// Returns the bytes on the lanes of a location, in order of address: IEEE 1014-1987, 2.2.3 (data
/// lines).
#[tactic(auto, using(crate::proofs::lemmas::Words::bytes_between))]
pub fn pick(location: Location, lines: DataLines) -> Datum
    requires { IsTrue (carries location lines.lanes) }
    ensures value { result.items ≡ bytes_on location lines.lanes }
    ensures len { length result.items ≡ (row_of location).len }
{
    let first = UPPER + location.lane();
    let len = usize::from(location.len());
    datum_of(&lines.bytes()[first..first + len])
}

/// Returns the datum of eight bytes on all lanes, in order of address.
#[tactic(auto, using(crate::proofs::lemmas::Words::bytes_all))]
pub fn pick_wide(lines: DataLines) -> Datum
    requires { IsTrue (carries_all lines.lanes) }
    ensures value { result.items ≡ bytes_of lines.lanes }
    ensures len { length result.items ≡ 8 }
{
    datum_of(&lines.bytes())
}

/// The datum of these bytes.
fn datum_of(bytes: &[u8]) -> Datum
    requires { length bytes.now ≤ 8 }
    ensures { result.items ≡ bytes.now }
{
    Datum::try_from(bytes).unwrap()
}

/// States that `pick` returns the bytes that `place` put on the lanes of a location.
#[tactic(auto, using(crate::proofs::lemmas::Placing::lanes_carry, crate::proofs::lemmas::Placing::bytes_again))]
pub fn placed_is_picked()
    ensures carries { (l : Location) (bytes : List ℕ) →
        length bytes ≡ (row_of l).len → IsTrue (carries l (lanes_with l bytes)) }
    ensures picked { (l : Location) (bytes : List ℕ) →
        length bytes ≡ (row_of l).len → bytes_on l (lanes_with l bytes) ≡ bytes }
{}

/// States that `pick_wide` returns the eight bytes that `place_wide` put on all lanes.
#[tactic(auto, using(crate::proofs::lemmas::Wide::all_carry, crate::proofs::lemmas::Wide::all_again))]
pub fn wide_is_picked()
    ensures carries { (bytes : List ℕ) → IsTrue (carries_all (wide_lanes bytes)) }
    ensures picked { (bytes : List ℕ) → bytes_of (wide_lanes bytes) ≡ bytes }
{}
