//! The bytes of a datum or a local access, and what is known of them.
ghost use Rattle.std.specs.Prelude.{◌≡◌, ◌+◌, ◌≤◌, length, Some, IsFalse, IsTrue};
ghost use Rattle.vme_known.specs.Judging.{may_all_come, may_find};
ghost use Rattle.vme_answers.specs.Wrongs.{known_at, known_from};
ghost use Rattle.vme_answers.specs.Bytes.{finds, stores, all_after, all_forgotten, bytes_of, local_bytes};

use vme_known::{Byte, KnownBytes};
use vme_lanes::Datum as Bytes;
use vme_protocol::{Datum, Local};

/// The bytes of a datum, in order of address.
pub(crate) fn bytes_of(datum: &Datum) -> Bytes
    ensures value { result.items ≡ bytes_of datum.now }
    ensures len { length result.items ≤ datum.now.len }
{
    if u32::from(datum.lane) + u32::from(datum.len) > 8 {
        return Bytes::new();
    }
    datum.bytes()
}

/// The bytes of a local access, in order of address.
pub(crate) fn local_bytes(local: &Local) -> Bytes
    ensures value { result.items ≡ local_bytes local.now }
    ensures len { length result.items ≤ local.now.len }
{
    if local.len > 4 {
        return Bytes::new();
    }
    let bytes = local.data.to_be_bytes();
    Bytes::try_from(&bytes[usize::from(4 - local.len)..4]).unwrap()
}

/// Takes bytes that a read found from a place on, and returns whether they may be found. If not,
/// nothing is taken.
pub(crate) fn find_all(known: &mut KnownBytes, at: usize, bytes: &[u8]) -> bool
    requires { at + length bytes.now ≤ length known.old }
    ensures answer { result ≡ may_all_come known.old (finds at bytes.now) }
    ensures known { IsTrue result → known.new ≡ all_after known.old (finds at bytes.now) }
    ensures kept { IsFalse result → known.new ≡ known.old }
    ensures len { length known.new ≡ length known.old }
{
    if !may_find_all(known, at, bytes) {
        return false;
    }
    store_all(known, at, bytes);
    true
}

/// Whether bytes may be found from a place on.
fn may_find_all(known: &KnownBytes, at: usize, bytes: &[u8]) -> bool
    requires { at + length bytes.now ≤ length known.now }
    ensures { result ≡ may_all_come known.now (finds at bytes.now) }
{
    // A place up to the end can be counted.
    let _end = known.len();
    let mut place = at;
    for byte in bytes {
        if !may_find(known.get(place), *byte) {
            return false;
        }
        place += 1;
    }
    true
}

/// Whether a byte may be found where this is known.
fn may_find(known: Byte, byte: u8) -> bool
    ensures { result ≡ may_find (Some known) byte }
{
    match known {
        Byte::Open | Byte::Unseen => true,
        Byte::Known(value) => value == byte,
    }
}

/// Takes bytes that a write stored from a place on.
pub(crate) fn store_all(known: &mut KnownBytes, at: usize, bytes: &[u8])
    requires { at + length bytes.now ≤ length known.old }
    ensures known { known.new ≡ all_after known.old (stores at bytes.now) }
    ensures len { length known.new ≡ length known.old }
{
    // A place up to the end can be counted.
    let _end = known.len();
    let mut place = at;
    for byte in bytes {
        known.store(place, *byte);
        place += 1;
    }
}

/// Forgets what is known of some bytes from a place on.
pub(crate) fn forget_all(known: &mut KnownBytes, at: usize, count: usize)
    requires { at + count ≤ length known.old }
    ensures known { known.new ≡ all_forgotten known.old at count }
    ensures len { length known.new ≡ length known.old }
{
    // A place up to the end can be counted.
    let _end = known.len();
    for step in 0..count {
        known.forget(at + step);
    }
}

/// What is known of some bytes from a place on; nothing of those that are not there.
#[tactic(auto, unfolding(crate::specs::Wrongs::known_from))]
pub(crate) fn known_from(known: &KnownBytes, at: usize, len: u8) -> [Option<u8>; 8]
    ensures { result ≡ known_from known.now at len }
{
    [
        known_at(known, at, len, 0),
        known_at(known, at, len, 1),
        known_at(known, at, len, 2),
        known_at(known, at, len, 3),
        known_at(known, at, len, 4),
        known_at(known, at, len, 5),
        known_at(known, at, len, 6),
        known_at(known, at, len, 7),
    ]
}

/// What is known of a byte by its index among some bytes from a place on.
fn known_at(known: &KnownBytes, at: usize, len: u8, index: u8) -> Option<u8>
    ensures { result ≡ known_at known.now at len index }
{
    let place = at.saturating_add(usize::from(index));
    if index >= len || place >= known.len() {
        return None;
    }
    match known.get(place) {
        Byte::Known(byte) => Some(byte),
        Byte::Open | Byte::Unseen => None,
    }
}
