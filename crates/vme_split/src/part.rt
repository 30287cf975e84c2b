//! The parts of an access.
ghost use Rattle.std.specs.Prelude.{◌≡◌, ◌+◌, ◌<◌, ◌≤◌, ◌^◌};
ghost use Rattle.vme_split.specs.Parts.{width_bytes, part_len, parts};

use arrayvec::ArrayVec;
use vme_memory::Width8To32;

/// The greatest number of parts of a local access: one for each of its bytes.
const MOST_PARTS: usize = 4;

/// Consecutive bytes that are moved at once.
#[derive(Clone, Copy, Debug, Default, PartialEq, Eq)]
pub struct Part {
    /// The offset or the address of the first byte.
    pub at: u32,
    /// The number of bytes.
    pub len: u8,
}

/// Returns the number of bytes that a processor of a width moves at once.
pub fn width_bytes(width: Width8To32) -> u8
    ensures { result ≡ width_bytes width }
{
    match width {
        Width8To32::D08 => 1,
        Width8To32::D16 => 2,
        Width8To32::D32 => 4,
    }
}

/// The number of bytes of the first part of `n` bytes from `at` on.
pub(crate) fn part_len(width: u8, at: u32, n: u8) -> u8
    ensures { result ≡ part_len width at n }
{
    if 4 <= width && 4 <= n && at % 4 == 0 {
        4
    } else if 2 <= width && 2 <= n && at % 2 == 0 {
        2
    } else {
        1
    }
}

/// Returns the parts of a local access of `n` bytes from `at` on, by a processor that moves `width`
/// bytes at once.
#[tactic(auto, using(crate::proofs::Parts::some, crate::proofs::Parts::within, crate::proofs::Parts::no_parts, crate::proofs::Parts::first_part))]
pub fn parts_of(width: u8, at: u32, n: u8) -> ArrayVec<Part, 4>
    requires length { n ≤ 4 }
    requires end { at + n < 2 ^ 32 }
    ensures { result.items ≡ parts width at n }
{
    let mut parts = ArrayVec::new();
    let (mut at, mut rest) = (at, n);
    for _round in 0..MOST_PARTS {
        if 0 < rest {
            let len = part_len(width, at, rest);
            parts.push(Part { at, len });
            at += u32::from(len);
            rest -= len;
        }
    }
    parts
}
