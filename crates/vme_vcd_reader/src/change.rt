//! The levels that a change of a variable gives to lines.
ghost use Rattle.std.specs.Prelude.{◌≡◌};
ghost use Rattle.vme_vcd_reader.specs.Changes.{change_of, idle_after, is_high, is_undefined, lines_after, placed};

use crate::bits::Bits;
use crate::variable::Mapped;

/// The lines of a group that a change gives new levels, in the place of the group's lines.
#[derive(Clone, Copy)]
pub(crate) struct Change {
    pub(crate) mask: u32,
    pub(crate) ones: u32,
    pub(crate) free: u32,
    pub(crate) undefined: u32,
}

impl Change {
    /// The levels that the bits of a variable give to lines.
    pub(crate) fn of(mapped: &Mapped, bits: &Bits) -> Change
        ensures { result ≡ change_of mapped.now bits.now }
    {
        let mask = mapped.mask;
        let free = placed(mapped, bits.free);
        let undefined = placed(mapped, bits.undefined);
        let ones = placed(mapped, bits.ones);
        let ones = if mapped.is_inverted { !ones } else { ones };
        Change {
            mask,
            ones: ones & mask & !free & !undefined,
            free: free & mask,
            undefined: undefined & mask,
        }
    }

    /// Whether the line of a group of one is high. It is high if nothing drives it.
    pub(crate) fn is_high(self) -> bool
        ensures { result ≡ is_high self }
    {
        self.ones | self.free != 0
    }

    /// Whether it is undefined.
    pub(crate) fn is_undefined(self) -> bool
        ensures { result ≡ is_undefined self }
    {
        self.undefined != 0
    }

    /// The new value of the lines of a group.
    pub(crate) fn in_place(self, old: u32) -> u32
        ensures { result ≡ lines_after self old }
    {
        old & !self.mask | self.ones
    }

    /// The lines that are not driven or undefined, after the change.
    pub(crate) fn idle_in(self, old: u32) -> u32
        ensures { result ≡ idle_after self old }
    {
        old & !self.mask | self.free | self.undefined
    }
}

/// Bits of a variable at the places of their lines.
fn placed(mapped: &Mapped, bits: u64) -> u32
    ensures { result ≡ placed mapped.now bits }
{
    let bits = bits
        .wrapping_shr(u32::from(mapped.right))
        .wrapping_shl(u32::from(mapped.first));
    (bits & 0xffff_ffff) as u32
}
