//! The levels of the bits of a variable.
ghost use Rattle.std.specs.Prelude.{◌≡◌, List};
ghost use Rattle.vme_vcd_reader.specs.declared.bits.Level.{Level};
ghost use Rattle.vme_vcd_reader.specs.Levels.{IsValue, level_of, put, with_level, value_of};

/// The levels of the last 64 bits of a variable. A bit that is in none of the three is low.
#[derive(Clone, Copy, Debug, PartialEq, Eq)]
pub(crate) struct Bits {
    /// The bits that are 1.
    pub(crate) ones: u64,
    /// Those that are not driven.
    pub(crate) free: u64,
    /// Those that are undefined.
    pub(crate) undefined: u64,
}

/// The level of one bit.
#[derive(Clone, Copy, Debug, PartialEq, Eq)]
pub(crate) enum Level {
    Low,
    High,
    Free,
    Undefined,
}

/// Returns the level that a byte spells: 0, 1, z and x in either case, and the levels of VHDL.
#[inline]
pub(crate) fn level_of(byte: u8) -> Option<Level>
    ensures { result ≡ level_of byte }
{
    match byte {
        b'0' | b'L' | b'l' => Some(Level::Low),
        b'1' | b'H' | b'h' => Some(Level::High),
        b'z' | b'Z' => Some(Level::Free),
        b'x' | b'X' | b'U' | b'u' | b'W' | b'w' | b'-' => Some(Level::Undefined),
        _ => None,
    }
}

/// Returns 64 bits with one more at their right.
#[inline]
pub(crate) fn put(bits: u64, bit: u64) -> u64
    ensures { result ≡ put bits bit }
{
    bits.wrapping_mul(2).wrapping_add(bit)
}

impl Bits {
    /// All bits low.
    pub(crate) const LOW: Bits = Bits {
        ones: 0,
        free: 0,
        undefined: 0,
    };

    /// Returns the bits with a further one at the right.
    #[inline]
    pub(crate) fn with(self, level: Level) -> Bits
        ensures { result ≡ with_level self level }
    {
        let (one, free, undefined) = match level {
            Level::Low => (0, 0, 0),
            Level::High => (1, 0, 0),
            Level::Free => (0, 1, 0),
            Level::Undefined => (0, 0, 1),
        };
        Bits {
            ones: put(self.ones, one),
            free: put(self.free, free),
            undefined: put(self.undefined, undefined),
        }
    }

    /// Returns the bits of a value of so many digits with those that its first digit gives to the
    /// left: the same for x and z, else 0.
    pub(crate) fn extended(self, first: Level, digits: u32) -> Bits
        ensures { (levels : List Level) → IsValue levels self first digits → result ≡ value_of levels }
    {
        if 64 <= digits {
            return self;
        }
        let left = u64::MAX.wrapping_shl(digits);
        match first {
            Level::Free => Bits {
                free: self.free.wrapping_add(left),
                ..self
            },
            Level::Undefined => Bits {
                undefined: self.undefined.wrapping_add(left),
                ..self
            },
            Level::Low | Level::High => self,
        }
    }
}
