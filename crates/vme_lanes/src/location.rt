ghost use Rattle.std.specs.Prelude.{◌≡◌, ◌+◌, ◌%◌, ◌≤◌, ℕ, Some, IfSome};
ghost use Rattle.vme_lanes.specs.Rows.{row_of, location_at, location_sensed};

/// The bytes of a group of four that one cycle reaches, named by their addresses modulo four: IEEE
/// 1014-1987, 2.2.1 (addressing lines).
#[derive(Clone, Copy, Debug, PartialEq, Eq)]
pub enum Location {
    /// BYTE(0)
    Byte0,
    /// BYTE(1)
    Byte1,
    /// BYTE(2)
    Byte2,
    /// BYTE(3)
    Byte3,
    /// BYTE(0-1)
    Bytes01,
    /// BYTE(2-3)
    Bytes23,
    /// BYTE(0-3)
    Bytes03,
    /// BYTE(0-2)
    Bytes02,
    /// BYTE(1-3)
    Bytes13,
    /// BYTE(1-2)
    Bytes12,
}

impl Location {
    /// Returns the location of `n` bytes that begin at `addr`, or `None` where no single cycle
    /// reaches these bytes.
    #[tactic(auto, unfolding(crate::specs::Rows::location_at))]
    pub fn of(addr: u32, n: u8) -> Option<Location>
        ensures value { result ≡ location_at addr n }
        ensures row { IfSome result (λ l. ((row_of l).first ≡ addr % 4) × ((row_of l).len ≡ n)) }
    {
        match (addr % 4, n) {
            (0, 1) => Some(Location::Byte0),
            (1, 1) => Some(Location::Byte1),
            (2, 1) => Some(Location::Byte2),
            (3, 1) => Some(Location::Byte3),
            (0, 2) => Some(Location::Bytes01),
            (2, 2) => Some(Location::Bytes23),
            (0, 4) => Some(Location::Bytes03),
            (0, 3) => Some(Location::Bytes02),
            (1, 3) => Some(Location::Bytes13),
            (1, 2) => Some(Location::Bytes12),
            _ => None,
        }
    }

    /// Returns the location that a slave senses from the strobes, or `None` where they select no
    /// bytes.
    #[tactic(auto, unfolding(crate::specs::Rows::location_sensed, crate::specs::Rows::location_at))]
    pub fn sense(strobes: Strobes) -> Option<Location>
        ensures value { result ≡ location_sensed strobes }
        ensures row { IfSome result (λ l. (row_of l).strobes ≡ strobes) }
    {
        let half = if strobes.a01 { 2 } else { 0 };
        match (strobes.lword, strobes.ds1, strobes.ds0) {
            (true, false, true) => Location::of(half, 1),
            (true, true, false) => Location::of(half + 1, 1),
            (true, false, false) => Location::of(half, 2),
            (false, false, false) if strobes.a01 => Location::of(1, 2),
            (false, false, false) => Location::of(0, 4),
            (false, false, true) => Location::of(half, 3),
            (false, true, false) => Location::of(half + 1, 3),
            _ => None,
        }
    }

    /// Returns the location that a slave senses from the strobes of this one with A01 at the level
    /// `a01`. Returns `None` where these strobes select no bytes.
    #[tactic(auto, unfolding(crate::specs::Rows::location_sensed))]
    pub fn with_a01(self, a01: bool) -> Option<Location>
        ensures { result ≡ location_sensed (record (row_of self).strobes { a01 = a01 }) }
    {
        match (self, a01) {
            (Location::Byte0 | Location::Byte2, false) => Some(Location::Byte0),
            (Location::Byte0 | Location::Byte2, true) => Some(Location::Byte2),
            (Location::Byte1 | Location::Byte3, false) => Some(Location::Byte1),
            (Location::Byte1 | Location::Byte3, true) => Some(Location::Byte3),
            (Location::Bytes01 | Location::Bytes23, false) => Some(Location::Bytes01),
            (Location::Bytes01 | Location::Bytes23, true) => Some(Location::Bytes23),
            (Location::Bytes03 | Location::Bytes12, false) => Some(Location::Bytes03),
            (Location::Bytes03 | Location::Bytes12, true) => Some(Location::Bytes12),
            (Location::Bytes02, false) => Some(Location::Bytes02),
            (Location::Bytes13, false) => Some(Location::Bytes13),
            (Location::Bytes02 | Location::Bytes13, true) => None,
        }
    }

    /// Returns the address of the first byte, modulo four.
    pub fn first(self) -> u8
        ensures { result ≡ (row_of self).first }
    {
        match self {
            Location::Byte0 | Location::Bytes01 | Location::Bytes03 | Location::Bytes02 => 0,
            Location::Byte1 | Location::Bytes13 | Location::Bytes12 => 1,
            Location::Byte2 | Location::Bytes23 => 2,
            Location::Byte3 => 3,
        }
    }

    /// Returns the number of bytes, 1 to 4.
    pub fn len(self) -> u8
        ensures { result ≡ (row_of self).len }
    {
        match self {
            Location::Byte0 | Location::Byte1 | Location::Byte2 | Location::Byte3 => 1,
            Location::Bytes01 | Location::Bytes23 | Location::Bytes12 => 2,
            Location::Bytes02 | Location::Bytes13 => 3,
            Location::Bytes03 => 4,
        }
    }

    /// The lane of the first byte, counted from D31-D24. Where LWORD* is low, each byte uses the
    /// lane of its place in the group of four. Otherwise an even byte uses D15-D08 and an odd byte
    /// D07-D00.
    pub(crate) fn lane(self) -> usize
        ensures value { result ≡ (row_of self).lane }
        ensures fits { (row_of self).lane + (row_of self).len ≤ 4 }
    {
        if Strobes::of(self).lword {
            2 + usize::from(self.first() % 2)
        } else {
            usize::from(self.first())
        }
    }
}

/// The levels of the lines that select a byte location: IEEE 1014-1987, 2.2.1 (addressing lines).
/// `true` is high.
#[derive(Clone, Copy, Debug, PartialEq, Eq)]
pub struct Strobes {
    /// DS1*
    pub ds1: bool,
    /// DS0*
    pub ds0: bool,
    /// A01
    pub a01: bool,
    /// LWORD*
    pub lword: bool,
}

impl Strobes {
    /// Returns the strobes of a location: IEEE 1014-1987, 2.2.1 (addressing lines).
    ///
    /// If the bytes lie in one half of the group of four, LWORD* is high and A01 is high for the
    /// upper half. DS1* is then low for an even byte and DS0* for an odd byte. If the bytes lie in
    /// both halves, LWORD* is low. DS1* is then high where only byte 0 is left out, DS0* where only
    /// byte 3 is left out, and A01 where both are.
    pub fn of(location: Location) -> Strobes
        ensures { result ≡ (row_of location).strobes }
    {
        let first = location.first();
        let last = first + location.len() - 1;
        Strobes {
            ds1: first % 2 == 1 && last % 2 == 1,
            ds0: first % 2 == 0 && last % 2 == 0,
            a01: first >= 2 || first == 1 && last == 2,
            lword: first >= 2 || last < 2,
        }
    }
}

/// States that each location is sensed from its own strobes: no two rows have the same strobes.
#[tactic(auto, using(crate::proofs::lemmas::Tables::own_sensed))]
pub fn strobes_are_sensed()
    ensures { (l : Location) → location_sensed (row_of l).strobes ≡ Some l }
{}

/// States that each location is found by its length at every address with its place in the group of
/// four: no two rows have the same first byte and the same length.
#[tactic(auto, using(crate::proofs::lemmas::Tables::own_found))]
pub fn places_are_found()
    ensures { (l : Location) (addr : ℕ) → (row_of l).first ≡ addr % 4 →
        location_at addr (row_of l).len ≡ Some l }
{}
