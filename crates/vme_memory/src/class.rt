use vme_lanes::Location;

/// The data width of a slave. Each width includes the narrower ones: IEEE 1014-1987, 2.3.6 (basic
/// data transfer).
#[derive(Clone, Copy, Debug, PartialEq, Eq)]
pub enum Width8To32 {
    /// Single even and odd bytes: D08(EO).
    D08,
    /// Single and double bytes: D16.
    D16,
    /// Single, double and quad bytes: D32.
    D32,
}

/// The cycles to which the slave of a board replies.
#[derive(Clone, Copy, Debug, PartialEq, Eq)]
pub struct Class {
    /// The greatest data width.
    pub width: Width8To32,
    /// Unaligned cycles: three bytes, and the two middle bytes of a group of four. They also
    /// require D32: IEEE 1014-1987, 2.3.9 (unaligned transfer).
    pub uat: bool,
    /// Block transfers: IEEE 1014-1987, 2.3.7 (block transfer).
    pub blt: bool,
    /// Read-modify-write cycles: IEEE 1014-1987, 2.3.8 (read-modify-write).
    pub rmw: bool,
}

impl Class {
    ghost use Rattle.std.specs.Prelude.{◌≡◌};
    ghost use Rattle.vme_memory.specs.Classes.{answers, answers_whole};

    /// Whether the class has the cycle of a location.
    pub(crate) fn answers(self, location: Location) -> bool
        ensures { result ≡ answers self location }
    {
        match location {
            Location::Byte0 | Location::Byte1 | Location::Byte2 | Location::Byte3 => true,
            Location::Bytes01 | Location::Bytes23 => self.width != Width8To32::D08,
            Location::Bytes03 => self.width == Width8To32::D32,
            Location::Bytes02 | Location::Bytes13 | Location::Bytes12 => {
                self.width == Width8To32::D32 && self.uat
            }
        }
    }
    /// Whether the class has the cycle of one, two or four bytes at a multiple of their number.
    pub(crate) fn answers_whole(self, n: u8) -> bool
        ensures { result ≡ answers_whole self n }
    {
        match n {
            1 => true,
            2 => self.width != Width8To32::D08,
            _ => self.width == Width8To32::D32,
        }
    }
}
