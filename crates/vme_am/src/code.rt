ghost use Rattle.std.specs.Prelude.{◌≡◌};
ghost use Rattle.vme_am.specs.Spaces.{addresses_of};
ghost use Rattle.vme_am.specs.Kinds.{is_block, is_program};
ghost use Rattle.vme_am.specs.Bits.{space_by_bits, kind_by_bits};

use std::marker::Model;

/// An address space of the bus. It states how many address lines count in a cycle: IEEE 1014-1987,
/// 2.3.5 (addressing).
#[derive(Clone, Copy, Debug, PartialEq, Eq)]
pub enum Space {
    /// Short addresses, A01 to A15.
    A16,
    /// Standard addresses, A01 to A23.
    A24,
    /// Extended addresses, A01 to A31.
    A32,
}

impl Space {
    /// Returns the number of byte addresses of the space: 2^16, 2^24 or 2^32; IEEE 1014-1987, 2.3.5
    /// (addressing).
    pub fn addresses(self) -> u64
        ensures { result ≡ addresses_of self }
    {
        match self {
            Space::A16 => 1 << 16,
            Space::A24 => 1 << 24,
            Space::A32 => 1 << 32,
        }
    }
}

/// The kind of access that an address modifier code selects: IEEE 1014-1987, 2.2.2 (address
/// modifier lines).
#[derive(Clone, Copy, Debug, PartialEq, Eq)]
pub enum Kind {
    /// Data access, in the standard or the extended space.
    DataAccess,
    /// Program access, in the standard or the extended space.
    ProgramAccess,
    /// Block transfer, in the standard or the extended space.
    BlockAccess,
    /// Any access in the short space.
    ShortAccess,
}

impl Kind {
    /// Returns whether the access is a block transfer.
    pub fn is_block(self) -> bool
        ensures { result ≡ is_block self }
    {
        self == Kind::BlockAccess
    }

    /// Returns whether the access is a program access.
    pub fn is_program(self) -> bool
        ensures { result ≡ is_program self }
    {
        self == Kind::ProgramAccess
    }
}

/// The greatest number that six lines can carry.
const HIGHEST: u8 = 0x3f;

const AM5_AM4: u8 = 0x30;

const AM3: u8 = 0x08;

const AM2: u8 = 0x04;

const AM1_AM0: u8 = 0x03;

/// Returns the space that AM5 and AM4 select, or `None` for the user-defined codes.
fn space_of(code: u8) -> Option<Space>
    ensures { result ≡ space_by_bits code }
{
    match code & AM5_AM4 {
        0x00 => Some(Space::A32),
        0x10 => None,
        0x20 => Some(Space::A16),
        _ => Some(Space::A24),
    }
}

/// Returns the kind of access that AM3, AM1 and AM0 select in a space. Returns `None` where AM3 is
/// low or where the space has no access with these bits.
fn kind_of(space: Space, code: u8) -> Option<Kind>
    ensures { result ≡ kind_by_bits space code }
{
    match (space, code & (AM3 | AM1_AM0)) {
        (Space::A16, 0x09) => Some(Kind::ShortAccess),
        (Space::A24 | Space::A32, 0x09) => Some(Kind::DataAccess),
        (Space::A24 | Space::A32, 0x0a) => Some(Kind::ProgramAccess),
        (Space::A24 | Space::A32, 0x08 | 0x0b) => Some(Kind::BlockAccess),
        _ => None,
    }
}

/// Why a number is not an address modifier code of the table.
#[derive(Clone, Copy, Debug, PartialEq, Eq)]
pub enum AmFault {
    /// K9: above 3f. There are six address modifier lines.
    TooLarge,
    /// K2: from 10 to 1f. The standard leaves these codes to the user.
    UserDefined,
    /// K1: no row of the table has this code.
    Reserved,
}

/// An address modifier: a code of the table with the entries of its row; IEEE 1014-1987, 2.2.2
/// (address modifier lines).
#[derive(Clone, Copy, Debug, PartialEq, Eq)]
pub struct Am {
    code: u8,
    space: Space,
    kind: Kind,
    supervisory: bool,
    wide: bool,
}

impl Model for Am {
    ghost use Rattle.std.specs.Prelude.{◌≡◌, Some};
    ghost use Rattle.vme_am.specs.Codes.{CodeRow, row, row_at};

    ghost Value = { CodeRow };

    ghost view = { λ a. row a.code a.space a.kind a.supervisory a.wide };

    ghost invariant = { λ a. row_at a.code ≡ Some (row a.code a.space a.kind a.supervisory a.wide) };

    ghost inverse = { λ e. record {
      code = e.code;
      space = e.space;
      kind = e.kind;
      supervisory = e.supervisory;
      wide = e.wide;
    } };
}

impl Am {
    ghost use Rattle.std.specs.Prelude.{Some};
    ghost use Rattle.vme_am.specs.Codes.{row_at, read_code};

    /// Returns the row of an address modifier code: IEEE 1014-1987, 2.2.2 (address modifier lines).
    ///
    /// AM5 and AM4 select the space, or make the code user-defined. AM3 is high in each row, AM2
    /// states the privilege, and AM1 and AM0 select the kind of access. Where both are low, the
    /// code is one of a block whose data have eight bytes.
    ///
    /// # Errors
    ///
    /// `TooLarge` above 3f, `UserDefined` from 10 to 1f, `Reserved` for every other number without
    /// a row.
    #[tactic(auto, unfolding(crate::specs::Codes::read_code))]
    pub fn from_code(code: u8) -> Result<Am, AmFault>
        ensures { result ≡ read_code code }
    {
        if code > HIGHEST {
            return Err(AmFault::TooLarge);
        }
        let Some(space) = space_of(code) else {
            return Err(AmFault::UserDefined);
        };
        let Some(kind) = kind_of(space, code) else {
            return Err(AmFault::Reserved);
        };
        Ok(Am {
            code,
            space,
            kind,
            supervisory: code & AM2 != 0,
            wide: code & (AM3 | AM1_AM0) == AM3,
        })
    }

    /// Returns the number on AM5 to AM0, with AM5 the most significant bit.
    pub fn code(self) -> u8
        ensures value { result ≡ self.code }
        ensures row { row_at self.code ≡ Some self }
    {
        self.code
    }

    /// Returns the address space of the code.
    pub fn space(self) -> Space
        ensures { result ≡ self.space }
    {
        self.space
    }

    /// Returns the kind of access.
    pub fn kind(self) -> Kind
        ensures { result ≡ self.kind }
    {
        self.kind
    }

    /// Returns whether the code states supervisory privilege.
    pub fn is_supervisory(self) -> bool
        ensures { result ≡ self.supervisory }
    {
        self.supervisory
    }

    /// Returns whether each datum has eight bytes, on the address lines and the data lines
    /// together.
    pub fn wide(self) -> bool
        ensures { result ≡ self.wide }
    {
        self.wide
    }
}
