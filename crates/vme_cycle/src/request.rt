ghost use Rattle.std.specs.Prelude.{◌≡◌, ◌+◌, ◌<◌, length, IfSome, IsTrue};
ghost use Rattle.vme_cycle.specs.Counts.{is_datum_len, is_block_count, is_wide_code};
ghost use Rattle.vme_cycle.specs.Lawful.{location_for};

use crate::block::Block;
use crate::modify::Modify;
use vme_lanes::{Datum, Location};

/// The distance between the addresses that no block crosses: IEEE 1014-1987, 2.3.7 (block
/// transfer).
const BOUNDARY: u64 = 256;

/// The distance between the addresses that no block of eight-byte data crosses.
const WIDE_BOUNDARY: u64 = 2048;

/// The number of bytes of a datum with a code of eight-byte data.
const WIDE_LEN: u8 = 8;

/// A request of a master to the bus: `am` is the address modifier code, `addr` the address of the
/// first byte, and `n` the number of bytes of each datum.
#[derive(Debug, Drop)]
pub enum Request {
    /// A read of `n` bytes.
    Read {
        am: u8,
        addr: u32,
        n: u8,
    },
    /// A write of these bytes.
    Write {
        am: u8,
        addr: u32,
        bytes: Datum,
    },
    /// A block read of `count` data.
    BlockRead {
        am: u8,
        addr: u32,
        n: u8,
        count: u16,
    },
    /// A block write of these bytes, split into data of `n` bytes.
    BlockWrite {
        am: u8,
        addr: u32,
        n: u8,
        bytes: Block,
    },
    /// A block write of one datum, `count` times.
    BlockFill {
        am: u8,
        addr: u32,
        n: u8,
        count: u16,
        bytes: Datum,
    },
    /// A read-modify-write of `n` bytes with the function `f`.
    Modify {
        am: u8,
        addr: u32,
        n: u8,
        f: Modify,
    },
}

/// Whether data of a block may have `n` bytes: 8 with a code of eight-byte data, and otherwise 1, 2
/// or 4. A read-modify-write has the lengths of a block without this code.
fn is_datum_len(wide: bool, n: u8) -> bool
    ensures { result ≡ is_datum_len wide n }
{
    if wide {
        n == WIDE_LEN
    } else {
        n == 1 || n == 2 || n == 4
    }
}

/// The location of `n` bytes that begin at an address. Eight bytes use the strobes of BYTE(0-3).
pub(crate) fn location_for(addr: u32, n: u8) -> Option<Location>
    ensures { result ≡ location_for addr n }
{
    if n == WIDE_LEN {
        Some(Location::Bytes03)
    } else {
        Location::of(addr, n)
    }
}

/// Whether a block may have `count` data.
fn is_block_count(count: usize) -> bool
    ensures { result ≡ is_block_count count }
{
    1 <= count && count <= 256
}

impl Request {
    ghost use Rattle.std.specs.Option.{option_map};
    ghost use Rattle.vme_cycle.specs.Requests.{code_of, addr_of, is_block_request, function_of, reads, datum_len, count_of, read_len, is_counted, datum_of, span_of};
    ghost use Rattle.vme_cycle.specs.Lawful.{first_location, crosses_boundary};

    pub(crate) fn code(&self) -> u8
        ensures { result ≡ code_of self.now }
    {
        match self {
            Request::Read { am, .. }
            | Request::Write { am, .. }
            | Request::BlockRead { am, .. }
            | Request::BlockWrite { am, .. }
            | Request::BlockFill { am, .. }
            | Request::Modify { am, .. } => *am,
        }
    }

    pub(crate) fn addr(&self) -> u32
        ensures { result ≡ addr_of self.now }
    {
        match self {
            Request::Read { addr, .. }
            | Request::Write { addr, .. }
            | Request::BlockRead { addr, .. }
            | Request::BlockWrite { addr, .. }
            | Request::BlockFill { addr, .. }
            | Request::Modify { addr, .. } => *addr,
        }
    }

    pub(crate) fn is_block(&self) -> bool
        ensures { result ≡ is_block_request self.now }
    {
        match self {
            Request::Read { .. } | Request::Write { .. } | Request::Modify { .. } => false,
            Request::BlockRead { .. } | Request::BlockWrite { .. } | Request::BlockFill { .. } =>
                true,
        }
    }

    /// The function of a read-modify-write.
    pub(crate) fn function(&self) -> Option<&Modify>
        ensures { option_map (λ f. f.now) result ≡ function_of self.now }
    {
        match self {
            Request::Modify { f, .. } => Some(f),
            Request::Read { .. }
            | Request::Write { .. }
            | Request::BlockRead { .. }
            | Request::BlockWrite { .. }
            | Request::BlockFill { .. } => None,
        }
    }

    /// Whether the request only reads.
    pub(crate) fn reads(&self) -> bool
        ensures { result ≡ reads self.now }
    {
        match self {
            Request::Read { .. } | Request::BlockRead { .. } => true,
            Request::Write { .. }
            | Request::BlockWrite { .. }
            | Request::BlockFill { .. }
            | Request::Modify { .. } => false,
        }
    }

    /// The number of bytes of each datum.
    pub(crate) fn datum_len(&self) -> u8
        ensures { result ≡ datum_len self.now }
    {
        match self {
            Request::Read { n, .. }
            | Request::BlockRead { n, .. }
            | Request::BlockWrite { n, .. }
            | Request::BlockFill { n, .. }
            | Request::Modify { n, .. } => *n,
            Request::Write { bytes, .. } => bytes.as_slice().len() as u8,
        }
    }

    /// Returns the number of bytes that a lawful request reads in all; 0 for a write.
    pub fn read_len(&self) -> usize
        ensures { result ≡ read_len self.now }
    {
        match self {
            Request::Read { n, .. } | Request::Modify { n, .. } => usize::from(*n),
            Request::BlockRead { n, count, .. } => usize::from(*n) * usize::from(*count),
            Request::Write { .. } | Request::BlockWrite { .. } | Request::BlockFill { .. } => 0,
        }
    }

    /// The number of data.
    pub(crate) fn count(&self) -> u16
        requires { 0 < datum_len self.now }
        ensures { result ≡ count_of self.now }
    {
        match self {
            Request::Read { .. } | Request::Write { .. } | Request::Modify { .. } => 1,
            Request::BlockRead { count, .. } | Request::BlockFill { count, .. } => *count,
            Request::BlockWrite { n, bytes, .. } => {
                (bytes.as_slice().len() / usize::from(*n)) as u16
            }
        }
    }

    /// Whether the datum length and the number of data are allowed and match the bytes. `wide`
    /// states whether the code is one of eight-byte data.
    pub(crate) fn is_counted(&self, wide: bool) -> bool
        requires { is_wide_code (code_of self.now) ≡ wide }
        ensures { result ≡ is_counted self.now }
    {
        match self {
            Request::Read { n, .. } => (1..=4).contains(n),
            Request::Write { bytes, .. } => (1..=4).contains(&bytes.len()),
            Request::BlockRead { n, count, .. } => {
                is_datum_len(wide, *n) && is_block_count(usize::from(*count))
            }
            Request::BlockWrite { n, bytes, .. } => {
                let len = bytes.len();
                is_datum_len(wide, *n)
                    && is_block_count(len / usize::from(*n))
                    && len % usize::from(*n) == 0
            }
            Request::BlockFill {
                n,
                count,
                bytes,
                ..
            } => {
                is_datum_len(wide, *n)
                    && is_block_count(usize::from(*count))
                    && bytes.len() == usize::from(*n)
            }
            Request::Modify { n, f, .. } => is_datum_len(false, *n) && f.has_len(*n),
        }
    }

    /// Returns the bytes that a write drives as datum `i`, and `None` for every other request.
    pub fn datum(&self, i: u16) -> Option<&[u8]>
        requires counted { IsTrue (is_counted self.now) }
        requires in_count { i < count_of self.now }
        ensures value { option_map (λ bytes. bytes.now) result ≡ datum_of self.now i }
        ensures len { IfSome result (λ bytes. length bytes.now ≡ datum_len self.now) }
    {
        match self {
            Request::Read { .. } | Request::BlockRead { .. } | Request::Modify { .. } => None,
            Request::Write { bytes, .. } | Request::BlockFill { bytes, .. } => {
                Some(bytes.as_slice())
            }
            Request::BlockWrite { n, bytes, .. } => {
                let start = usize::from(i) * usize::from(*n);
                Some(&bytes.as_slice()[start..start + usize::from(*n)])
            }
        }
    }

    /// The address after the last byte.
    pub(crate) fn end(&self) -> u64
        requires { IsTrue (is_counted self.now) }
        ensures { result ≡ addr_of self.now + span_of self.now }
    {
        u64::from(self.addr()) + u64::from(self.datum_len()) * u64::from(self.count())
    }

    /// The byte location of the first datum.
    pub(crate) fn first_location(&self) -> Option<Location>
        requires { IsTrue (is_counted self.now) }
        ensures { result ≡ first_location self.now }
    {
        let is_aligned_kind = self.is_block() || self.function().is_some();
        if is_aligned_kind && self.addr() % u32::from(self.datum_len()) != 0 {
            return None;
        }
        location_for(self.addr(), self.datum_len())
    }

    /// Whether the first and the last byte of a block lie in different units of 256 bytes, or of
    /// 2,048 bytes where its data have eight bytes.
    pub(crate) fn crosses_boundary(&self) -> bool
        requires { IsTrue (is_counted self.now) }
        ensures { result ≡ crosses_boundary self.now }
    {
        let unit = if self.datum_len() == WIDE_LEN {
            WIDE_BOUNDARY
        } else {
            BOUNDARY
        };
        self.is_block() && u64::from(self.addr()) / unit != (self.end() - 1) / unit
    }
}
