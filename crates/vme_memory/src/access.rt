//! Data of transfers as commands to a slave, without the lines of a cycle.
ghost use Rattle.std.specs.Prelude.{◌≡◌, ◌<◌, ◌%◌, IsTrue, IfSome};
ghost use Rattle.vme_lanes.specs.Rows.{row_of, location_at};
ghost use Rattle.vme_cycle.specs.Requests.{count_of, is_counted};
ghost use Rattle.vme_memory.specs.Steps.{read_command, write_command, step};
ghost use Rattle.vme_memory.specs.Steps as Steps;
ghost use Rattle.vme_memory.specs.Access.{accessed};
ghost use Rattle.vme_memory.specs.Data.{datum_command};

use crate::board::ByteMemory;
use crate::reply::Reply;
use crate::word::placed_word;
use vme_cycle::{Modify, Request};
use vme_lanes::Location;

/// The greatest number of bytes of a datum on four data lanes.
const LANES: usize = 4;

/// The number of bytes of a datum on all eight lanes.
const WIDE_LEN: usize = 8;

/// One datum of a transfer as a command to the selected slave, without the lines of its cycle. `at`
/// is the offset of the first byte. `block` states whether the datum belongs to a block.
#[derive(Debug, Drop)]
pub enum Access<'a> {
    /// A read of `n` bytes.
    Read {
        block: bool,
        at: u32,
        n: u8,
    },
    /// A write of these bytes.
    Write {
        block: bool,
        at: u32,
        bytes: &'a [u8],
    },
    /// A read-modify-write of `n` bytes with the function `f`.
    Modify {
        at: u32,
        n: u8,
        f: &'a Modify,
    },
}

impl<'a> Access<'a> {
    /// Returns datum `i` of a request as an access, at the offset of its first byte.
    pub fn of_datum(request: &'a Request, i: u16, at: u32) -> Access<'a>
        requires counted { IsTrue (is_counted request.now) }
        requires in_count { i < count_of request.now }
        ensures { accessed result ≡ datum_command request.now i at }
    {
        match request {
            Request::Read { n, .. } => Access::Read {
                block: false,
                at,
                n: *n,
            },
            Request::BlockRead { n, .. } => Access::Read {
                block: true,
                at,
                n: *n,
            },
            Request::Modify { n, f, .. } => Access::Modify { at, n: *n, f },
            Request::Write { .. } => Access::Write {
                block: false,
                at,
                bytes: request.datum(i).unwrap(),
            },
            Request::BlockWrite { .. } | Request::BlockFill { .. } => Access::Write {
                block: true,
                at,
                bytes: request.datum(i).unwrap(),
            },
        }
    }
}

impl ByteMemory {
    /// Returns the reply to one datum of a transfer. The reply and the new memory are those of the
    /// command (`step` in the specs). After `Berr` nothing has changed.
    #[inline(always)]
    pub fn access(&mut self, access: &Access<'_>) -> Reply
        ensures reply { result ≡ (step self.old (accessed access.now)).0 }
        ensures memory { self.new ≡ (step self.old (accessed access.now)).1 }
        ensures berr { result ≡ Reply.Berr → self.new ≡ self.old }
    {
        match access {
            Access::Read { block, at, n } => self.read_datum(*block, *at, *n),
            Access::Write { block, at, bytes } => self.write_datum(*block, *at, bytes),
            Access::Modify { at, n, f } => self.modify_datum(*at, *n, f),
        }
    }

    #[inline(always)]
    fn read_datum(&self, block: bool, at: u32, n: u8) -> Reply
        ensures reply { result ≡ (step self.now (read_command block at n)).0 }
        ensures memory { self.now ≡ (step self.now (read_command block at n)).1 }
    {
        // The lengths are literals: where a call is inlined, the compiler computes the shifts.
        match n {
            1 => self.read_whole(block, at, 1),
            2 if at % 2 == 0 => self.read_whole(block, at, 2),
            4 if at % 4 == 0 => self.read_whole(block, at, 4),
            _ => self.read_other(block, at, n),
        }
    }

    /// A read of any length at any offset.
    fn read_other(&self, block: bool, at: u32, n: u8) -> Reply
        ensures reply { result ≡ (step self.now (read_command block at n)).0 }
        ensures memory { self.now ≡ (step self.now (read_command block at n)).1 }
    {
        if block && usize::from(n) == WIDE_LEN {
            if at % 4 != 0 {
                return Reply::Berr;
            }
            return self.read_wide(at);
        }
        match Location::of(at, n) {
            Some(location) => self.read(block, location, at),
            None => Reply::Berr,
        }
    }

    #[inline(always)]
    fn write_datum(&mut self, block: bool, at: u32, bytes: &[u8]) -> Reply
        ensures reply { result ≡ (step self.old (write_command block at bytes.now)).0 }
        ensures memory { self.new ≡ (step self.old (write_command block at bytes.now)).1 }
    {
        match bytes.len() {
            1 => self.write_whole(block, at, 1, bytes),
            2 if at % 2 == 0 => self.write_whole(block, at, 2, bytes),
            4 if at % 4 == 0 => self.write_whole(block, at, 4, bytes),
            _ => self.write_other(block, at, bytes),
        }
    }

    /// A write of any length at any offset.
    fn write_other(&mut self, block: bool, at: u32, bytes: &[u8]) -> Reply
        ensures reply { result ≡ (step self.old (write_command block at bytes.now)).0 }
        ensures memory { self.new ≡ (step self.old (write_command block at bytes.now)).1 }
    {
        if block && bytes.len() == WIDE_LEN {
            if at % 4 != 0 {
                return Reply::Berr;
            }
            return self.write_wide(at, bytes);
        }
        match location_of(at, bytes.len()) {
            Some(location) => self.write(block, location, at, placed_word(location, bytes)),
            None => Reply::Berr,
        }
    }

    fn modify_datum(&mut self, at: u32, n: u8, f: &Modify) -> Reply
        ensures reply { result ≡ (step self.old (Steps.Modify at n f.now)).0 }
        ensures memory { self.new ≡ (step self.old (Steps.Modify at n f.now)).1 }
    {
        match Location::of(at, n) {
            Some(location) => self.modify(location, at, f),
            None => Reply::Berr,
        }
    }
}

/// The location of `len` bytes at an offset, if a cycle on four lanes reaches them.
#[tactic(auto, using(crate::proofs::Places::none_longer))]
fn location_of(at: u32, len: usize) -> Option<Location>
    ensures value { result ≡ location_at at len }
    ensures row { IfSome result (λ l. ((row_of l).first ≡ at % 4) × ((row_of l).len ≡ len)) }
{
    if len > LANES {
        return None;
    }
    Location::of(at, len as u8)
}
