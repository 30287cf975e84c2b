ghost use Rattle.std.specs.Prelude.{ℕ, ◌≡◌, ◌↔◌, ◌+◌, ◌%◌, ◌≤◌, length, take, drop, slice_get, true, false, Some, None, IsTrue, ◌&&◌, ◌||◌, not, IfOk, OnOk, IsErrOf};
ghost use Rattle.vme_lanes.specs.Rows.{row_of};
ghost use Rattle.vme_memory.specs.Words.{part_of};
ghost use Rattle.vme_cycle.specs.SignalLines.{len_at};
ghost use Rattle.vme_memory.specs.Classes.{answers_quads, is_block_place, is_modify_place};
ghost use Rattle.vme_memory.specs.Boards.{is_board_size, zeros};

use crate::class::{Class, Width8To32};
use crate::fault::MemoryFault;
use crate::reply::Reply;
use crate::storage::{Row, Storage};
use crate::word::{driven_word, placed_word};
use std::alloc::{AllocError, Global};
use std::marker::Model;
use vme_cycle::{Modify, Signals};
use vme_lanes::{DataLines, Datum, Location, pick_wide};

/// The memory of a board, with the class of its slave.
#[derive(Drop)]
pub struct ByteMemory {
    pub(crate) storage: Storage,
    class: Class,
}

impl Model for ByteMemory {
    ghost use Rattle.vme_memory.specs.Boards.{Board};

    ghost Value = { Board };

    ghost view = { λ m. record { bytes = m.storage; class = m.class } };
}

/// The greatest number of bytes of a board's memory.
const BOARD_LIMIT: u32 = 1_048_576;

impl ByteMemory {
    ghost use Rattle.std.specs.Option.{option_map};
    ghost use Rattle.vme_cycle.specs.Functions.{has_len};
    ghost use Rattle.vme_memory.specs.Steps as Steps;
    ghost use Rattle.vme_memory.specs.Steps.{fits, has_cycle, bytes_at, modify_at, step, answer, read_command, write_command, driven_write, wide_write, wide_command, cycle, HasLen};

    /// Returns a memory of `size` bytes, all zero.
    ///
    /// # Errors
    ///
    /// `BadSize` (C5) exactly where the size is not from 4 to 1,048,576 or not a multiple of four.
    /// `OutOfMemory`: an allocation failed.
    #[tactic(auto, unfolding(crate::specs::Boards::zeros))]
    pub fn new(alloc: Global, size: u32, class: Class) -> Result<ByteMemory, MemoryFault>
        ensures zero { IfOk result (λ m. m ≡ record { bytes = zeros size; class = class }) }
        ensures good_size { OnOk result (is_board_size size ≡ true) }
        ensures bad_size { IsErrOf result MemoryFault.BadSize ↔ (is_board_size size ≡ false) }
    {
        if !ByteMemory::is_size(size) {
            return Err(MemoryFault::BadSize);
        }
        match Storage::new(alloc, size) {
            Ok(storage) => Ok(ByteMemory { storage, class }),
            Err(_) => Err(MemoryFault::OutOfMemory),
        }
    }

    /// Returns a copy of the memory.
    ///
    /// # Errors
    ///
    /// `AllocError`: an allocation failed.
    pub fn copy(&self, alloc: Global) -> Result<ByteMemory, AllocError>
        ensures { IfOk result (λ m. m ≡ self.now) }
    {
        let storage = self.storage.copy(alloc)?;
        Ok(ByteMemory {
            storage,
            class: self.class,
        })
    }

    /// Returns `true` only if another memory has the same bytes and the same class.
    pub fn is_same(&self, other: &ByteMemory) -> bool
        ensures { IsTrue result → self.now ≡ other.now }
    {
        self.class == other.class && self.storage.is_same(&other.storage)
    }

    /// Returns whether a memory can have this number of bytes: 4 to 1,048,576, a multiple of four.
    pub fn is_size(size: u32) -> bool
        ensures { result ≡ is_board_size size }
    {
        4 <= size && size <= BOARD_LIMIT && size % 4 == 0
    }

    /// Returns the number of bytes.
    pub fn size(&self) -> u32
        ensures value { result ≡ length self.now.bytes }
        ensures size { is_board_size result ≡ true }
    {
        self.storage.len()
    }

    /// Returns the byte at an offset, or `None` past the end.
    pub fn byte(&self, offset: u32) -> Option<u8>
        ensures { result ≡ slice_get self.now.bytes offset }
    {
        self.storage.byte(offset)
    }

    /// Returns `true` only if sixteen bytes begin at `offset`, a multiple of four, and all are zero.
    /// It is faster than a look at `row`.
    pub fn is_blank_row(&self, offset: u32) -> bool
        requires { offset % 4 ≡ 0 }
        ensures { IsTrue result → take 16 (drop offset self.now.bytes) ≡ zeros 16 }
    {
        self.storage.is_blank_row(offset)
    }

    /// Returns the sixteen bytes that begin at `offset`, or those up to the end. `offset` is a
    /// multiple of four.
    pub fn row(&self, offset: u32) -> Row
        requires aligned { offset % 4 ≡ 0 }
        requires within { offset ≤ length self.now.bytes }
        ensures { result.items ≡ take 16 (drop offset self.now.bytes) }
    {
        self.storage.row(offset)
    }

    /// Returns the reply to the cycle that the signals show, with its first byte at offset `at` and
    /// the function of a read-modify-write: IEEE 1014-1987, 2.3.6 (basic data transfer) to 2.3.9
    /// (unaligned transfer). The reply and the new memory are those of the command of the cycle.
    /// After `Berr` nothing has changed.
    ///
    /// In a block, this is one datum: the slave increments the address and takes A01 from `at`. A
    /// read-modify-write shows its read half, and the reply has the old bytes.
    #[tactic(auto, unfolding(crate::specs::Steps::cycle))]
    pub fn cycle(&mut self, signals: &Signals, at: u32, f: Option<&Modify>) -> Reply
        ensures reply { result ≡ (cycle self.old signals.now at (option_map (λ f. f.now) f.entry)).0 }
        ensures memory { self.new ≡ (cycle self.old signals.now at (option_map (λ f. f.now) f.entry)).1 }
        ensures berr { result ≡ Reply.Berr → self.new ≡ self.old }
        ensures len { (len : ℕ) → len_at signals.now at ≡ Some len → HasLen result len }
    {
        let Some(location) = signals.sensed_at(at) else {
            return Reply::Berr;
        };
        if u32::from(location.first()) != at % 4 {
            return Reply::Berr;
        }
        if signals.am().wide() {
            return self.wide_cycle(signals, location, at, f);
        }
        let block = signals.am().kind().is_block();
        match (block, signals.write(), f) {
            (_, true, None) => self.read(block, location, at),
            (_, false, None) => self.drive(block, location, at, signals.lines()),
            (false, true, Some(f)) => self.modify(location, at, f),
            (_, _, Some(_)) => Reply::Berr,
        }
    }

    /// Returns the reply to a read cycle without a function, as `cycle` does. It changes nothing.
    #[tactic(auto, using(crate::proofs::Places::quad_first), unfolding(crate::specs::Steps::cycle))]
    pub(crate) fn read_cycle(&self, signals: &Signals, at: u32) -> Reply
        requires { signals.now.write ≡ true }
        ensures reply { result ≡ (cycle self.now signals.now at None).0 }
        ensures memory { self.now ≡ (cycle self.now signals.now at None).1 }
    {
        let Some(location) = signals.sensed_at(at) else {
            return Reply::Berr;
        };
        if u32::from(location.first()) != at % 4 {
            return Reply::Berr;
        }
        if !signals.am().wide() {
            return self.read(signals.am().kind().is_block(), location, at);
        }
        if location.len() != 4 {
            return Reply::Berr;
        }
        self.read_wide(at)
    }

    /// The reply to a cycle with a code of eight-byte data, in which BYTE(0-3) selects all eight
    /// bytes.
    #[tactic(auto, using(crate::proofs::Places::quad_first))]
    fn wide_cycle(
        &mut self,
        signals: &Signals,
        location: Location,
        at: u32,
        f: Option<&Modify>,
    ) -> Reply
        requires { (row_of location).first ≡ at % 4 }
        ensures reply { result ≡ (answer self.old
            (wide_command signals.now.write (option_map (λ f. f.now) f.entry) at location signals.now.lanes)).0 }
        ensures memory { self.new ≡ (answer self.old
            (wide_command signals.now.write (option_map (λ f. f.now) f.entry) at location signals.now.lanes)).1 }
        ensures len { HasLen result 8 }
    {
        if f.is_some() || location.len() != 4 {
            return Reply::Berr;
        }
        if signals.write() {
            self.read_wide(at)
        } else {
            self.drive_wide(at, signals.lines())
        }
    }

    pub(crate) fn read_wide(&self, at: u32) -> Reply
        requires { at % 4 ≡ 0 }
        ensures reply { result ≡ (step self.now (Steps.BlockRead at 8)).0 }
        ensures memory { self.now ≡ (step self.now (Steps.BlockRead at 8)).1 }
        ensures len { HasLen result 8 }
    {
        if !self.reaches_wide(at) {
            return Reply::Berr;
        }
        Reply::Bytes(self.storage.read_wide(at))
    }

    fn drive_wide(&mut self, at: u32, lines: DataLines) -> Reply
        requires { at % 4 ≡ 0 }
        ensures reply { result ≡ (answer self.old (wide_write at lines.lanes)).0 }
        ensures memory { self.new ≡ (answer self.old (wide_write at lines.lanes)).1 }
        ensures len { HasLen result 8 }
    {
        if !lines.carries_all() {
            return Reply::Berr;
        }
        self.write_wide(at, pick_wide(lines).as_slice())
    }

    pub(crate) fn write_wide(&mut self, at: u32, bytes: &[u8]) -> Reply
        requires place { at % 4 ≡ 0 }
        requires wide { length bytes.now ≡ 8 }
        ensures reply { result ≡ (step self.old (Steps.BlockWrite at bytes.now)).0 }
        ensures memory { self.new ≡ (step self.old (Steps.BlockWrite at bytes.now)).1 }
        ensures len { HasLen result 8 }
    {
        if !self.reaches_wide(at) {
            return Reply::Berr;
        }
        self.storage.write_wide(at, bytes);
        Reply::Done
    }

    /// Whether eight bytes at `at` lie within the board and its class has the cycle.
    fn reaches_wide(&self, at: u32) -> bool
        ensures { result ≡ (fits self.now at 8 && answers_quads self.now.class.width && self.now.class.blt) }
    {
        self.fits(at, 8) && self.class.width == Width8To32::D32 && self.class.blt
    }

    /// Whether the bytes of a location at `at` lie within the board and its class has the cycle.
    #[tactic(auto, using(crate::proofs::Places::place_found))]
    fn reaches(&self, location: Location, at: u32) -> bool
        requires { (row_of location).first ≡ at % 4 }
        ensures { result ≡ (fits self.now at (row_of location).len
            && has_cycle self.now at (row_of location).len) }
    {
        self.fits(at, location.len()) && self.class.answers(location)
    }

    pub(crate) fn fits(&self, at: u32, len: u8) -> bool
        ensures { result ≡ fits self.now at len }
    {
        u64::from(at) + u64::from(len) <= u64::from(self.storage.len())
    }

    #[tactic(auto, using(crate::proofs::Places::not_wide))]
    pub(crate) fn read(&self, block: bool, location: Location, at: u32) -> Reply
        requires { (row_of location).first ≡ at % 4 }
        ensures reply { result ≡ (step self.now (read_command block at (row_of location).len)).0 }
        ensures memory { self.now ≡ (step self.now (read_command block at (row_of location).len)).1 }
        ensures len { HasLen result (row_of location).len }
    {
        if !self.reaches(location, at) {
            return Reply::Berr;
        }
        if block && !self.has_block(location, at) {
            return Reply::Berr;
        }
        Reply::Bytes(self.storage.read(location, at))
    }

    fn has_block(&self, location: Location, at: u32) -> bool
        ensures { result ≡ (is_block_place at (row_of location).len && self.now.class.blt) }
    {
        is_whole_place(location, at) && self.class.blt
    }

    fn drive(&mut self, block: bool, location: Location, at: u32, lines: DataLines) -> Reply
        requires { (row_of location).first ≡ at % 4 }
        ensures reply { result ≡ (answer self.old (driven_write block location at lines.lanes)).0 }
        ensures memory { self.new ≡ (answer self.old (driven_write block location at lines.lanes)).1 }
        ensures len { (len : ℕ) → HasLen result len }
    {
        if !lines.carries(location) {
            return Reply::Berr;
        }
        self.write(block, location, at, driven_word(location, lines))
    }

    #[tactic(auto, using(crate::proofs::Places::not_wide, crate::proofs::Enables::part_len))]
    pub(crate) fn write(&mut self, block: bool, location: Location, at: u32, word: u32) -> Reply
        requires { (row_of location).first ≡ at % 4 }
        ensures reply { result ≡ (step self.old (write_command block at (part_of location word))).0 }
        ensures memory { self.new ≡ (step self.old (write_command block at (part_of location word))).1 }
        ensures len { (len : ℕ) → HasLen result len }
    {
        if !self.reaches(location, at) {
            return Reply::Berr;
        }
        if block && !self.has_block(location, at) {
            return Reply::Berr;
        }
        self.storage.write(location, at, word);
        Reply::Done
    }

    pub(crate) fn modify(&mut self, location: Location, at: u32, f: &Modify) -> Reply
        requires { (row_of location).first ≡ at % 4 }
        ensures reply { result ≡ (step self.old (Steps.Modify at (row_of location).len f.now)).0 }
        ensures memory { self.new ≡ (step self.old (Steps.Modify at (row_of location).len f.now)).1 }
        ensures len { HasLen result (row_of location).len }
    {
        if !self.reaches(location, at) {
            return Reply::Berr;
        }
        let has_place = is_whole_place(location, at);
        if !(has_place && self.class.rmw && f.has_len(location.len())) {
            return Reply::Berr;
        }
        let old = self.storage.read(location, at);
        let new = f.value(&old);
        self.storage
            .write(location, at, placed_word(location, new.as_slice()));
        Reply::Bytes(old)
    }

    /// A read of one, two or four bytes at a multiple of their number.
    pub(crate) fn read_whole(&self, block: bool, at: u32, n: u8) -> Reply
        requires { is_modify_place at n ≡ true }
        ensures reply { result ≡ (step self.now (read_command block at n)).0 }
        ensures memory { self.now ≡ (step self.now (read_command block at n)).1 }
    {
        if !self.reaches_whole(block, at, n) {
            return Reply::Berr;
        }
        Reply::Bytes(self.storage.datum(at, n))
    }

    /// A write of one, two or four bytes at a multiple of their number.
    pub(crate) fn write_whole(&mut self, block: bool, at: u32, n: u8, bytes: &[u8]) -> Reply
        requires place { is_modify_place at n ≡ true }
        requires len { length bytes.now ≡ n }
        ensures reply { result ≡ (step self.old (write_command block at bytes.now)).0 }
        ensures memory { self.new ≡ (step self.old (write_command block at bytes.now)).1 }
    {
        if !self.reaches_whole(block, at, n) {
            return Reply::Berr;
        }
        self.storage.overwrite(at, bytes);
        Reply::Done
    }

    #[tactic(auto, using(crate::proofs::Places::whole_found))]
    fn reaches_whole(&self, block: bool, at: u32, n: u8) -> bool
        requires { is_modify_place at n ≡ true }
        ensures { result ≡ (fits self.now at n && has_cycle self.now at n && (not block || self.now.class.blt)) }
    {
        self.fits(at, n) && self.class.answers_whole(n) && (!block || self.class.blt)
    }
}

/// Whether a datum of a block, or a read-modify-write, with the length of a location may be at
/// `at`.
#[tactic(auto, using(crate::proofs::Places::not_wide))]
fn is_whole_place(location: Location, at: u32) -> bool
    ensures block { result ≡ is_block_place at (row_of location).len }
    ensures modify { result ≡ is_modify_place at (row_of location).len }
{
    match location.len() {
        1 => true,
        2 => at % 2 == 0,
        4 => at % 4 == 0,
        _ => false,
    }
}
