ghost use Rattle.std.specs.Prelude.{◌≡◌, ◌+◌, ◌%◌, ◌≤◌, ◌<◌, true, IfOk, IsTrue, length, take, drop, slice_get, slice_range};
ghost use Rattle.vme_lanes.specs.Rows.{row_of};
ghost use Rattle.vme_memory.specs.Words.{bytes_after_write, part_of, word_bytes};
ghost use Rattle.vme_memory.specs.Boards.{is_board_size, zeros};

use crate::word::{
    byte_in, bytes_at, bytes_of, bytes_of_pair, first_bytes, leading_word, merge, merge_across,
    merge_from, pair_of, word_across, word_of,
};
use arrayvec::ArrayVec;
use std::alloc::{AllocError, Global};
use std::cmp::min;
use std::marker::Model;
use vme_lanes::{Datum, Location};

/// Sixteen bytes of a memory, or fewer at its end.
pub type Row = ArrayVec<u8, 16>;

/// The bytes of a board in words. Word `i` has the bytes at offsets 4 `i` to 4 `i` + 3, with the
/// lowest address most significant.
#[derive(Drop)]
pub(crate) struct Storage {
    words: Vec<u32>,
}

impl Model for Storage {
    ghost use Rattle.std.specs.Prelude.{ℕ, List, ◌≡◌, ◌*◌, true, length};
    ghost use Rattle.vme_memory.specs.Boards.{is_board_size};
    ghost use Rattle.vme_memory.specs.Words.{bytes_of_words};

    ghost Value = { List ℕ };

    ghost view = { λ s. bytes_of_words s.words.items };

    ghost invariant = { λ s. is_board_size (4 * length s.words.items) ≡ true };
}

impl Storage {
    /// `size` bytes, all zero.
    #[tactic(auto, using(crate::proofs::Words::zero_words), unfolding(crate::specs::Boards::zeros))]
    pub(crate) fn new(alloc: Global, size: u32) -> Result<Storage, AllocError>
        requires { is_board_size size ≡ true }
        ensures { IfOk result (λ storage. storage ≡ zeros size) }
    {
        let words = vec![in alloc; 0; (size / 4) as usize]?;
        Ok(Storage { words })
    }

    /// A copy.
    pub(crate) fn copy(&self, alloc: Global) -> Result<Storage, AllocError>
        ensures { IfOk result (λ storage. storage ≡ self.now) }
    {
        let words = Vec::from_slice(alloc, self.words.as_slice())?;
        Ok(Storage { words })
    }

    /// Whether the bytes are those of another storage.
    pub(crate) fn is_same(&self, other: &Storage) -> bool
        ensures { IsTrue result → self.now ≡ other.now }
    {
        self.words.as_slice() == other.words.as_slice()
    }

    /// The number of bytes.
    #[tactic(auto, using(crate::proofs::Words::words_len))]
    pub(crate) fn len(&self) -> u32
        ensures value { result ≡ length self.now }
        ensures size { is_board_size result ≡ true }
    {
        4 * self.words.len() as u32
    }

    /// The byte at an offset, or `None` past the end.
    #[tactic(auto, using(crate::proofs::Words::byte_at, crate::proofs::Words::no_byte))]
    pub(crate) fn byte(&self, offset: u32) -> Option<u8>
        ensures { result ≡ slice_get self.now offset }
    {
        let word = self.words.get((offset / 4) as usize)?;
        Some(byte_in(*word, (offset % 4) as u8))
    }

    /// Whether sixteen bytes begin at `offset` and all are zero. It tests them as four words.
    #[tactic(auto, using(crate::proofs::Words::words_len))]
    pub(crate) fn is_blank_row(&self, offset: u32) -> bool
        requires { offset % 4 ≡ 0 }
        ensures { IsTrue result → take 16 (drop offset self.now) ≡ zeros 16 }
    {
        let first = (offset / 4) as usize;
        if self.words.len() < first + 4 {
            return false;
        }
        let (a, b) = (self.words[first], self.words[first + 1]);
        let (c, d) = (self.words[first + 2], self.words[first + 3]);
        a | b | c | d == 0
    }

    /// The sixteen bytes that begin at `offset`, or those up to the end.
    #[tactic(auto, using(crate::proofs::Words::row_more, crate::proofs::Words::row_whole, crate::proofs::Words::word_len, crate::proofs::Words::words_len))]
    pub(crate) fn row(&self, offset: u32) -> Row
        requires aligned { offset % 4 ≡ 0 }
        requires within { offset ≤ length self.now }
        ensures { result.items ≡ take 16 (drop offset self.now) }
    {
        let first = (offset / 4) as usize;
        let mut row = Row::new();
        for i in first..min(first + 4, self.words.len()) {
            row.try_extend_from_slice(&bytes_of(self.words[i])).unwrap();
        }
        row
    }

    /// Reads the bytes of a location from one word. `at` is the offset of the first byte.
    #[tactic(auto, using(crate::proofs::Words::words_len, crate::proofs::Words::word_there, crate::proofs::Parts::part_at))]
    pub(crate) fn read(&self, location: Location, at: u32) -> Datum
        requires place { (row_of location).first ≡ at % 4 }
        requires within { at + (row_of location).len ≤ length self.now }
        ensures value { result.items ≡ slice_range self.now at (at + (row_of location).len) }
        ensures len { length result.items ≡ (row_of location).len }
        ensures small { length self.now ≤ 1048576 }
    {
        bytes_at(location, self.words[(at / 4) as usize])
    }

    /// Replaces the bytes of a location in one word by those of another word. `at` is the offset of
    /// the first byte.
    #[tactic(auto, using(crate::proofs::Words::words_len, crate::proofs::Words::word_there, crate::proofs::Parts::merged_at))]
    pub(crate) fn write(&mut self, location: Location, at: u32, new: u32)
        requires place { (row_of location).first ≡ at % 4 }
        requires within { at + (row_of location).len ≤ length self.old }
        ensures bytes { self.new ≡ bytes_after_write self.old at (part_of location new) }
        ensures small { length self.old ≤ 1048576 }
    {
        let i = (at / 4) as usize;
        self.words[i] = merge(self.words[i], location, new);
    }

    /// Reads the two words of eight bytes at a multiple of four.
    #[tactic(auto, using(crate::proofs::Words::words_len, crate::proofs::Wide::wide_there, crate::proofs::Wide::wide_read))]
    pub(crate) fn read_wide(&self, at: u32) -> Datum
        requires place { at % 4 ≡ 0 }
        requires within { at + 8 ≤ length self.now }
        ensures value { result.items ≡ slice_range self.now at (at + 8) }
        ensures len { length result.items ≡ 8 }
    {
        let i = (at / 4) as usize;
        bytes_of_pair(self.words[i], self.words[i + 1])
    }

    /// Replaces the two words of eight bytes at a multiple of four.
    #[tactic(auto, using(crate::proofs::Words::words_len, crate::proofs::Wide::wide_there, crate::proofs::Wide::wide_written))]
    pub(crate) fn write_wide(&mut self, at: u32, new: &[u8])
        requires place { at % 4 ≡ 0 }
        requires within { at + 8 ≤ length self.old }
        requires wide { length new.now ≡ 8 }
        ensures bytes { self.new ≡ bytes_after_write self.old at new.now }
        ensures small { length self.old ≤ 1048576 }
    {
        let i = (at / 4) as usize;
        let (here, next) = pair_of(new);
        self.words[i] = here;
        self.words[i + 1] = next;
    }

    /// Reads `len` bytes at any offset, from one word or two.
    pub(crate) fn datum(&self, at: u32, len: u8) -> Datum
        requires within { at + len ≤ length self.now }
        requires some { 0 < len }
        requires short { len ≤ 4 }
        ensures value { result.items ≡ slice_range self.now at (at + len) }
        ensures len { length result.items ≡ len }
    {
        first_bytes(self.word_from(at, len), len)
    }

    /// The word whose first `len` bytes are those at an offset.
    #[tactic(auto, using(crate::proofs::Words::words_len, crate::proofs::Words::word_there, crate::proofs::Across::next_there, crate::proofs::Across::begun_within, crate::proofs::Across::begun_over))]
    fn word_from(&self, at: u32, len: u8) -> u32
        requires within { at + len ≤ length self.now }
        requires some { 0 < len }
        requires short { len ≤ 4 }
        ensures { take len (word_bytes result) ≡ slice_range self.now at (at + len) }
    {
        let i = (at / 4) as usize;
        let place = at % 4;
        let next = if place + u32::from(len) > 4 {
            self.words[i + 1]
        } else {
            0
        };
        word_across(self.words[i], next, place)
    }

    /// Replaces bytes at any offset, in one word or two. The other bytes stay.
    pub(crate) fn overwrite(&mut self, at: u32, new: &[u8])
        requires within { at + length new.now ≤ length self.old }
        requires some { 0 < length new.now }
        requires short { length new.now ≤ 4 }
        ensures { self.new ≡ bytes_after_write self.old at new.now }
    {
        // Where a length is a literal, the compiler computes the mask.
        match new {
            [a] => self.put(at, 1, word_of([*a, 0, 0, 0])),
            [a, b] if at % 4 <= 2 => self.put(at, 2, word_of([*a, *b, 0, 0])),
            [a, b, c, d] if at % 4 == 0 => self.put_first(at, 4, word_of([*a, *b, *c, *d])),
            [a, b, c, d] => self.put_across(at, word_of([*a, *b, *c, *d])),
            _ => self.put_over(at, new.len() as u32, leading_word(new)),
        }
    }

    /// Replaces four bytes that lie in two words by the bytes of a word.
    #[tactic(auto, using(crate::proofs::Words::words_len, crate::proofs::Wide::across_there, crate::proofs::Wide::across_written))]
    fn put_across(&mut self, at: u32, new: u32)
        requires within { at + 4 ≤ length self.old }
        requires over { 0 < at % 4 }
        ensures bytes { self.new ≡ bytes_after_write self.old at (word_bytes new) }
        ensures small { length self.old ≤ 1048576 }
    {
        let i = (at / 4) as usize;
        let (here, next) = merge_across(self.words[i], self.words[i + 1], at % 4, new);
        self.words[i] = here;
        self.words[i + 1] = next;
    }

    /// Replaces `len` bytes at any offset by the first bytes of a word.
    #[tactic(auto, using(crate::proofs::Across::put_over))]
    fn put_over(&mut self, at: u32, len: u32, new: u32)
        requires within { at + len ≤ length self.old }
        requires some { 0 < len }
        requires short { len ≤ 4 }
        ensures { self.new ≡ bytes_after_write self.old at (take len (word_bytes new)) }
    {
        let here = 4 - at % 4;
        if len <= here {
            self.put(at, len, new);
        } else {
            self.put(at, here, new);
            self.put_first(at + here, len - here, new << (8 * here));
        }
    }

    /// Replaces `len` bytes within one word by the first bytes of another word.
    #[tactic(auto, using(crate::proofs::Words::words_len, crate::proofs::Words::word_there, crate::proofs::Across::put_at))]
    fn put(&mut self, at: u32, len: u32, new: u32)
        requires within { at + len ≤ length self.old }
        requires one_word { at % 4 + len ≤ 4 }
        requires some { 0 < len }
        ensures bytes { self.new ≡ bytes_after_write self.old at (take len (word_bytes new)) }
        ensures small { length self.old ≤ 1048576 }
    {
        let i = (at / 4) as usize;
        self.words[i] = merge_from(self.words[i], at % 4, len, new);
    }

    /// Replaces the first `len` bytes of one word by the first bytes of another word.
    #[tactic(auto, using(crate::proofs::Words::words_len, crate::proofs::Words::word_there, crate::proofs::Across::put_first))]
    fn put_first(&mut self, at: u32, len: u32, new: u32)
        requires within { at + len ≤ length self.old }
        requires first { at % 4 ≡ 0 }
        requires some { 0 < len }
        requires short { len ≤ 4 }
        ensures { self.new ≡ bytes_after_write self.old at (take len (word_bytes new)) }
    {
        let i = (at / 4) as usize;
        self.words[i] = merge_from(self.words[i], 0, len, new);
    }
}
