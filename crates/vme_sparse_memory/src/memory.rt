//! The memory of one board by the words that are not zero.
ghost use Rattle.std.specs.Prelude.{◌≡◌, ◌+◌, ◌-◌, ◌*◌, ◌≤◌, ◌<◌, ◌%◌, true, if◌then◌else◌, Some, None, All, IfOk, IfSome, IsTrue, drop, length, min, slice_get, slice_range, take, unwrap_or};
ghost use Rattle.vme_memory.specs.Boards.{bytes_after_write, is_board_size, zeros};
ghost use Rattle.vme_memory.specs.Locals.{board_step};
ghost use Rattle.vme_sparse_memory.specs.Windows.{window_of};

use crate::command::{first_of, moved_to};
use crate::entry::{WordEntry, are_same, next_named, with_word, word_at};
use crate::laws::commands_reach_a_window;
use crate::word::{put_word, word_in};
use std::alloc::{AllocError, Global};
use std::cmp::min;
use std::marker::Model;
use vme_memory::{BoardCmd, ByteMemory, Class, Reply, Row, byte_in, bytes_of};

/// The most words that a command reaches.
const WINDOW: u32 = 3;
/// The first value of a hash, and the factor of each step.
const HASH_SEED: u64 = 0x9e37_79b9_7f4a_7c15;

const HASH_FACTOR: u64 = 0xff51_afd7_ed55_8ccd;

/// The memory of a board, with the class of its slave. Its size does not decide what it takes: only the
/// words that are not zero are kept.
#[derive(Drop)]
pub struct SparseMemory {
    entries: Vec<WordEntry>,
    words: u32,
    class: Class,
}

impl Model for SparseMemory {
    ghost use Rattle.std.specs.Prelude.{◌≡◌, ◌*◌, true};
    ghost use Rattle.vme_memory.specs.Boards.{Board, is_board_size};
    ghost use Rattle.vme_memory.specs.Words.{bytes_of_words};
    ghost use Rattle.vme_sparse_memory.specs.Entries.{words_with};

    ghost Value = { Board };

    ghost view = { λ m. record {
      bytes = bytes_of_words (words_with m.entries.items m.words);
      class = m.class;
    } };

    ghost invariant = { λ m. is_board_size (4 * m.words) ≡ true };
}

impl SparseMemory {
    /// Returns a memory of `size` bytes, all zero, or `None` where no board has that size: it is from 4
    /// to 1,048,576 and a multiple of four.
    #[tactic(auto, using(crate::proofs::Memories::opened))]
    pub fn new(alloc: Global, size: u32, class: Class) -> Option<SparseMemory>
        ensures { result ≡ (if is_board_size size then Some (record { bytes = zeros size; class = class })
            else None) }
    {
        if !ByteMemory::is_size(size) {
            return None;
        }
        Some(SparseMemory {
            entries: Vec::new(alloc),
            words: size / 4,
            class,
        })
    }

    /// Returns the memory after a command, or `None` if the command changes nothing, and the reply.
    ///
    /// # Errors
    ///
    /// An allocation failed.
    pub fn after(
        &self,
        alloc: Global,
        command: &BoardCmd,
    ) -> Result<(Option<SparseMemory>, Reply), AllocError>
        ensures { IfOk result (λ next. (unwrap_or next.0 self.now, next.1)
            ≡ board_step self.now command.now) }
    {
        commands_reach_a_window();
        let first = first_of(command);
        let word = first / 4;
        if word >= self.words {
            return Ok((None, Reply::Berr));
        }
        let before = self.window(alloc, word)?;
        let mut window = before.copy(alloc)?;
        let reply = window.local(&moved_to(command, first % 4));
        if before.is_same(&window) {
            return Ok((None, reply));
        }
        let memory = self.with_window(alloc, word, &window)?;
        Ok((Some(memory), reply))
    }

    /// Returns the bytes that a command may reach whose first byte is in a word.
    #[tactic(auto, using(crate::proofs::Memories::bytes_len, crate::proofs::Memories::window_more, crate::proofs::Memories::window_all))]
    fn window(&self, alloc: Global, word: u32) -> Result<ByteMemory, AllocError>
        requires { 4 * word + 4 ≤ length self.now.bytes }
        ensures { IfOk result (λ window. window ≡ window_of self.now (4 * word)) }
    {
        let count = min(WINDOW, self.words - word);
        let Ok(mut window) = ByteMemory::new(alloc, 4 * count, self.class) else {
            return Err(AllocError);
        };
        for i in 0..count {
            put_word(&mut window, i, word_at(self.entries.as_slice(), word + i));
        }
        Ok(window)
    }

    /// Returns the memory with other bytes from a word on.
    #[tactic(auto, using(crate::proofs::Memories::bytes_len, crate::proofs::Memories::window_written, crate::proofs::Memories::window_done))]
    fn with_window(
        &self,
        alloc: Global,
        word: u32,
        window: &ByteMemory,
    ) -> Result<SparseMemory, AllocError>
        requires { 4 * word + length window.now.bytes ≤ length self.now.bytes }
        ensures { IfOk result (λ memory. memory ≡ record self.now {
          bytes = bytes_after_write self.now.bytes (4 * word) window.now.bytes;
        }) }
    {
        let mut entries = Vec::from_slice(alloc, self.entries.as_slice())?;
        for i in 0..window.size() / 4 {
            entries = with_word(alloc, entries.as_slice(), word + i, word_in(window, i))?;
        }
        Ok(SparseMemory {
            entries,
            words: self.words,
            class: self.class,
        })
    }

    /// Returns the number of bytes.
    #[tactic(auto, using(crate::proofs::Memories::bytes_len))]
    pub fn size(&self) -> u32
        ensures value { result ≡ length self.now.bytes }
        ensures size { is_board_size result ≡ true }
    {
        4 * self.words
    }

    /// Returns the byte at an offset, or `None` past the end.
    #[tactic(auto, using(crate::proofs::Memories::byte_read, crate::proofs::Memories::no_byte))]
    pub fn byte(&self, offset: u32) -> Option<u8>
        ensures { result ≡ slice_get self.now.bytes offset }
    {
        let at = offset / 4;
        if at >= self.words {
            return None;
        }
        let word = word_at(self.entries.as_slice(), at);
        Some(byte_in(word, (offset % 4) as u8))
    }

    /// Returns the offset of the first row of sixteen bytes, from that at `offset` on, with a word that is
    /// not zero, or `None` if there is none. All bytes between are zero.
    #[tactic(auto, using(crate::proofs::Memories::bytes_len, crate::proofs::Memories::zero_before))]
    pub fn next_row(&self, offset: u32) -> Option<u32>
        requires { offset % 16 ≡ 0 }
        ensures aligned { IfSome result (λ next. next % 16 ≡ 0) }
        ensures order { IfSome result (λ next. offset ≤ next) }
        ensures within { IfSome result (λ next. next < length self.now.bytes) }
        ensures zero { All (λ byte. byte ≡ 0)
            (slice_range self.now.bytes offset (unwrap_or result (length self.now.bytes))) }
    {
        let next = next_named(self.entries.as_slice(), offset / 4, self.words);
        if next == self.words {
            return None;
        }
        Some(4 * (next - next % 4))
    }

    /// Returns the sixteen bytes that begin at `offset`, or those up to the end. `offset` is a multiple of
    /// four.
    #[tactic(auto, using(crate::proofs::Memories::row_more, crate::proofs::Memories::row_whole))]
    pub fn row(&self, offset: u32) -> Row
        requires aligned { offset % 4 ≡ 0 }
        requires within { offset ≤ length self.now.bytes }
        ensures { result.items ≡ take 16 (drop offset self.now.bytes) }
    {
        let first = offset / 4;
        let mut row = Row::new();
        for at in first..min(first + 4, self.words) {
            let word = word_at(self.entries.as_slice(), at);
            row.try_extend_from_slice(&bytes_of(word)).unwrap();
        }
        row
    }

    /// Returns `true` only if another memory has the same bytes and the same class.
    #[tactic(auto, using(crate::proofs::Memories::same_memories))]
    pub fn is_same(&self, other: &SparseMemory) -> bool
        ensures { IsTrue result → self.now ≡ other.now }
    {
        if self.words != other.words || self.class != other.class {
            return false;
        }
        are_same(self.entries.as_slice(), other.entries.as_slice())
    }

    /// Returns a hash of the bytes.
    pub fn digest(&self) -> u64 {
        let mut hash = HASH_SEED;
        for entry in &self.entries {
            let pair = u64::from(entry.at) << 32 | u64::from(entry.word);
            hash = (hash ^ pair).wrapping_mul(HASH_FACTOR);
            hash ^= hash >> 29;
        }
        hash
    }
}
