//! A word of the header.
ghost use Rattle.std.specs.Prelude.{◌≡◌, ◌==◌, ◌∷◌, ◌++◌, [], ℕ, List, length};
ghost use Rattle.vme_vcd_reader.specs.Headings.{IsWord};
ghost use Rattle.vme_vcd_reader.specs.Words.{is_blank};

use arrayvec::ArrayVec;

/// The greatest length of a word that is read.
pub(crate) const WORD_LIMIT: usize = 255;

/// A word, as far as it is kept.
#[derive(Drop)]
pub(crate) struct Word {
    bytes: ArrayVec<u8, WORD_LIMIT>,
    /// Whether bytes were left out.
    is_cut: bool,
}

impl Word {
    /// Returns the empty word.
    pub(crate) fn new() -> Word
        ensures { IsWord [] result }
    {
        Word {
            bytes: ArrayVec::new(),
            is_cut: false,
        }
    }

    /// Appends a byte, unless the word is full.
    pub(crate) fn push(&mut self, byte: u8)
        ensures { (word : List ℕ) → IsWord word self.old → IsWord (word ++ byte ∷ []) self.new }
    {
        if self.bytes.is_full() {
            self.is_cut = true;
        } else {
            self.bytes.push(byte);
        }
    }

    /// Appends bytes, of which those that have no place are left out.
    pub(crate) fn append(&mut self, bytes: &[u8])
        ensures { (word : List ℕ) → IsWord word self.old → IsWord (word ++ bytes.now) self.new }
    {
        for byte in bytes {
            self.push(*byte);
        }
    }

    /// Makes the word empty.
    pub(crate) fn clear(&mut self)
        ensures { IsWord [] self.new }
    {
        self.bytes.clear();
        self.is_cut = false;
    }

    pub(crate) fn is_empty(&self) -> bool
        ensures { (word : List ℕ) → IsWord word self.now → result ≡ (length word == 0) }
    {
        self.bytes.is_empty()
    }

    pub(crate) fn is_cut(&self) -> bool
        ensures { result ≡ self.now.is_cut }
    {
        self.is_cut
    }

    pub(crate) fn bytes(&self) -> &[u8]
        ensures { result.now ≡ self.now.bytes.items }
    {
        self.bytes.as_slice()
    }
}

/// Returns whether a byte is a blank.
#[inline]
pub(crate) fn is_blank(byte: u8) -> bool
    ensures { result ≡ is_blank byte }
{
    matches!(byte, b' ' | b'\n' | b'\t' | b'\r' | 11 | 12)
}
