//! The words of a memory that are kept.
ghost use Rattle.std.specs.Prelude.{◌≡◌, ◌<◌, ◌≤◌, ◌++◌, nat_lt, ℕ, IfOk, IsTrue, OnOk, slice_index_or, slice_set};
ghost use Rattle.std.specs.List.{filter};
ghost use Rattle.vme_sparse_memory.specs.Entries.{own_entries, words_with};

use std::alloc::{AllocError, Global};

/// A word of a memory, by its index: word `i` has the bytes at offsets 4 `i` to 4 `i` + 3.
#[derive(Clone, Copy, Debug)]
pub(crate) struct WordEntry {
    pub(crate) at: u32,
    pub(crate) word: u32,
}

/// Returns a word; zero if no entry names it.
#[tactic(auto, using(crate::proofs::Entries::none_named, crate::proofs::Entries::named_next, crate::proofs::Entries::named_here))]
pub(crate) fn word_at(entries: &[WordEntry], at: u32) -> u32
    ensures { (n : ℕ) → at < n → slice_index_or (words_with entries.now n) at 0 ≡ result }
{
    for entry in entries {
        if entry.at == at {
            return entry.word;
        }
    }
    0
}

/// Returns entries with another word at an index, in order of indices if the given ones are. A zero has
/// no entry.
#[tactic(auto, using(crate::proofs::Entries::replaced))]
pub(crate) fn with_word(
    alloc: Global,
    entries: &[WordEntry],
    at: u32,
    word: u32,
) -> Result<Vec<WordEntry>, AllocError>
    ensures { IfOk result (λ new. (n : ℕ) →
        words_with new.items n ≡ slice_set (words_with entries.now n) at word) }
{
    let mut new = Vec::with_capacity(alloc, entries.len())?;
    add_below(entries, at, &mut new)?;
    add_own(at, word, &mut new)?;
    add_above(entries, at, &mut new)?;
    Ok(new)
}

/// Returns `true` only if two lists have the same entries.
#[tactic(auto, using(crate::proofs::Entries::same_next, crate::proofs::Entries::same_all))]
pub(crate) fn are_same(some: &[WordEntry], others: &[WordEntry]) -> bool
    ensures { IsTrue result → some.now ≡ others.now }
{
    if some.len() != others.len() {
        return false;
    }
    for i in 0..some.len() {
        let (one, other) = (some[i], others[i]);
        if one.at != other.at || one.word != other.word {
            return false;
        }
    }
    true
}

/// Returns the lowest index from `first` on, below `end`, that an entry names, or `end` if there is none.
#[tactic(auto, using(crate::proofs::Entries::apart_next, crate::proofs::Entries::none_named))]
pub(crate) fn next_named(entries: &[WordEntry], first: u32, end: u32) -> u32
    ensures within { result ≤ end }
    ensures order { result < end → first ≤ result }
    ensures zero { (n at : ℕ) → first ≤ at → at < result →
        slice_index_or (words_with entries.now n) at 0 ≡ 0 }
{
    let mut next = end;
    for entry in entries {
        if first <= entry.at && entry.at < next {
            next = entry.at;
        }
    }
    next
}

/// Adds the entries of words below an index.
#[tactic(auto, using(crate::proofs::Entries::filtered_more))]
fn add_below(entries: &[WordEntry], at: u32, new: &mut Vec<WordEntry>) -> Result<(), AllocError>
    ensures { OnOk result (new.new.items
        ≡ new.old.items ++ filter (λ (entry : WordEntry). nat_lt entry.at at) entries.now) }
{
    for entry in entries {
        if entry.at < at {
            new.push(*entry)?;
        }
    }
    Ok(())
}

/// Adds the entry of a word, if the word is not zero.
fn add_own(at: u32, word: u32, new: &mut Vec<WordEntry>) -> Result<(), AllocError>
    ensures { OnOk result (new.new.items ≡ new.old.items ++ own_entries at word) }
{
    if word != 0 {
        new.push(WordEntry { at, word })?;
    }
    Ok(())
}

/// Adds the entries of words above an index.
#[tactic(auto, using(crate::proofs::Entries::filtered_more))]
fn add_above(entries: &[WordEntry], at: u32, new: &mut Vec<WordEntry>) -> Result<(), AllocError>
    ensures { OnOk result (new.new.items
        ≡ new.old.items ++ filter (λ (entry : WordEntry). nat_lt at entry.at) entries.now) }
{
    for entry in entries {
        if entry.at > at {
            new.push(*entry)?;
        }
    }
    Ok(())
}
