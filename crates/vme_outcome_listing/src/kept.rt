//! The lines that are kept of an outcome.
ghost use Rattle.std.specs.Prelude.{◌≡◌, ◌++◌, Some, OnOk, map, option_map};
ghost use Rattle.vme_outcome_listing.specs.Texts.{begins_so, kept_line, kept_text, listed_text};
ghost use Rattle.vme_states.specs.BareStates.{bare_outcome};

use crate::condition::{Condition, trimmed_parts};
use crate::text::append_outcome;
use std::alloc::{AllocError, Global};
use std::marker::Model;
use vme_lexer::Lines;
use vme_script::Config;
use vme_states::State;

/// The first word of a row of memory.
const ROW: &str = "mem";

/// The lines that are kept of an outcome: the replies to some lines of scripts, and the rows of
/// memory or not.
#[derive(Drop)]
pub struct Kept {
    /// What the lines that are kept begin with.
    heads: Vec<Vec<u8>>,
}

impl Model for Kept {
    ghost use Rattle.std.specs.Prelude.{List, ℕ, map};

    ghost Value = { List (List ℕ) };

    ghost view = { λ k. map (λ head. head.items) k.heads.items };
}

impl Kept {
    /// Returns the lines that a text names, as `1:2,2:1`, with the rows of memory or without them.
    ///
    /// # Errors
    ///
    /// An allocation failed.
    pub fn lines(alloc: Global, text: &str, rows: bool) -> Result<Kept, AllocError> {
        let mut heads = Vec::new(alloc);
        for place in trimmed_parts(alloc, text, ',')? {
            heads.push(head_of(alloc, place)?)?;
        }
        if rows {
            heads.push(head_of(alloc, ROW)?)?;
        }
        Ok(Kept { heads })
    }

    /// Returns the lines that conditions name, and the rows of memory.
    ///
    /// # Errors
    ///
    /// An allocation failed.
    pub fn lines_of(alloc: Global, conditions: &[Condition<'_>]) -> Result<Kept, AllocError> {
        let mut heads = Vec::new(alloc);
        heads.push(head_of(alloc, ROW)?)?;
        for condition in conditions {
            for line in condition.wanted() {
                for text in trimmed_parts(alloc, line, '|')? {
                    if let Some((place, _reply)) = text.split_once(' ') {
                        heads.push(head_of(alloc, place)?)?;
                    }
                }
            }
        }
        Ok(Kept { heads })
    }

    /// Returns what the lines begin with.
    pub(crate) fn heads(&self) -> &[Vec<u8>]
        ensures { map (λ head. head.items) result.now ≡ self.now }
    {
        self.heads.as_slice()
    }

    /// Appends the lines of a text that are kept.
    fn append_lines(&self, all: &[u8], text: &mut Vec<u8>) -> Result<(), AllocError>
        ensures { OnOk result (text.new.items ≡ text.old.items ++ kept_text (Some self.now) all.now) }
    {
        for line in Lines::new(all) {
            append_kept(self.heads(), line, text)?;
        }
        Ok(())
    }
}

/// Returns what a line with this first word begins with.
fn head_of(alloc: Global, word: &str) -> Result<Vec<u8>, AllocError> {
    let mut head = Vec::new(alloc);
    head.extend_from_slice(word.as_bytes())?;
    head.extend_from_slice(b" ")?;
    Ok(head)
}

/// Appends a line, if it begins with one of these texts.
fn append_kept(heads: &[Vec<u8>], line: &[u8], text: &mut Vec<u8>) -> Result<(), AllocError>
    ensures { OnOk result (text.new.items
        ≡ text.old.items ++ kept_line (map (λ head. head.items) heads.now) line.now) }
{
    if !begins_so(heads, line) {
        return Ok(());
    }
    text.extend_from_slice(line)?;
    text.extend_from_slice(b"\n")
}

/// Returns whether a line begins with one of these texts.
fn begins_so(heads: &[Vec<u8>], line: &[u8]) -> bool
    ensures { result ≡ begins_so (map (λ head. head.items) heads.now) line.now }
{
    for head in heads {
        if line.starts_with(head.as_slice()) {
            return true;
        }
    }
    false
}

/// Appends what is listed of the outcome of a state.
pub(crate) fn append_listed(
    alloc: Global,
    config: &Config,
    kept: Option<&Kept>,
    state: &State,
    text: &mut Vec<u8>,
) -> Result<(), AllocError>
    ensures { OnOk result (text.new.items ≡ text.old.items
        ++ listed_text config.now (option_map (λ k. k.now) kept.entry) (bare_outcome state.now)) }
{
    match kept {
        None => append_outcome(config, state, text),
        Some(kept) => {
            let mut all = Vec::new(alloc);
            append_outcome(config, state, &mut all)?;
            kept.append_lines(all.as_slice(), text)
        }
    }
}
