//! The words of a line.
ghost use Rattle.std.specs.Prelude.{◌≡◌, [], ◌∷◌, MatchOption, slice_get};
ghost use Rattle.std.specs.Option.{option_map};
ghost use Rattle.std.specs.Iterator.{YieldsFirstRef, item_count};
ghost use Rattle.vme_lexer.specs.Words.{words, words_of};

use crate::parts::cut;

const SPACE: u8 = b' ';

/// Returns the first word and the rest of the line after it, or `None` if the line has no word.
#[tactic(auto, using(crate::proofs::Cutting::words_cut, crate::proofs::Cutting::words_cut_empty, crate::proofs::Cutting::words_uncut))]
fn split_word(line: &[u8]) -> Option<(&[u8], &[u8])>
    ensures { MatchOption result (words line.now ≡ []) (λ w. words line.now ≡ w.0.now ∷ words w.1.now) }
{
    let mut rest = line;
    while let Some((word, after)) = cut(rest, SPACE) {
        if !word.is_empty() {
            return Some((word, after));
        }
        rest = after;
    }
    if rest.is_empty() {
        None
    } else {
        Some((rest, &[]))
    }
}

/// An iterator over the words of a line, in order: its longest runs of bytes other than space.
#[derive(Clone, Copy)]
pub struct Words<'a> {
    /// The part of the line that is not yet read.
    pub rest: &'a [u8],
}

impl<'a> Words<'a> {
    /// Returns an iterator over the words of `line`, even if the line is a comment.
    pub fn new(line: &'a [u8]) -> Words<'a>
        ensures line { result.rest.now ≡ line.now }
    {
        Words { rest: line }
    }
}

impl<'a> Iterator for Words<'a> {
    type Item = &'a [u8];

    ghost next_gives = { YieldsFirstRef (λ s. words s.rest.now) };

    ghost remaining = { item_count (λ s. words s.rest.now) };

    fn next(&mut self) -> Option<&'a [u8]> {
        match split_word(self.rest) {
            Some((word, rest)) => {
                self.rest = rest;
                Some(word)
            }
            None => {
                self.rest = &[];
                None
            }
        }
    }
}

/// Returns an iterator over the words of `line`. A comment (a line that begins with `#`) has none.
pub fn words_of(line: &[u8]) -> Words<'_>
    ensures words { words result.rest.now ≡ words_of line.now }
{
    if line.first() == Some(&b'#') {
        return Words::new(&[]);
    }
    Words::new(line)
}

/// Returns the first word of `line`, or `None` if the line has no words or is a comment.
pub fn first_word(line: &[u8]) -> Option<&[u8]>
    ensures word { option_map (λ word. word.now) result ≡ slice_get (words_of line.now) 0 }
{
    words_of(line).next()
}
