//! The lines of a text.
ghost use Rattle.std.specs.Prelude.{◌≡◌, ◌<◌, ◌∷◌, length};
ghost use Rattle.std.specs.Str.Lines.{lines, strip_carriage_return};
ghost use Rattle.std.specs.Iterator.{YieldsFirstRef, item_count};

use crate::parts::cut_far;

const LINE_END: u8 = b'\n';

/// Returns the line without the CR at its end, if it ends with CR.
fn without_return(line: &[u8]) -> &[u8]
    ensures { result.now ≡ strip_carriage_return line.now }
{
    match line {
        [prefix @ .., b'\r'] => prefix,
        _ => line,
    }
}

/// Returns the first line without its end, and the text after it.
#[tactic(auto, using(crate::proofs::Cutting::lines_cut, crate::proofs::Cutting::lines_uncut))]
fn split_line(text: &[u8]) -> (&[u8], &[u8])
    requires { 0 < length text.now }
    ensures lines { lines text.now ≡ result.0.now ∷ lines result.1.now }
    ensures shorter { length result.1.now < length text.now }
{
    match cut_far(text, LINE_END) {
        Some((line, rest)) => (without_return(line), rest),
        None => (text, &[]),
    }
}

/// An iterator over the lines of a text, in order.
///
/// A line ends at LF or at the end of the text. It does not contain the LF, nor one CR before the
/// LF. No line begins at the end of the text.
#[derive(Clone, Copy)]
pub struct Lines<'a> {
    /// The text that is not yet read.
    pub rest: &'a [u8],
}

impl<'a> Lines<'a> {
    /// Returns an iterator over the lines of `text`.
    pub fn new(text: &'a [u8]) -> Lines<'a>
        ensures text { result.rest.now ≡ text.now }
    {
        Lines { rest: text }
    }
}

impl<'a> Iterator for Lines<'a> {
    type Item = &'a [u8];

    ghost next_gives = { YieldsFirstRef (λ s. lines s.rest.now) };

    ghost remaining = { item_count (λ s. lines s.rest.now) };

    fn next(&mut self) -> Option<&'a [u8]> {
        if self.rest.is_empty() {
            return None;
        }
        let (line, rest) = split_line(self.rest);
        self.rest = rest;
        Some(line)
    }
}
