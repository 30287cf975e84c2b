//! Data of a known length, and the fields before them.
ghost use Rattle.std.specs.Prelude.{MatchOption};
ghost use Rattle.vme_grammar.specs.Canonical.{IsFill, AreData, IsFunction};
ghost use Rattle.vme_lexer.specs.Words.{words};

use crate::canonical::bytes::{after_space, four_bytes, is_set};
use vme_cycle::Modify;
use vme_lanes::Datum;
use vme_lexer::{decimal_number, exact_bytes};

/// A number of data and a datum of `n` bytes, with one space between.
#[tactic(auto, using(crate::proofs::Known::fill_is))]
pub(crate) fn count_and_datum(n: u8, text: &[u8]) -> Option<(u16, Datum)>
    ensures { MatchOption result (Unit {0}) (λ r. IsFill n (words text.now) r.0 r.1) }
{
    let end = text.len().checked_sub(2 * usize::from(n) + 1)?;
    let (count, rest) = text.split_at(end);
    let hex = after_space(rest)?;
    let count = decimal_number(4, count)?;
    let bytes = exact_bytes(n, hex)?;
    Some((count, bytes))
}

/// Two data of `n` bytes, with one space between.
#[tactic(auto, using(crate::proofs::Known::data_are))]
fn two_data(n: u8, text: &[u8]) -> Option<(Datum, Datum)>
    ensures { MatchOption result (Unit {0}) (λ r. AreData n (words text.now) r.0 r.1) }
{
    let (first, rest) = text.split_at_checked(2 * usize::from(n))?;
    let second = after_space(rest)?;
    let expect = exact_bytes(n, first)?;
    let put = exact_bytes(n, second)?;
    Some((expect, put))
}

/// A function of a read-modify-write, with its data of `n` bytes each.
pub(crate) fn function(n: u8, text: &[u8]) -> Option<Modify>
    ensures { MatchOption result (Unit {0}) (λ f. IsFunction n (words text.now) f) }
{
    if is_set(text) {
        return Some(Modify::Set);
    }
    let (a, b, c, d, data) = four_bytes(text)?;
    match (a, b, c, d) {
        (b'a', b'd', b'd', b' ') => Some(Modify::Add(exact_bytes(n, data)?)),
        (b'x', b'c', b'h', b'g') => Some(Modify::Exchange(exact_bytes(n, after_space(data)?)?)),
        (b'c', b'a', b's', b' ') => {
            let (expect, put) = two_data(n, data)?;
            Some(Modify::Compare { expect, put })
        }
        _ => None,
    }
}
