//! Fields that end at one space.
ghost use Rattle.std.specs.Prelude.{◌≡◌, ◌<◌, ◌≤◌, ◌^◌, MatchOption, IfSome};
ghost use Rattle.vme_lexer.specs.Numbers.{hex_number, small_number, local_number};
ghost use Rattle.vme_grammar.specs.Canonical.{Spelled, IsPlace};

use crate::canonical::bytes::after_space;
use vme_lexer::{hex_number, local_number, small_number};

/// The number that `N` hexadecimal digits before a space spell, and the text after the space.
#[tactic(auto, using(crate::proofs::Spelled::hex_spelled))]
pub(crate) fn number<const N: usize>(text: &[u8]) -> Option<(u32, &[u8])>
    requires some { 0 < N }
    requires few { N ≤ 8 }
    ensures spelled { MatchOption result (Unit {0}) (λ r. Spelled (hex_number N) text.now r.0 r.1.now) }
    ensures small { IfSome result (λ r. r.0 < 16 ^ N) }
{
    let (word, rest) = text.split_first_chunk::<N>()?;
    let rest = after_space(rest)?;
    let number = hex_number(N, word)?;
    Some((number, rest))
}

/// The code and the address, each before a space, and the text after them.
pub(crate) fn place(text: &[u8]) -> Option<(u8, u32, &[u8])>
    ensures { MatchOption result (Unit {0}) (λ r. IsPlace text.now r.0 r.1 r.2.now) }
{
    let (am, rest) = number::<2>(text)?;
    let (addr, rest) = number::<8>(rest)?;
    Some((am as u8, addr, rest))
}

/// The number from 1 to 8 that a digit before a space spells, and the text after the space.
#[tactic(auto, using(crate::proofs::Spelled::small_spelled))]
pub(crate) fn length(text: &[u8]) -> Option<(u8, &[u8])>
    ensures { MatchOption result (Unit {0}) (λ r. Spelled small_number text.now r.0 r.1.now) }
{
    let (digit, rest) = text.split_first_chunk::<1>()?;
    let rest = after_space(rest)?;
    let n = small_number(digit)?;
    Some((n, rest))
}

/// The number 1, 2 or 4 that a digit before a space spells, and the text after the space.
#[tactic(auto, using(crate::proofs::Spelled::local_spelled))]
pub(crate) fn local_length(text: &[u8]) -> Option<(u8, &[u8])>
    ensures { MatchOption result (Unit {0}) (λ r. Spelled local_number text.now r.0 r.1.now) }
{
    let (digit, rest) = text.split_first_chunk::<1>()?;
    let rest = after_space(rest)?;
    let n = local_number(digit)?;
    Some((n, rest))
}
