//! Texts cut at a byte.
ghost use Rattle.std.specs.Prelude.{◌≡◌, ◌==◌, MatchOption};
ghost use Rattle.std.specs.List.{position};
ghost use Rattle.vme_lexer.specs.Words.{IsCut, IsUncut};

use memchr::memchr;

/// Returns the index of the first `byte` in `text`. It compares byte by byte.
fn first_place(text: &[u8], byte: u8) -> Option<usize>
    ensures { result ≡ position (λ b. b == byte) text.now }
{
    text.iter().position(|b| *b == byte)
}

/// Returns the index of the first `byte` in `text`. It searches eight bytes at a time, which is
/// fast for short texts.
fn first_near_place(text: &[u8], byte: u8) -> Option<usize>
    ensures { result ≡ position (λ b. b == byte) text.now }
{
    let mut seen = 0;
    let mut rest = text;
    while let Some((eight, tail)) = rest.split_first_chunk::<8>() {
        if let Some(place) = first_place(eight, byte) {
            return Some(seen + place);
        }
        seen += 8;
        rest = tail;
    }
    match first_place(rest, byte) {
        Some(place) => Some(seen + place),
        None => None,
    }
}

/// Returns the text before the first `byte` and the text after it, or `None` if `text` does not
/// contain `byte`.
#[tactic(auto, using(crate::proofs::Cutting::cut_at, crate::proofs::Cutting::uncut))]
pub(crate) fn cut(text: &[u8], byte: u8) -> Option<(&[u8], &[u8])>
    ensures { MatchOption result (IsUncut byte text.now) (λ parts.
        IsCut byte text.now parts.0.now parts.1.now) }
{
    let end = first_near_place(text, byte)?;
    Some((text.split_at(end).0, text.split_at(end + 1).1))
}

/// Returns the index of the first `byte` in `text`. It calls `memchr`, which is fast for long
/// texts.
#[tactic(auto, using(crate::proofs::Cutting::place_found))]
fn first_far_place(text: &[u8], byte: u8) -> Option<usize>
    ensures { result ≡ position (λ b. b == byte) text.now }
{
    memchr(byte, text)
}

/// Returns the text before the first `byte` and the text after it, or `None` if `text` does not
/// contain `byte`. It searches with `memchr`.
#[tactic(auto, using(crate::proofs::Cutting::cut_at, crate::proofs::Cutting::uncut))]
pub(crate) fn cut_far(text: &[u8], byte: u8) -> Option<(&[u8], &[u8])>
    ensures { MatchOption result (IsUncut byte text.now) (λ parts.
        IsCut byte text.now parts.0.now parts.1.now) }
{
    let end = first_far_place(text, byte)?;
    Some((text.split_at(end).0, text.split_at(end + 1).1))
}
