//! Bytes at the start of a text.
ghost use Rattle.std.specs.Prelude.{◌≡◌, ◌∷◌, MatchOption, codes};
ghost use Rattle.std.specs.Str.{bytes_eq};

/// The text after a space.
#[tactic(auto, using(crate::proofs::Heads::one_byte))]
pub(crate) fn after_space(text: &[u8]) -> Option<&[u8]>
    ensures { MatchOption result (Unit {0}) (λ rest. text.now ≡ 32 ∷ rest.now) }
{
    match text {
        [b' ', rest @ ..] => Some(rest),
        _ => None,
    }
}

/// The text after `ait` and a space.
#[tactic(auto, using(crate::proofs::Heads::four_bytes))]
pub(crate) fn after_ait(text: &[u8]) -> Option<&[u8]>
    ensures { MatchOption result (Unit {0}) (λ rest. text.now ≡ 97 ∷ 105 ∷ 116 ∷ 32 ∷ rest.now) }
{
    match text {
        [b'a', b'i', b't', b' ', rest @ ..] => Some(rest),
        _ => None,
    }
}

/// The first two bytes, and the text after them.
#[tactic(auto, using(crate::proofs::Heads::two_bytes))]
pub(crate) fn two_bytes(line: &[u8]) -> Option<(u8, u8, &[u8])>
    ensures { MatchOption result (Unit {0}) (λ head. line.now ≡ head.0 ∷ head.1 ∷ head.2.now) }
{
    match line {
        [first, second, rest @ ..] => Some((*first, *second, rest)),
        _ => None,
    }
}

/// The first four bytes, and the text after them.
#[tactic(auto, using(crate::proofs::Heads::four))]
pub(crate) fn four_bytes(text: &[u8]) -> Option<(u8, u8, u8, u8, &[u8])>
    ensures { MatchOption result (Unit {0}) (λ head. text.now ≡ head.0 ∷ head.1 ∷ head.2 ∷ head.3 ∷ head.4.now) }
{
    match text {
        [a, b, c, d, rest @ ..] => Some((*a, *b, *c, *d, rest)),
        _ => None,
    }
}

/// Whether a text is `set`.
pub(crate) fn is_set(text: &[u8]) -> bool
    ensures { result ≡ bytes_eq text.now (codes "set") }
{
    matches!(text, b"set")
}
