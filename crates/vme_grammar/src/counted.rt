//! The words of a line, counted: an exact number of words, or the first ones and the rest.
ghost use Rattle.std.specs.Prelude.{◌≡◌, ◌==◌, ◌∷◌, [], false, MatchOption, length};
ghost use Rattle.std.specs.Option.{option_map};
ghost use Rattle.vme_lexer.specs.Words.{words};
ghost use Rattle.vme_grammar.specs.Modifies.{three_and_more, four_and_more};

use vme_lexer::Words;

/// Returns the word if there is exactly one, otherwise `None`.
pub(crate) fn one_word(mut operands: Words<'_>) -> Option<&[u8]>
    ensures { MatchOption result ((length (words operands.entry.rest.now) == 1) ≡ false) (λ word.
        words operands.entry.rest.now ≡ word.now ∷ []) }
{
    let word = operands.next()?;
    if operands.next().is_some() {
        return None;
    }
    Some(word)
}

/// Returns the words if there are exactly two, otherwise `None`.
pub(crate) fn two_words(mut operands: Words<'_>) -> Option<(&[u8], &[u8])>
    ensures { MatchOption result ((length (words operands.entry.rest.now) == 2) ≡ false) (λ w.
        words operands.entry.rest.now ≡ w.0.now ∷ w.1.now ∷ []) }
{
    let a = operands.next()?;
    let b = operands.next()?;
    if operands.next().is_some() {
        return None;
    }
    Some((a, b))
}

/// Returns the words if there are exactly three, otherwise `None`.
pub(crate) fn three_words(mut operands: Words<'_>) -> Option<(&[u8], &[u8], &[u8])>
    ensures { MatchOption result ((length (words operands.entry.rest.now) == 3) ≡ false) (λ w.
        words operands.entry.rest.now ≡ w.0.now ∷ w.1.now ∷ w.2.now ∷ []) }
{
    let a = operands.next()?;
    let b = operands.next()?;
    let c = operands.next()?;
    if operands.next().is_some() {
        return None;
    }
    Some((a, b, c))
}

/// Returns the words if there are exactly four, otherwise `None`.
pub(crate) fn four_words(mut operands: Words<'_>) -> Option<(&[u8], &[u8], &[u8], &[u8])>
    ensures { MatchOption result ((length (words operands.entry.rest.now) == 4) ≡ false) (λ w.
        words operands.entry.rest.now ≡ w.0.now ∷ w.1.now ∷ w.2.now ∷ w.3.now ∷ []) }
{
    let a = operands.next()?;
    let b = operands.next()?;
    let c = operands.next()?;
    let d = operands.next()?;
    if operands.next().is_some() {
        return None;
    }
    Some((a, b, c, d))
}

/// Returns the words if there are exactly five, otherwise `None`.
pub(crate) fn five_words(mut operands: Words<'_>) -> Option<(&[u8], &[u8], &[u8], &[u8], &[u8])>
    ensures { MatchOption result ((length (words operands.entry.rest.now) == 5) ≡ false) (λ w.
        words operands.entry.rest.now ≡ w.0.now ∷ w.1.now ∷ w.2.now ∷ w.3.now ∷ w.4.now ∷ []) }
{
    let a = operands.next()?;
    let b = operands.next()?;
    let c = operands.next()?;
    let d = operands.next()?;
    let e = operands.next()?;
    if operands.next().is_some() {
        return None;
    }
    Some((a, b, c, d, e))
}

/// The first three words, and an iterator over the rest.
pub(crate) fn three_and_more(mut operands: Words<'_>) -> Option<(&[u8], &[u8], &[u8], Words<'_>)>
    ensures { option_map (λ w. (w.0.now, w.1.now, w.2.now, words w.3.rest.now)) result
        ≡ three_and_more (words operands.entry.rest.now) }
{
    let a = operands.next()?;
    let b = operands.next()?;
    let c = operands.next()?;
    Some((a, b, c, operands))
}

/// The first four words, and an iterator over the rest.
pub(crate) fn four_and_more(
    mut operands: Words<'_>,
) -> Option<(&[u8], &[u8], &[u8], &[u8], Words<'_>)>
    ensures { option_map (λ w. (w.0.now, w.1.now, w.2.now, w.3.now, words w.4.rest.now)) result
        ≡ four_and_more (words operands.entry.rest.now) }
{
    let a = operands.next()?;
    let b = operands.next()?;
    let c = operands.next()?;
    let d = operands.next()?;
    Some((a, b, c, d, operands))
}
