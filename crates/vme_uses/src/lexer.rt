//! A use of `vme_lexer`.
ghost use Rattle.std.specs.Prelude.{◌≡◌, slice_get};
ghost use Rattle.std.specs.Option.{option_and_then};
ghost use Rattle.vme_lexer.specs.Words.{words_of};
ghost use Rattle.vme_lexer.specs.Numbers.{hex_number};

use vme_lexer::{hex_number, words_of};

/// Returns the number that the second word of a line spells in eight hexadecimal digits.
pub fn second_number(line: &[u8]) -> Option<u32>
    ensures { result ≡ option_and_then (hex_number 8) (slice_get (words_of line.now) 1) }
{
    let mut words = words_of(line);
    words.next()?;
    let word = words.next()?;
    hex_number(8, word)
}
