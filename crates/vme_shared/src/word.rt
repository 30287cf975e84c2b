//! Words and counts, as four bytes of a board's memory.
ghost use Rattle.std.specs.Prelude.{◌≡◌};
ghost use Rattle.vme_cycle.specs.Functions.{number_bytes};
ghost use Rattle.vme_shared.specs.Steps.{word_in};

use vme_lanes::Datum;

/// Returns the bytes of a word, the most significant first.
pub(crate) fn word_bytes(word: u32) -> Datum
    ensures { result.items ≡ number_bytes 4 word }
{
    Datum::try_from(&word.to_be_bytes()[..]).unwrap()
}

/// Returns the word of four bytes, the most significant first, or `None` for another length.
pub(crate) fn word_in(bytes: &[u8]) -> Option<u32>
    ensures { result ≡ word_in bytes.now }
{
    match bytes {
        [a, b, c, d] => Some(u32::from_be_bytes([*a, *b, *c, *d])),
        _ => None,
    }
}
