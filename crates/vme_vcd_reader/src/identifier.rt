//! The identifiers of variables, as numbers.
ghost use Rattle.std.specs.Prelude.{◌≡◌, ◌≢◌, ℕ, List};
ghost use Rattle.vme_vcd_reader.specs.Names.{with_character, identifier_of, no_identifier};

/// No identifier: that of all with more than nine characters.
pub(crate) const NO_IDENTIFIER: u64 = u64::MAX;

/// The greatest number to which a further character is appended: 95^9 and more stay below 2^64.
const MOST: u64 = 95 * 95 * 95 * 95 * 95 * 95 * 95 * 95;

/// Returns the identifier with one more character. The empty one is 0.
#[inline]
pub(crate) fn with_character(identifier: u64, byte: u8) -> u64
    ensures { result ≡ with_character identifier byte }
{
    if MOST <= identifier || byte < 33 || 126 < byte {
        return NO_IDENTIFIER;
    }
    identifier.wrapping_mul(95) + u64::from(byte - 32)
}

/// Returns the identifier that a word is.
pub(crate) fn identifier_of(word: &[u8]) -> u64
    ensures number { result ≡ identifier_of word.now }
    ensures alone { (other : List ℕ) → result ≢ no_identifier → identifier_of other ≡ result → other ≡ word.now }
{
    let mut identifier = 0;
    for byte in word {
        identifier = with_character(identifier, *byte);
    }
    identifier
}
