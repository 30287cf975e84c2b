//! Words of a file in a message.
use std::alloc::AllocError;
use std::fmt::Write;

/// The greatest number of characters of a word that are shown.
const SHOWN: usize = 24;

/// Appends a word in backquotes: printable ASCII as it is, other bytes as `\xHH`, and `..` after
/// the first 24 characters of a longer one.
///
/// # Errors
///
/// An allocation failed.
pub(crate) fn push_quoted(word: &[u8], to: &mut String) -> Result<(), AllocError> {
    to.push('`')?;
    let mut count = 0usize;
    for byte in word {
        if SHOWN <= count {
            to.push_str("..")?;
            break;
        }
        count = count.saturating_add(push_byte(*byte, to)?);
    }
    to.push('`')
}

/// Appends a byte of a word, and returns how many characters it takes.
fn push_byte(byte: u8, to: &mut String) -> Result<usize, AllocError> {
    if (0x20..=0x7e).contains(&byte) {
        to.push(char::from(byte))?;
        return Ok(1);
    }
    write!(to, "\\x{byte:02x}")?;
    Ok(4)
}

/// The text of a TOML string without its quotes, or the bytes as they are.
pub(crate) fn without_quotes(value: &[u8]) -> &[u8] {
    for quote in [&b"\"\"\""[..], &b"'''"[..], &b"\""[..], &b"'"[..]] {
        if let Some(rest) = value.strip_prefix(quote)
            && let Some(body) = rest.strip_suffix(quote)
        {
            return body;
        }
    }
    value
}

/// Digits without leading zeros; `0` if all of them are zeros.
pub(crate) fn without_zeros(digits: &[u8]) -> &[u8] {
    for (at, byte) in digits.iter().enumerate() {
        if *byte != b'0' {
            return digits.get(at..).unwrap_or(digits);
        }
    }
    b"0"
}

/// The bytes of a word after `0x`, if it begins so.
pub(crate) fn without_prefix(word: &[u8]) -> &[u8] {
    word.strip_prefix(b"0x").unwrap_or(word)
}
