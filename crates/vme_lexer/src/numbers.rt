//! Words of a line read as numbers and as bytes.
ghost use Rattle.std.specs.Prelude.{◌≡◌, ◌<◌, ◌≤◌, ◌^◌, IfSome, MatchOption};
ghost use Rattle.std.specs.Option.{option_map};
ghost use Rattle.vme_lexer.specs.Numbers.{hex_digit, hex_number, hex_bytes, exact_bytes, small_number, local_number, local_bytes, decimal_digit, decimal_number};

use arrayvec::ArrayVec;
use vme_lanes::Datum;

/// The value of a byte that is not a hexadecimal digit: 2^32, which is more than any eight digits
/// spell. A sum that contains it stays at least 2^32.
const X: u64 = 1 << 32;

/// The value of each byte as a hexadecimal digit of either case, or `X`.
static DIGITS: [u64; 256] = [
    X, X, X, X, X, X, X, X, X, X, X, X, X, X, X, X, X, X, X, X, X, X, X, X, X, X, X, X, X, X, X, X,
    X, X, X, X, X, X, X, X, X, X, X, X, X, X, X, X, 0, 1, 2, 3, 4, 5, 6, 7, 8, 9, X, X, X, X, X, X,
    X, 10, 11, 12, 13, 14, 15, X, X, X, X, X, X, X, X, X, X, X, X, X, X, X, X, X, X, X, X, X, X, X,
    X, X, X, 10, 11, 12, 13, 14, 15, X, X, X, X, X, X, X, X, X, X, X, X, X, X, X, X, X, X, X, X, X,
    X, X, X, X, X, X, X, X, X, X, X, X, X, X, X, X, X, X, X, X, X, X, X, X, X, X, X, X, X, X, X, X,
    X, X, X, X, X, X, X, X, X, X, X, X, X, X, X, X, X, X, X, X, X, X, X, X, X, X, X, X, X, X, X, X,
    X, X, X, X, X, X, X, X, X, X, X, X, X, X, X, X, X, X, X, X, X, X, X, X, X, X, X, X, X, X, X, X,
    X, X, X, X, X, X, X, X, X, X, X, X, X, X, X, X, X, X, X, X, X, X, X, X, X, X, X, X, X, X, X, X,
    X, X, X, X,
];

/// Returns the value of `c` as a hexadecimal digit, or `X` if it is not a digit.
fn hex_digit(c: u8) -> u64
    ensures digit { MatchOption (hex_digit c) (result ≡ 2 ^ 32) (λ d. (result ≡ d) × (d < 16)) }
{
    DIGITS[c as usize]
}

/// Returns the number that `word` spells in exactly `len` hexadecimal digits of either case.
///
/// Returns `None` if the length differs or a byte is not a digit. `len` is at most 8.
#[tactic(auto, unfolding(crate::specs::Numbers::hex_number))]
pub fn hex_number(len: usize, word: &[u8]) -> Option<u32>
    requires { len ≤ 8 }
    ensures value { result ≡ hex_number len word.now }
    ensures small { IfSome result (λ n. n < 16 ^ len) }
{
    if word.len() != len {
        return None;
    }
    let mut number = 0;
    for digit in word {
        number = 16 * number + hex_digit(*digit);
    }
    if number < X {
        Some(number as u32)
    } else {
        None
    }
}

/// Returns the bytes that `word` spells, two hexadecimal digits a byte.
///
/// Returns `None` if the word has no bytes or more than `MOST`, an odd number of digits, or a byte
/// that is not a digit. `MOST` is at most 256.
#[tactic(auto, unfolding(crate::specs::Numbers::hex_bytes))]
pub fn hex_bytes<const MOST: usize>(word: &[u8]) -> Option<ArrayVec<u8, MOST>>
    requires { MOST ≤ 256 }
    ensures { option_map (λ bytes. bytes.items) result ≡ hex_bytes MOST word.now }
{
    if word.is_empty() || 2 * MOST < word.len() {
        return None;
    }
    let mut bytes = ArrayVec::new();
    let mut rest = word;
    let mut sum = 0;
    while let [high, low, tail @ ..] = rest {
        let pair = 16 * hex_digit(*high) + hex_digit(*low);
        bytes.push((pair % 256) as u8);
        sum += pair;
        rest = tail;
    }
    if rest.is_empty() && sum < X {
        Some(bytes)
    } else {
        None
    }
}

/// Returns the bytes that `word` spells if they are exactly `len`, two hexadecimal digits a byte.
///
/// Returns `None` otherwise, and if `len` is 0 or more than 8.
#[tactic(auto, unfolding(crate::specs::Numbers::exact_bytes))]
pub fn exact_bytes(len: u8, word: &[u8]) -> Option<Datum>
    ensures { option_map (λ bytes. bytes.items) result ≡ exact_bytes len word.now }
{
    if word.len() != 2 * usize::from(len) {
        return None;
    }
    hex_bytes(word)
}

/// Returns the number that `word` spells if it is one digit from 1 to 8, otherwise `None`.
#[tactic(auto, unfolding(crate::specs::Numbers::small_number))]
pub fn small_number(word: &[u8]) -> Option<u8>
    ensures { result ≡ small_number word.now }
{
    match word {
        [digit @ b'1'..=b'8'] => Some(*digit - b'0'),
        _ => None,
    }
}

/// Returns the number that `word` spells if it is one of the digits 1, 2 and 4, otherwise `None`.
#[tactic(auto, unfolding(crate::specs::Numbers::local_number))]
pub fn local_number(word: &[u8]) -> Option<u8>
    ensures { result ≡ local_number word.now }
{
    match word {
        b"1" => Some(1),
        b"2" => Some(2),
        b"4" => Some(4),
        _ => None,
    }
}

/// Returns the bytes that `word` spells if they are one, two or four, otherwise `None`.
#[tactic(auto, unfolding(crate::specs::Numbers::local_bytes))]
pub fn local_bytes(word: &[u8]) -> Option<Datum>
    ensures { option_map (λ bytes. bytes.items) result ≡ local_bytes word.now }
{
    let bytes: Datum = hex_bytes(word)?;
    match bytes.len() {
        1 | 2 | 4 => Some(bytes),
        _ => None,
    }
}

/// Returns the value of `c` as a decimal digit, or `None` if it is not a digit.
fn decimal_digit(c: u8) -> Option<u8>
    ensures value { result ≡ decimal_digit c }
    ensures small { IfSome result (λ d. d < 10) }
{
    match c {
        b'0'..=b'9' => Some(c - b'0'),
        _ => None,
    }
}

/// Returns the number that `word` spells in one to `most` decimal digits.
///
/// Returns `None` if the word is empty, has more digits, or contains a byte that is not a digit.
/// `most` is at most 4.
#[tactic(auto, unfolding(crate::specs::Numbers::decimal_number))]
pub fn decimal_number(most: usize, word: &[u8]) -> Option<u16>
    requires { most ≤ 4 }
    ensures value { result ≡ decimal_number most word.now }
    ensures small { IfSome result (λ n. n < 10 ^ most) }
{
    if word.is_empty() || most < word.len() {
        return None;
    }
    let mut number: u16 = 0;
    for digit in word {
        number = 10 * number + u16::from(decimal_digit(*digit)?);
    }
    Some(number)
}
