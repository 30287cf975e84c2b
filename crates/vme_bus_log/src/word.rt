//! Words of a line, apart by blanks, and words read as numbers.
ghost use Rattle.std.specs.Prelude.{◌≡◌, ◌≤◌, ◌<◌, not, length, IfSome};
ghost use Rattle.std.specs.List.{position};
ghost use Rattle.std.specs.Option.{option_map};
ghost use Rattle.vme_bus_log.specs.Words.{is_blank, from_word, word_len, next_word, decimal_digit, with_digit, decimal};

/// Whether a byte is a blank.
pub(crate) fn is_blank(byte: u8) -> bool
    ensures { result ≡ is_blank byte }
{
    byte == b' ' || 9 <= byte && byte <= 13
}

/// Returns the text from its first byte that is no blank.
fn skip_blanks(text: &[u8]) -> &[u8]
    ensures { result.now ≡ from_word text.now }
{
    match word_place(text) {
        Some(place) => text.split_at(place).1,
        None => &[],
    }
}

/// Returns the index of the first byte that is no blank.
fn word_place(text: &[u8]) -> Option<usize>
    ensures place { result ≡ position (λ b. not (is_blank b)) text.now }
    ensures within { IfSome result (λ place. place < length text.now) }
{
    text.iter().position(|byte| !is_blank(*byte))
}

/// Returns the number of bytes before the first blank.
fn word_len(text: &[u8]) -> usize
    ensures len { result ≡ word_len text.now }
    ensures within { result ≤ length text.now }
{
    match blank_place(text) {
        Some(place) => place,
        None => text.len(),
    }
}

/// Returns the index of the first blank.
fn blank_place(text: &[u8]) -> Option<usize>
    ensures place { result ≡ position is_blank text.now }
    ensures within { IfSome result (λ place. place < length text.now) }
{
    text.iter().position(|byte| is_blank(*byte))
}

/// Returns the first word and the text after it.
pub(crate) fn next_word(text: &[u8]) -> Option<(&[u8], &[u8])>
    ensures { option_map (λ word. (word.0.now, word.1.now)) result ≡ next_word text.now }
{
    let rest = skip_blanks(text);
    if rest.is_empty() {
        return None;
    }
    Some(rest.split_at(word_len(rest)))
}

/// Returns the value of a decimal digit.
fn decimal_digit(byte: u8) -> Option<u8>
    ensures { result ≡ decimal_digit byte }
{
    match byte {
        b'0'..=b'9' => Some(byte - b'0'),
        _ => None,
    }
}

/// Returns a number with one more digit, if it is below 2^64.
fn with_digit(number: u64, digit: u8) -> Option<u64>
    ensures { result ≡ with_digit number digit }
{
    number.checked_mul(10)?.checked_add(u64::from(digit))
}

/// Returns the number that decimal digits spell, if it is below 2^64.
pub(crate) fn decimal(word: &[u8]) -> Option<u64>
    ensures { result ≡ decimal word.now }
{
    if word.is_empty() {
        return None;
    }
    let mut number: u64 = 0;
    for byte in word {
        let digit = decimal_digit(*byte)?;
        number = with_digit(number, digit)?;
    }
    Some(number)
}
