//! A message as a text and values, and the function that prints every message.
use crate::report::push_count;
use crate::texts::quote::{push_quoted, without_prefix, without_quotes, without_zeros};
use std::alloc::AllocError;
use std::fmt::Write;

/// A value in a message. The word is that of the file which the message is about.
#[derive(Clone, Copy)]
pub(crate) enum Value {
    /// Nothing.
    None,
    /// A code, two hexadecimal digits.
    Code(u32),
    /// An address, eight hexadecimal digits.
    Address(u64),
    /// A number, hexadecimal.
    Hex(u64),
    /// A number.
    Number(u64),
    /// A number that may be below 0.
    Signed(i64),
    /// A number and the word for what is counted, in the plural unless the number is 1.
    Count(u64, &'static str),
    /// A word and a number.
    Numbered(&'static str, u64),
    /// A word, a number, and a key in backquotes.
    Element(&'static str, u64, &'static str),
    /// A word.
    Word(&'static str),
    /// A word in backquotes.
    Key(&'static str),
    /// The word, quoted.
    Quoted,
    /// The word without the quotes of a string of TOML, quoted.
    QuotedText,
    /// The word without leading zeros, quoted.
    QuotedNumber,
    /// The characters of the word.
    Chars,
    /// The characters of the word after `0x`, with this many zeros before them.
    Padded(usize),
    /// The numbers of the bits that are set, from 1 to 21, each after a space.
    Slots(u32),
}

/// A text with `{}` in the place of each value, and the values.
#[derive(Clone, Copy)]
pub(crate) struct Message {
    pub(crate) text: &'static str,
    pub(crate) values: [Value; 6],
}

/// A message without values.
pub(crate) fn plain(text: &'static str) -> Message {
    Message {
        text,
        values: [Value::None; 6],
    }
}

/// A message with one value.
pub(crate) fn with(text: &'static str, value: Value) -> Message {
    with_three(text, value, Value::None, Value::None)
}

/// A message with two values.
pub(crate) fn with_two(text: &'static str, first: Value, second: Value) -> Message {
    with_three(text, first, second, Value::None)
}

/// A message with three values.
pub(crate) fn with_three(text: &'static str, first: Value, second: Value, third: Value) -> Message {
    Message {
        text,
        values: [first, second, third, Value::None, Value::None, Value::None],
    }
}

/// Appends a message about a word.
///
/// # Errors
///
/// An allocation failed.
pub(crate) fn push_message(
    message: &Message,
    word: &[u8],
    to: &mut String,
) -> Result<(), AllocError> {
    let mut values = message.values.iter();
    let mut texts = message.text.split("{}");
    if let Some(first) = texts.next() {
        to.push_str(first)?;
    }
    for text in texts {
        if let Some(value) = values.next() {
            push_value(*value, word, to)?;
        }
        to.push_str(text)?;
    }
    Ok(())
}

/// Appends a value.
fn push_value(value: Value, word: &[u8], to: &mut String) -> Result<(), AllocError> {
    match value {
        Value::None => Ok(()),
        Value::Code(code) => write!(to, "{code:02x}"),
        Value::Address(address) => write!(to, "{address:08x}"),
        Value::Hex(number) => write!(to, "{number:x}"),
        Value::Number(number) => write!(to, "{number}"),
        Value::Signed(number) => write!(to, "{number}"),
        Value::Count(count, thing) => push_count(count, thing, to),
        Value::Numbered(thing, number) => write!(to, "{thing} {number}"),
        Value::Element(thing, number, key) => write!(to, "{thing} {number} of `{key}`"),
        Value::Word(text) => to.push_str(text),
        Value::Key(key) => write!(to, "`{key}`"),
        Value::Quoted => push_quoted(word, to),
        Value::QuotedText => push_quoted(without_quotes(word), to),
        Value::QuotedNumber => push_quoted(without_zeros(word), to),
        Value::Chars => push_chars(word, to),
        Value::Padded(zeros) => push_padded(zeros, without_prefix(word), to),
        Value::Slots(slots) => push_slots(slots, to),
    }
}

/// Appends ASCII characters.
fn push_chars(chars: &[u8], to: &mut String) -> Result<(), AllocError> {
    for byte in chars {
        to.push(char::from(*byte))?;
    }
    Ok(())
}

/// Appends zeros and ASCII characters.
fn push_padded(zeros: usize, chars: &[u8], to: &mut String) -> Result<(), AllocError> {
    for _ in 0..zeros {
        to.push('0')?;
    }
    push_chars(chars, to)
}

/// The greatest number of a slot.
const LAST_SLOT: u32 = 21;

/// Appends the slots whose bit is set.
fn push_slots(slots: u32, to: &mut String) -> Result<(), AllocError> {
    let mut separator = " ";
    for slot in 1..=LAST_SLOT {
        if slots & (1 << slot) != 0 {
            write!(to, "{separator}{slot}")?;
            separator = ", ";
        }
    }
    Ok(())
}
