//! The texts of faults of a file as a document.
use crate::report::{Context, Input};
use crate::texts::help::{Help, no_help, says, similar_key, unknown_key};
use crate::texts::message::{Message, Value, plain, with, with_three, with_two};
use crate::texts::names::{keys_of, number_of, table_name};
use memchr::memmem;
use vme_faults::{DocumentCause, TomlError, ValueKind};
use vme_positions::{Key, Place, Span, TableName};

/// The message of a cause.
pub(crate) fn message_of(cause: DocumentCause, context: &Context<'_>) -> Message {
    match cause {
        DocumentCause::NotToml { error } => toml_message(error, context.word),
        DocumentCause::UnknownKey => with_two(
            "unknown key {} of {}",
            Value::Quoted,
            Value::Word(table_name(table_of(context.place))),
        ),
        DocumentCause::MissingKey { key } => with_two(
            "{} without the required key {}",
            Value::Word(if table_of(context.place) == TableName::Mailbox {
                "mailbox"
            } else {
                "board"
            }),
            Value::Key(key.name()),
        ),
        DocumentCause::WrongKind { found, wanted } => with_three(
            "{} is {}; it takes {}",
            subject_of(context.place),
            Value::Word(kind_name(found)),
            Value::Word(wanted_name(wanted)),
        ),
        DocumentCause::OutOfRange { value } => with_two(
            "{} is {}; it takes 0 to 4294967295",
            subject_of(context.place),
            Value::Signed(value),
        ),
        DocumentCause::NotPair { more } => not_pair(subject_of(context.place), more as u64),
        DocumentCause::NotTable { found, more } => {
            not_table(subject_of(context.place), found, more as u64)
        }
        DocumentCause::NoBoard => plain("no board"),
        DocumentCause::TooManyBoards { boards } => with(
            "board 22; a backplane has 21 slots, and this file {} boards",
            Value::Number(boards as u64),
        ),
    }
}

/// The message about an element that is no pair, and about this many elements after it.
fn not_pair(subject: Value, more: u64) -> Message {
    match more {
        0 => with("{} is not a pair [slot, turns]", subject),
        1 => with("{} is not a pair [slot, turns] (nor is 1 more)", subject),
        _ => with_two(
            "{} is not a pair [slot, turns] (nor are {} more)",
            subject,
            Value::Number(more),
        ),
    }
}

/// The message about an element that is no table, and about this many elements after it.
fn not_table(subject: Value, found: ValueKind, more: u64) -> Message {
    let found = Value::Word(kind_name(found));
    match more {
        0 => with_two("{} is {}, not a table", subject, found),
        1 => with_two("{} is {}, not a table (nor is 1 more)", subject, found),
        _ => with_three(
            "{} is {}, not a table (nor are {} more)",
            subject,
            found,
            Value::Number(more),
        ),
    }
}

/// The message of an error of TOML at a word. The one about an invalid value lists all kinds of
/// values, so a message that quotes the word stands in its place.
fn toml_message(error: TomlError, word: &[u8]) -> Message {
    if !error.is_value() {
        return with("not TOML: {}", Value::Word(error.message()));
    }
    if word.is_empty() {
        return plain("not TOML: a value is missing here");
    }
    with("not TOML: {} is not a value", Value::Quoted)
}

/// The subject of a message about a value: the key, or the element of an array.
fn subject_of(place: Place) -> Value {
    match place {
        Place::Key { key, .. } | Place::Value { key, .. } => Value::Key(key.name()),
        Place::Element { key, index } => { Value::Element("element", number_of(index), key.name()) }
        Place::PairSlot { index } => {
            Value::Element("the slot of element", number_of(index), "schedule")
        }
        Place::PairTurns { index } => Value::Element(
            "the number of turns of element",
            number_of(index),
            "schedule",
        ),
        _ => Value::Word("the value"),
    }
}

/// The help of a cause.
pub(crate) fn help_of(cause: DocumentCause, context: &Context<'_>) -> Help {
    match cause {
        DocumentCause::NotToml { error } if error.is_value() && is_of_script(context.line) => {
            says(plain("put the script in quotes: script = \"r 09 00000000 1\""))
        }
        DocumentCause::NotToml { .. } => toml_help(context.word),
        DocumentCause::UnknownKey => key_help(table_of(context.place), context.word),
        DocumentCause::MissingKey { key } => unknown_key(key),
        DocumentCause::WrongKind { found, wanted } => kind_help(found, wanted, context.place),
        DocumentCause::NotPair { .. } => says(plain("write schedule = [[1, 3], [2, 3]]")),
        DocumentCause::NoBoard => says(plain("a file has 1 to 21 tables [[board]]")),
        DocumentCause::OutOfRange { .. }
        | DocumentCause::NotTable { .. }
        | DocumentCause::TooManyBoards { .. } => no_help(),
    }
}

/// Whether a line up to a value has the key of a script.
fn is_of_script(line: &[u8]) -> bool {
    match line.trim_ascii().strip_suffix(b"=") {
        Some(key) => key.trim_ascii() == b"script".as_slice(),
        None => false,
    }
}

/// The help for a value of one kind in place of another.
fn kind_help(found: ValueKind, wanted: ValueKind, place: Place) -> Help {
    match (found, wanted) {
        (ValueKind::Text, ValueKind::Whole) => { says(plain("write the number without quotes")) }
        (_, ValueKind::Truth) => says(plain("write true or false, without quotes")),
        (ValueKind::Table, ValueKind::Array) => says(plain(match place {
            Place::Value {
                key: Key::Mailbox,
                ..
            } => "write [[mailbox]] with two brackets",
            _ => "write [[board]] with two brackets",
        })),
        _ => no_help(),
    }
}

/// The help for an unknown key: the table that has it, or a key with a similar name.
fn key_help(table: TableName, word: &[u8]) -> Help {
    for other in [TableName::File, TableName::Board, TableName::Mailbox] {
        if other != table && is_key(other, word) {
            return says(with(elsewhere(other), Value::Quoted));
        }
    }
    similar_key(table)
}

/// The text about a key that belongs to another table.
fn elsewhere(other: TableName) -> &'static str {
    match other {
        TableName::File => {
            "{} is a key of the file: write it above the first [[board]] or [[mailbox]]"
        }
        TableName::Board => "{} is a key of a board: write it below [[board]]",
        TableName::Mailbox => "{} is a key of a mailbox: write it below [[mailbox]]",
    }
}

/// Whether a word is a key of a table.
fn is_key(table: TableName, word: &[u8]) -> bool {
    keys_of(table).iter().any(|name| name.as_bytes() == word)
}

/// The help for a word that is not a TOML value.
fn toml_help(word: &[u8]) -> Help {
    if word.eq_ignore_ascii_case(b"true") || word.eq_ignore_ascii_case(b"false") {
        return says(plain("write true or false in small letters"));
    }
    if let Some(digits) = word.strip_prefix(b"0")
        && !digits.is_empty()
        && digits.len() <= 8
        && digits.iter().all(|byte| byte.is_ascii_hexdigit())
    {
        return says(zero_help(digits));
    }
    let is_word = word.first().is_some_and(|byte| byte.is_ascii_alphabetic())
        && word.iter().all(|byte| byte.is_ascii_alphanumeric());
    if is_word && word.len() <= 16 {
        return says(with("write \"{}\" if a string is meant", Value::Chars));
    }
    no_help()
}

/// The help for a number with a leading zero, whose other digits are these.
fn zero_help(digits: &[u8]) -> Message {
    if digits.iter().all(|byte| byte.is_ascii_digit()) {
        with_two("write {} or `0x{}`", Value::QuotedNumber, Value::Chars)
    } else {
        with("write `0x{}`", Value::Chars)
    }
}

/// The offset of the note of a cause: where a repeated key stands first, or the quotes that open a
/// string which does not end.
pub(crate) fn note_offset(cause: DocumentCause, input: &Input<'_>, span: Span) -> Option<usize> {
    let DocumentCause::NotToml { error } = cause else {
        return None;
    };
    if error.is_repeated_key() {
        return Some(input.outline?.first_of_key(input.text, span)?.from);
    }
    if span.from < input.text.len() || !error.is_string() {
        return None;
    }
    let basic = memmem::rfind(input.text, b"\"\"\"");
    let literal = memmem::rfind(input.text, b"'''");
    match (basic, literal) {
        (Some(basic), Some(literal)) => Some(basic.max(literal)),
        (basic, None) => basic,
        (None, literal) => literal,
    }
}

/// The text of the note of a cause.
pub(crate) fn note_of(cause: DocumentCause) -> Message {
    match cause {
        DocumentCause::NotToml { error } if error.is_repeated_key() => plain(
            "the key is first here",
        ),
        _ => plain("the string begins here"),
    }
}

/// The table of a place.
fn table_of(place: Place) -> TableName {
    match place {
        Place::Table { table, .. }
        | Place::Key { table, .. }
        | Place::Value { table, .. }
        | Place::Unknown { table, .. } => table,
        _ => TableName::File,
    }
}

/// The kind of a value, in words.
fn kind_name(kind: ValueKind) -> &'static str {
    match kind {
        ValueKind::Text => "a string",
        ValueKind::Whole => "a whole number",
        ValueKind::Float => "a number with a fraction",
        ValueKind::Truth => "true or false",
        ValueKind::Date => "a date or a time",
        ValueKind::Array => "an array",
        ValueKind::Table => "a table",
    }
}

/// The values that a key takes, in words.
fn wanted_name(kind: ValueKind) -> &'static str {
    match kind {
        ValueKind::Text => "a string",
        ValueKind::Whole => "a whole number from 0 to 4294967295",
        ValueKind::Truth => "true or false",
        ValueKind::Array => "an array of tables",
        ValueKind::Float | ValueKind::Date | ValueKind::Table => kind_name(kind),
    }
}
