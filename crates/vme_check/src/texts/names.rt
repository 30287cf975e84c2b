//! Names of spaces, keys and commands in messages, and the names that are similar to a misspelt
//! one.
use crate::texts::message::Value;
use std::alloc::{AllocError, Global};
use std::str;
use strsim::osa_distance;
use vme_am::Space;
use vme_faults::BoardName;
use vme_positions::TableName;

/// The names of the keys of a file.
static FILE_KEYS: [&str; 6] = ["rounds", "schedule", "arbiter", "tries", "board", "mailbox"];

/// The names of the keys of a board.
static BOARD_KEYS: [&str; 11] = [
    "slot",
    "level",
    "space",
    "base",
    "size",
    "width",
    "uat",
    "blt",
    "rmw",
    "supervisory",
    "script",
];

/// The names of the keys of a mailbox.
static MAILBOX_KEYS: [&str; 3] = ["am", "addr", "slots"];

/// The commands that a misspelt word is compared with. Commands of one or two letters would be
/// similar to any short word.
pub(crate) static LONG_COMMANDS: [&str; 5] = ["await", "lock", "unlock", "put", "take"];

/// The functions of a read-modify-write.
pub(crate) static FUNCTIONS: [&str; 4] = ["set", "xchg", "add", "cas"];

/// The greatest length of a word that is compared with names.
const LONGEST: usize = 16;

/// The greatest length of a name from which a word may differ by one edit; from a longer name it
/// may differ by two.
const SHORT: usize = 4;

/// Returns the name of a space as a file has it.
pub(crate) fn space_name(space: Space) -> &'static str {
    match space {
        Space::A16 => "a16",
        Space::A24 => "a24",
        Space::A32 => "a32",
    }
}

/// Returns the name of a board: its slot, or its number among the boards if the slot is refused.
pub(crate) fn board_name(board: BoardName) -> Value {
    match board {
        BoardName::Slot(slot) => Value::Numbered("slot", u64::from(slot)),
        BoardName::Index(index) => Value::Numbered("board", number_of(index)),
    }
}

/// Returns the number of what has this index: the first has the number 1.
pub(crate) fn number_of(index: usize) -> u64 {
    index.saturating_add(1) as u64
}

/// Returns the names of the keys of a table.
pub(crate) fn keys_of(table: TableName) -> &'static [&'static str] {
    match table {
        TableName::File => FILE_KEYS.as_slice(),
        TableName::Board => BOARD_KEYS.as_slice(),
        TableName::Mailbox => MAILBOX_KEYS.as_slice(),
    }
}

/// Returns the name of a table in messages.
pub(crate) fn table_name(table: TableName) -> &'static str {
    match table {
        TableName::File => "the file",
        TableName::Board => "a board",
        TableName::Mailbox => "a mailbox",
    }
}

/// Returns the command of one or two letters that a word is meant for: the word in small letters, or
/// what other tools call the command.
pub(crate) fn short_command(word: &[u8]) -> Option<&'static str> {
    for (capital, command) in [
        (&b"R"[..], "r"),
        (&b"W"[..], "w"),
        (&b"M"[..], "m"),
        (&b"BR"[..], "br"),
        (&b"BW"[..], "bw"),
        (&b"BF"[..], "bf"),
        (&b"LR"[..], "lr"),
        (&b"LW"[..], "lw"),
        (&b"LM"[..], "lm"),
        (&b"RD"[..], "r"),
        (&b"READ"[..], "r"),
        (&b"WR"[..], "w"),
        (&b"WRITE"[..], "w"),
        (&b"RMW"[..], "m"),
        (&b"MODIFY"[..], "m"),
    ] {
        if word.eq_ignore_ascii_case(capital) {
            return Some(command);
        }
    }
    None
}

/// Returns the first of the names with the fewest edits from a word in small letters, or
/// `otherwise` if each name differs by too many.
///
/// # Errors
///
/// An allocation failed.
pub(crate) fn near(
    alloc: Global,
    word: &[u8],
    names: &[&'static str],
    otherwise: Option<&'static str>,
) -> Result<Option<&'static str>, AllocError> {
    if LONGEST < word.len() {
        return Ok(otherwise);
    }
    let small = in_small_letters(alloc, word)?;
    let mut best = otherwise;
    let mut fewest = usize::MAX;
    for name in names {
        let edits = osa_distance(alloc, small.as_str(), name)?;
        if edits <= most_edits(name) && edits < fewest {
            best = Some(*name);
            fewest = edits;
        }
    }
    Ok(best)
}

/// The ASCII characters of a word in small letters.
fn in_small_letters(alloc: Global, word: &[u8]) -> Result<String, AllocError> {
    let mut small = String::new(alloc);
    for byte in word {
        small.push(char::from(byte.to_ascii_lowercase()))?;
    }
    Ok(small)
}

/// The greatest number of edits by which a word may differ from a name.
fn most_edits(name: &str) -> usize {
    if name.len() <= SHORT { 1 } else { 2 }
}

/// Returns the key of a table that has the same meaning as another word.
pub(crate) fn other_word(table: TableName, word: &[u8]) -> Option<&'static str> {
    let name = str::from_utf8(word).ok()?;
    match table {
        TableName::File => match name {
            "turns" => Some("schedule"),
            "retries" => Some("tries"),
            _ => None,
        },
        TableName::Board => match name {
            "address" | "addr" | "start" | "origin" => Some("base"),
            "length" | "len" => Some("size"),
            "program" | "code" => Some("script"),
            "priority" => Some("level"),
            _ => None,
        },
        TableName::Mailbox => match name {
            "address" | "base" => Some("addr"),
            "words" | "count" | "size" => Some("slots"),
            "modifier" => Some("am"),
            _ => None,
        },
    }
}
