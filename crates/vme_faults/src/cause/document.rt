//! Faults of a file as a document.
ghost use Rattle.std.specs.Prelude.{◌≡◌};
ghost use Rattle.vme_faults.specs.Causes.{document_refusal};

use toml::Value;
use toml::de::Error;
use toml_parser::ErrorKind;
use vme_positions::Key;
use vme_script::ConfigFault;

/// The kind of a TOML value.
#[derive(Clone, Copy, Debug, PartialEq, Eq)]
pub enum ValueKind {
    /// A string.
    Text,
    /// A whole number.
    Whole,
    /// A number with a fraction or an exponent, an infinity, or `nan`.
    Float,
    /// A Boolean.
    Truth,
    /// A date, a time, or both.
    Date,
    /// An array, also one of tables.
    Array,
    /// A table.
    Table,
}

impl ValueKind {
    /// Returns the kind of a value.
    pub fn of(value: &Value) -> ValueKind {
        match value {
            Value::String(_) => ValueKind::Text,
            Value::Integer(_) => ValueKind::Whole,
            Value::Float(_) => ValueKind::Float,
            Value::Boolean(_) => ValueKind::Truth,
            Value::Datetime(_) => ValueKind::Date,
            Value::Array(_) => ValueKind::Array,
            Value::Table(_) => ValueKind::Table,
        }
    }
}

/// What is wrong in a text that is not TOML. A `toml::de::Error` has 200 bytes, and each finding
/// would have them.
#[derive(Clone, Copy, Debug, PartialEq, Eq)]
pub struct TomlError {
    kind: ErrorKind,
}

/// The faults of a text that is not TOML, but the one that has no message of its own here.
static KINDS: [ErrorKind; 17] = [
    ErrorKind::Utf8,
    ErrorKind::Key,
    ErrorKind::MissingEquals,
    ErrorKind::UnclosedTable,
    ErrorKind::UnclosedArrayTable,
    ErrorKind::EndOfLine,
    ErrorKind::Array,
    ErrorKind::InlineTable,
    ErrorKind::String,
    ErrorKind::Escape,
    ErrorKind::Value,
    ErrorKind::Underscore,
    ErrorKind::Overflow,
    ErrorKind::Datetime,
    ErrorKind::DuplicateKey,
    ErrorKind::Extend,
    ErrorKind::Recursion,
];

impl TomlError {
    /// Returns the fault with the message of an error.
    pub fn of(error: &Error) -> TomlError {
        for kind in &KINDS {
            if kind.description() == error.message() {
                return TomlError { kind: *kind };
            }
        }
        TomlError {
            kind: ErrorKind::Content,
        }
    }

    /// Returns what is wrong, in words.
    pub fn message(self) -> &'static str {
        self.kind.description()
    }

    /// Returns whether a word is not a value.
    pub fn is_value(self) -> bool {
        self.kind == ErrorKind::Value
    }

    /// Returns whether a string is wrong, or has no end.
    pub fn is_string(self) -> bool {
        self.kind == ErrorKind::String
    }

    /// Returns whether a key is there already.
    pub fn is_repeated_key(self) -> bool {
        self.kind == ErrorKind::DuplicateKey
    }
}

/// A fault of a file as a document: C6, C7, C11 and C4.
#[derive(Clone, Copy, Debug, PartialEq, Eq)]
pub enum DocumentCause {
    /// C6: the text is not TOML.
    NotToml { error: TomlError },
    /// C7: the table has no key of this name. The place is `Place::Unknown`.
    UnknownKey,
    /// C7: the table has no `key`, which is required. The place is the table.
    MissingKey { key: Key },
    /// C7: the value has the kind `found` in place of `wanted`. For `schedule`, `board` and
    /// `mailbox` the kind wanted is `Array`.
    WrongKind { found: ValueKind, wanted: ValueKind },
    /// C7: the whole number is below 0 or above 2^32 - 1. The place is a value, or the slot or the
    /// turns of a pair of `schedule`.
    OutOfRange { value: i64 },
    /// C7: an element of `schedule` is not an array of two whole numbers, nor are the `more`
    /// elements after it.
    NotPair { more: usize },
    /// C7: an element of `board` or `mailbox` is not a table but of the kind `found`, and so are
    /// the `more` elements after it.
    NotTable { found: ValueKind, more: usize },
    /// C11: there is no board.
    NoBoard,
    /// C4: there are this many boards, more than 21. The place is the 22nd.
    TooManyBoards { boards: usize },
}

impl DocumentCause {
    /// Returns the refusal.
    pub(crate) fn refusal(self) -> ConfigFault
        ensures { result ≡ document_refusal self }
    {
        match self {
            DocumentCause::NotToml { .. } => ConfigFault::NotToml,
            DocumentCause::NoBoard => ConfigFault::NoBoard,
            DocumentCause::TooManyBoards { .. } => ConfigFault::TooMany,
            _ => ConfigFault::BadKey,
        }
    }
}
