//! What helps against a finding.
use crate::report::Context;
use crate::texts::message::{Message, Value, plain, push_message, with, with_two};
use crate::texts::names::{FUNCTIONS, LONG_COMMANDS, keys_of, near, other_word};
use std::alloc::AllocError;
use vme_positions::{Key, Place, TableName};

/// The number of unknown keys of a table that are compared with a missing one.
const NEAR_KEYS: usize = 16;

/// What helps against a finding: a text, which is empty if nothing helps, or what a search finds.
#[derive(Clone, Copy)]
pub(crate) struct Help {
    message: Message,
    search: Search,
}

/// The names among which one is searched that is similar to a word.
#[derive(Clone, Copy)]
enum Search {
    /// No names.
    Nothing,
    /// The commands with long names.
    Commands,
    /// The functions of a read-modify-write.
    Functions,
    /// The keys of a table.
    Keys(TableName),
    /// The unknown keys of the table of the finding, which are compared with this key.
    Unknown(Key),
}

/// Nothing helps.
pub(crate) fn no_help() -> Help {
    says(plain(""))
}

/// A text helps.
pub(crate) fn says(message: Message) -> Help {
    let search = Search::Nothing;
    Help { message, search }
}

/// The command that has a similar name helps.
pub(crate) fn similar_command() -> Help {
    searches(Search::Commands)
}

/// The function that has a similar name helps.
pub(crate) fn similar_function() -> Help {
    searches(Search::Functions)
}

/// The key of a table that has a similar name, or the same meaning, helps.
pub(crate) fn similar_key(table: TableName) -> Help {
    searches(Search::Keys(table))
}

/// The unknown key of the table that is similar to a missing one helps.
pub(crate) fn unknown_key(missing: Key) -> Help {
    searches(Search::Unknown(missing))
}

/// What a search finds helps.
fn searches(search: Search) -> Help {
    let message = plain("");
    Help { message, search }
}

/// Appends a help, or nothing.
///
/// # Errors
///
/// An allocation failed.
pub(crate) fn push_help(
    help: &Help,
    context: &Context<'_>,
    to: &mut String,
) -> Result<(), AllocError> {
    let word = context.word;
    push_message(&help.message, word, to)?;
    match help.search {
        Search::Nothing => Ok(()),
        Search::Commands => push_similar(LONG_COMMANDS.as_slice(), None, context, to),
        Search::Functions => push_similar(FUNCTIONS.as_slice(), None, context, to),
        Search::Keys(table) => push_similar(keys_of(table), other_word(table, word), context, to),
        Search::Unknown(key) => push_unknown(key, context, to),
    }
}

/// Appends which of the names the word is probably meant for, or else `otherwise`.
fn push_similar(
    names: &[&'static str],
    otherwise: Option<&'static str>,
    context: &Context<'_>,
    to: &mut String,
) -> Result<(), AllocError> {
    match near(context.alloc, context.word, names, otherwise)? {
        Some(name) => push_message(&with("did you mean {}?", Value::Key(name)), &[], to),
        None => Ok(()),
    }
}

/// Appends which unknown key of the table may be the missing one, if one has a similar name.
fn push_unknown(key: Key, context: &Context<'_>, to: &mut String) -> Result<(), AllocError> {
    let Place::Table { table, index } = context.place else {
        return Ok(());
    };
    let Some(outline) = context.input.outline else {
        return Ok(());
    };
    for nth in 0..NEAR_KEYS {
        let Some(name) = outline.unknown_name(table, index, nth) else {
            break;
        };
        let word = name.as_bytes();
        let meant = near(context.alloc, word, keys_of(table), other_word(table, word))?;
        if meant == Some(key.name()) {
            let message = with_two(
                "{} may be meant for {}",
                Value::Quoted,
                Value::Key(key.name()),
            );
            return push_message(&message, word, to);
        }
    }
    Ok(())
}
