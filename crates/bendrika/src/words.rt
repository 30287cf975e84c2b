//! The parser of the command line, made from the tables of `forms`.
use crate::forms::{Form, Kind, Word, forms};
use clap::{Arg, ArgAction, Command, value_parser};
use std::alloc::{AllocError, Global};

/// The version that `--version` prints: that of the file VERSION.
pub(crate) const VERSION: &str = "1.0.0";

/// The greatest number of states that `--limit` of `outcomes` takes.
const MOST_STATES: i64 = 100_000_000;

/// The greatest number of bytes that `--memory` takes.
const MOST_BYTES: i64 = 1_000_000_000_000_000;

/// Returns the parser of the program's words.
pub(crate) fn program<'a>(alloc: Global) -> Result<Command<'a>, AllocError> {
    let mut program = Command::new(alloc, "bendrika")
        .bin_name("bendrika")?
        .version(VERSION)
        .about("Companion of vme: checks its files and explains what it says")
        .arg_required_else_help(true)
        .subcommand_required(true);
    for form in forms() {
        program = program.subcommand(subcommand(alloc, &form)?)?;
    }
    Ok(program)
}

/// Returns the parser of a subcommand.
fn subcommand<'a>(alloc: Global, form: &Form) -> Result<Command<'a>, AllocError> {
    let mut command = Command::new(alloc, form.name)
        .about(form.about)
        .after_help(form.end);
    for word in form.words {
        command = command.arg(argument(alloc, word)?)?;
    }
    Ok(command)
}

/// Returns the parser of a word.
fn argument<'a>(alloc: Global, word: &Word) -> Result<Arg<'a>, AllocError> {
    let named = Arg::new(alloc, word.name).help(word.help);
    match word.kind {
        Kind::Required => Ok(named.value_name(word.value).required(true)),
        Kind::Optional => Ok(named.value_name(word.value)),
        Kind::OneOrMore => Ok(
            named
                .value_name(word.value)
                .required(true)
                .num_args(1..)
                .action(ArgAction::Append),
        ),
        Kind::AnyNumber => Ok(
            named
                .value_name(word.value)
                .num_args(0..)
                .action(ArgAction::Append),
        ),
        _ => option(named.long(word.name), word),
    }
}

/// Returns the parser of an option, which has its long name already.
fn option<'a>(named: Arg<'a>, word: &Word) -> Result<Arg<'a>, AllocError> {
    match word.kind {
        Kind::Texts => Ok(named.value_name(word.value).action(ArgAction::Append)),
        Kind::Text => Ok(named.value_name(word.value).action(ArgAction::Set)),
        Kind::ExclusiveText(other) => named
            .value_name(word.value)
            .action(ArgAction::Set)
            .conflicts_with(other),
        Kind::Number(default) => Ok(numbered(named, word).default_value(default)),
        Kind::StateCount(default) => Ok(
            numbered(named, word)
                .value_parser(value_parser!(usize).range(1..=MOST_STATES))
                .default_value(default),
        ),
        Kind::ByteCount => Ok(numbered(named, word).value_parser(value_parser!(usize).range(
            1..=MOST_BYTES,
        ))),
        Kind::ShortFlag(letter) => Ok(named.short(letter).action(ArgAction::SetTrue)),
        Kind::ExclusiveFlag(other) => named.action(ArgAction::SetTrue).conflicts_with(other),
        Kind::ListFlag => named
            .action(ArgAction::SetTrue)
            .conflicts_with("never")?
            .conflicts_with("always")?
            .conflicts_with("lines")?
            .conflicts_with("show")?
            .conflicts_with("page"),
        Kind::Flag | Kind::Required | Kind::Optional | Kind::OneOrMore | Kind::AnyNumber => {
            Ok(named.action(ArgAction::SetTrue))
        }
    }
}

/// Returns the parser of an option with a number.
fn numbered<'a>(named: Arg<'a>, word: &Word) -> Arg<'a> {
    named
        .value_name(word.value)
        .action(ArgAction::Set)
        .value_parser(value_parser!(usize))
}
