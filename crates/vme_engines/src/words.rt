//! The forms of the command line.
ghost use Rattle.std.specs.Prelude.{◌≡◌, ◌⊎◌, false, map, string_bytes, Some, None, Err, IfOk, IfErr, codes};
ghost use Rattle.clap.specs.Words.{FailsBy, app_of, fault_of, first_of, found_of, subcommand_of, subcommand_rows_of};
ghost use Rattle.clap.specs.Walk.{rows_of};
ghost use Rattle.clap.specs.declared.builder.command.Command.TheViews.{out-Command};
ghost use Rattle.vme_engines.specs.declared.words.WordsFault.TheVariants.{Memory, Usage};
ghost use Rattle.vme_engines.specs.CommandLines.{asked_by, asked_in, words_status_of};
ghost use Rattle.vme_engines.specs.Subcommands.{asked_by_entered, command_line, file_shape};

use clap::error::{Error, ErrorKind};
use clap::{Arg, ArgMatches, Command};
use std::alloc::{AllocError, Global};
use thiserror::Error as Fault;

/// A form of the command line.
#[derive(Debug, Drop, PartialEq)]
pub enum Form {
    /// `vme cycles`
    Cycles,
    /// `vme step FILE`
    Step(String),
    /// `vme run FILE`
    Run(String),
}

/// Why the command line was not read. Its `Display` text is what the program reports.
#[derive(Clone, Copy, Debug, PartialEq, Eq, Fault)]
pub enum WordsFault {
    /// The words match none of the forms.
    #[error("usage: vme cycles | vme step FILE | vme run FILE")]
    Usage,
    /// An allocation failed.
    #[error("memory")]
    Memory,
}

impl From<AllocError> for WordsFault {
    ghost from_gives = { λ _ fault. fault ≡ Memory };

    fn from(_error: AllocError) -> WordsFault {
        WordsFault::Memory
    }
}

impl WordsFault {
    /// Returns the program's exit status: 2 for `Usage`, 3 for `Memory`.
    pub fn exit_status(self) -> u8
        ensures { result ≡ words_status_of self }
    {
        match self {
            WordsFault::Usage => 2,
            WordsFault::Memory => 3,
        }
    }
}

/// Reads the words of a command line, the program's name first.
///
/// # Errors
///
/// `Usage`: the words match none of the forms. `Memory`: an allocation failed.
pub fn read_words(alloc: Global, words: &[String]) -> Result<Form, WordsFault>
    ensures form { IfOk result (λ form.
        asked_in (map string_bytes words.now) ≡ Some (asked_by form)) }
    ensures usage { result ≡ Err Usage → asked_in (map string_bytes words.now) ≡ None }
{
    match parsed(alloc, words) {
        Ok(matches) => chosen(alloc, &matches),
        Err(error) if error.kind() == ErrorKind::OutOfMemory => Err(WordsFault::Memory),
        Err(_) => Err(WordsFault::Usage),
    }
}

/// Parses the words: the subcommand that they enter, and the path that its FILE has.
fn parsed<'a>(alloc: Global, words: &'a [String]) -> Result<ArgMatches<'a>, Error>
    ensures entered { IfOk result (λ matches.
        subcommand_rows_of matches ≡ subcommand_of command_line (map string_bytes words.now)) }
    ensures fault { FailsBy (fault_of command_line (map string_bytes words.now)) result }
{
    program(alloc)?.try_get_matches_from(words)
}

/// The parser of the command line, which requires one of three subcommands.
fn program<'a>(alloc: Global) -> Result<Command<'a>, AllocError>
    ensures { IfOk result (λ program. app_of program ≡ command_line) }
{
    let cycles = Command::new(alloc, "cycles");
    let step = file_subcommand(alloc, "step")?;
    let run = file_subcommand(alloc, "run")?;
    Command::new(alloc, "vme")
        .subcommand_required(true)
        .subcommand(cycles)?
        .subcommand(step)?
        .subcommand(run)
}

/// A subcommand that requires the path of a file.
fn file_subcommand(alloc: Global, name: &str) -> Result<Command<'_>, AllocError>
    ensures shape { IfOk result (λ command. (app_of command).top ≡ file_shape name.entry.now) }
    ensures local { IfOk result (λ command. (out-Command command).has_globals ≡ false) }
{
    let file = Arg::new(alloc, "FILE").required(true);
    Command::new(alloc, name).arg(file)
}

/// The form of the subcommand that was entered.
fn chosen(alloc: Global, matches: &ArgMatches<'_>) -> Result<Form, WordsFault>
    ensures form { IfOk result (λ form.
        asked_by_entered (subcommand_rows_of matches.now) ≡ Some (asked_by form)) }
    ensures usage { IfErr result (λ fault. (fault ≡ Memory)
        ⊎ (asked_by_entered (subcommand_rows_of matches.now) ≡ None)) }
{
    match matches.subcommand() {
        Some(("cycles", _)) => Ok(Form::Cycles),
        Some(("step", step)) => Ok(Form::Step(file_path(alloc, step)?)),
        Some(("run", run)) => Ok(Form::Run(file_path(alloc, run)?)),
        _ => Err(WordsFault::Usage),
    }
}

/// The path that the FILE of a subcommand has.
fn file_path(alloc: Global, command: &ArgMatches<'_>) -> Result<String, WordsFault>
    ensures path { IfOk result (λ path.
        first_of (codes "FILE") (rows_of (found_of command.now)) ≡ Some (string_bytes path)) }
    ensures usage { IfErr result (λ fault. (fault ≡ Memory)
        ⊎ (first_of (codes "FILE") (rows_of (found_of command.now)) ≡ None)) }
{
    match command.get_str("FILE") {
        Some(path) => Ok(String::from_str(alloc, path)?),
        None => Err(WordsFault::Usage),
    }
}
