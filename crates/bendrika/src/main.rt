//! The program `bendrika`, the companion of `vme`.
//!
//! `bendrika check` reports the faults of configuration files that it can distinguish, `bendrika
//! cycles` those of request lines, `bendrika explain` prints what a code or a reply of `vme` means,
//! `bendrika serve` answers lines one by one, `bendrika outcomes` lists every outcome of a file,
//! `bendrika trace` writes the waveforms of its run, `bendrika page` a page with its timing diagrams,
//! `bendrika split` a file with the accesses of a narrower processor, `bendrika judge` says whether a
//! recorded trace of a bus is legal, and `bendrika lines` shows the syntax of lines. The exit status
//! is 0; 1 after errors in an input, if a condition fails, if there is a dead end or if a trace is illegal; 2 for wrong words,
//! a file of another command than `check` that is no configuration, or a text that is no trace; 3
//! after a fault; 4 if there are more states than the limit.
#![tactic(auto)]

mod check;
mod explain;
mod fault;
mod forms;
mod gathered;
mod history;
mod input;
mod judge;
mod judge_words;
mod memory;
mod outcomes;
mod outcomes_json;
mod outcomes_limit;
mod outcomes_page;
mod page;
mod progress;
mod restated;
mod serve;
mod split;
mod status;
mod stuck;
mod stuck_json;
mod trace;
mod words;

use crate::check::{checked, requests_checked};
use crate::explain::explained;
use crate::fault::{Fault, fault_of, printed};
use crate::forms::LINES;
use crate::judge::judged;
use crate::outcomes::listed;
use crate::page::paged;
use crate::serve::served;
use crate::split::split;
use crate::status::Status;
use crate::trace::traced;
use crate::words::program;
use clap::error::{Error, ErrorKind};
use std::alloc::{AllocError, Global};
use std::process::ExitCode;
use std::{env, io};
use vme_check::shown_name;

fn main(rt: HostRuntime) -> ExitCode {
    let status = match run(&rt) {
        Ok(status) => status,
        Err(fault) => {
            let _ = eprintln!(rt; "bendrika: {fault}");
            Status::Fault
        }
    };
    ExitCode::from(status.code())
}

/// Runs the command that the words name.
fn run(rt: &HostRuntime) -> Result<Status, Fault> {
    let words = match env::args(rt) {
        Ok(words) => words.collect(rt.alloc()),
        Err(error) if error.kind() == io::ErrorKind::OutOfMemory => return Err(Fault::Memory),
        Err(_) => {
            let _ = eprintln!(rt; "bendrika: a word is not UTF-8");
            return Ok(Status::WrongWords);
        }
    };
    let words: Vec<String> = words.map_err(|_| Fault::Memory)?;
    match program(rt.alloc())?.try_get_matches_from(words.as_slice()) {
        Ok(matches) => match matches.subcommand() {
            Some(("check", words)) => checked(rt, words),
            Some(("cycles", words)) => requests_checked(rt, words),
            Some(("explain", words)) => explained(rt, words),
            Some(("judge", words)) => judged(rt, words),
            Some(("outcomes", words)) => listed(rt, words),
            Some(("page", words)) => paged(rt, words),
            Some(("serve", words)) => served(rt, words),
            Some(("split", words)) => split(rt, words),
            Some(("trace", words)) => traced(rt, words),
            Some(("lines", _)) => lines_shown(rt),
            _ => Ok(Status::WrongWords),
        },
        Err(error) => not_parsed(rt, words.as_slice(), &error),
    }
}

/// Prints the syntax of lines.
fn lines_shown(rt: &HostRuntime) -> Result<Status, Fault> {
    printed(rt, LINES)?;
    Ok(Status::Done)
}

/// Prints the help, the version, or what is wrong with the words. A message may quote a word, so it
/// is that of the words without control characters.
fn not_parsed(rt: &HostRuntime, words: &[String], error: &Error) -> Result<Status, Fault> {
    if error.kind() == ErrorKind::OutOfMemory {
        return Err(Fault::Memory);
    }
    let shown = shown_words(rt.alloc(), words)?;
    match program(rt.alloc())?.try_get_matches_from(shown.as_slice()) {
        Err(error) => print(rt, &error),
        Ok(_) => print(rt, error),
    }
}

/// The words without control characters.
fn shown_words(alloc: Global, words: &[String]) -> Result<Vec<String>, AllocError> {
    let mut shown = Vec::new(alloc);
    for word in words {
        shown.push(shown_name(alloc, word.as_str())?)?;
    }
    Ok(shown)
}

/// Prints the help, the version, or an error of the words.
fn print(rt: &HostRuntime, error: &Error) -> Result<Status, Fault> {
    if error.kind() == ErrorKind::OutOfMemory {
        return Err(Fault::Memory);
    }
    error.print(rt).map_err(|error| fault_of(&error))?;
    Ok(if error.use_stderr() {
        Status::WrongWords
    } else {
        Status::Done
    })
}
