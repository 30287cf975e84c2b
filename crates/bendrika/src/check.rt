//! `bendrika check` and `bendrika cycles`.
use crate::fault::{Fault, printed};
use crate::input::{Input, STANDARD_INPUT, input_of, name_of, report};
use crate::status::Status;
use clap::ArgMatches;
use std::io;
use vme_check::{Counts, Form, check_engine, request_check_engine, summary, unread};
use vme_engines::{FILE_LIMIT, INPUT_LIMIT, ProgramFault};
use vme_io::{Io, SliceSource};

/// What was found in all inputs so far.
#[derive(Drop)]
struct Found {
    counts: Counts,
    /// Whether some input was read.
    is_begun: bool,
    /// Whether some input could not be read.
    is_incomplete: bool,
}

impl Found {
    /// Nothing yet.
    const NOTHING: Found = Found {
        counts: Counts::NONE,
        is_begun: false,
        is_incomplete: false,
    };
}

/// The engine that checks an input.
#[derive(Clone, Copy)]
enum Engine {
    Files,
    Requests,
}

/// Checks the configuration files that the words name.
pub(crate) fn checked(rt: &HostRuntime, words: &ArgMatches<'_>) -> Result<Status, Fault> {
    let form = form_of(words);
    let mut found = Found::NOTHING;
    if let Some(paths) = words.get_strs("FILE") {
        for path in paths {
            check_one(rt, Engine::Files, path, &form, &mut found)?;
        }
    }
    ended(rt, &form, &found)
}

/// Checks the request lines of a file or of standard input.
pub(crate) fn requests_checked(rt: &HostRuntime, words: &ArgMatches<'_>) -> Result<Status, Fault> {
    let form = form_of(words);
    let mut found = Found::NOTHING;
    let path = words.get_str("FILE").unwrap_or(STANDARD_INPUT);
    check_one(rt, Engine::Requests, path, &form, &mut found)?;
    ended(rt, &form, &found)
}

/// What the words ask to be printed.
fn form_of(words: &ArgMatches<'_>) -> Form {
    Form {
        json: words.get_flag("json"),
        quiet: words.get_flag("quiet"),
        no_warnings: words.get_flag("no-warnings"),
        limit: words.get_one("limit").unwrap_or(0),
    }
}

/// Checks one input. One that cannot be read is reported, and the next is checked.
fn check_one(
    rt: &HostRuntime,
    engine: Engine,
    path: &str,
    form: &Form,
    found: &mut Found,
) -> Result<(), Fault> {
    let name = name_of(path);
    let input = match engine {
        Engine::Files => input_of(rt, path, FILE_LIMIT)?,
        Engine::Requests => input_of(rt, path, INPUT_LIMIT)?,
    };
    match input {
        Input::Bytes(bytes) => {
            let counts = check_bytes(rt, engine, name, form, bytes.as_slice())?;
            found.counts = found.counts.and(counts);
            found.is_begun = true;
        }
        Input::Unread(why) => {
            found.is_incomplete = true;
            report(rt, name, &why)?;
            if form.json && !form.quiet {
                let object = unread(rt.alloc(), name, why.as_str())?;
                printed(rt, object.as_str())?;
            }
        }
    }
    Ok(())
}

/// Checks the bytes of an input, and prints what was found. Returns how many errors and warnings
/// there are; a file or a line is refused exactly if there is an error.
fn check_bytes(
    rt: &HostRuntime,
    engine: Engine,
    name: &str,
    form: &Form,
    bytes: &[u8],
) -> Result<Counts, Fault> {
    let mut source = SliceSource::new(bytes, usize::MAX, usize::MAX);
    let mut writer = Io::new(io::writer(rt));
    let end = match engine {
        Engine::Files => match check_engine(rt.alloc(), name, form, &mut source, &mut writer) {
            Ok(end) => Ok(end.counts),
            Err(fault) => Err(fault),
        },
        Engine::Requests => {
            request_check_engine(rt.alloc(), name, form, &mut source, &mut writer)
        }
    };
    match end {
        Ok(counts) => Ok(counts),
        Err(ProgramFault::Write) => Err(Fault::Write),
        Err(_) => Err(Fault::Memory),
    }
}

/// Prints the last line, unless no input was read, and returns the status.
fn ended(rt: &HostRuntime, form: &Form, found: &Found) -> Result<Status, Fault> {
    if found.is_begun && !form.quiet && !form.json {
        let line = summary(rt.alloc(), found.counts, form)?;
        printed(rt, line.as_str())?;
    }
    Ok(if found.is_incomplete {
        Status::Fault
    } else if 0 < found.counts.errors {
        Status::Errors
    } else {
        Status::Done
    })
}
