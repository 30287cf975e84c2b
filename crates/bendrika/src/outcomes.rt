//! `bendrika outcomes`.
use crate::fault::{Fault, printed};
use crate::gathered::Gathered;
use crate::input::{STANDARD_INPUT, name_of, read_file, refuse};
use crate::memory::{free_bytes, most_bytes, states_within};
use crate::outcomes_json::{json_limit, json_of};
use crate::outcomes_limit::{frequent_line, report_limit, report_states};
use crate::outcomes_page::{Chosen, page_of};
use crate::progress::Progress;
use crate::status::Status;
use crate::stuck::ends_listed;
use clap::ArgMatches;
use std::alloc::{AllocError, Global};
use std::io;
use vme_check::shown_name;
use vme_engines::ProgramFault;
use vme_explore::{Unwatched, Watch};
use vme_io::{Io, SliceSource};
use vme_outcome_listing::{Asked, Condition, Form, Kept, Kind, OutcomesFault, outcomes_engine};
use vme_script::{Config, ConfigFault};

/// The conditions that the words state, each with its text.
#[derive(Drop)]
struct Stated<'a> {
    conditions: Vec<Condition<'a>>,
    texts: Vec<&'a str>,
}

/// What is printed of a list.
#[derive(Clone, Copy, Debug, PartialEq, Eq)]
enum Print {
    /// Its text.
    Text,
    /// Its text as objects.
    Objects,
    /// The page of one of its outcomes.
    Page(Chosen),
}

/// What is searched, and what is printed.
#[derive(Drop)]
struct Search<'a> {
    name: &'a str,
    asked: &'a Asked<'a>,
    print: Print,
    file: &'a [u8],
}

/// Returns the conditions that the words state: first those of `--never`.
fn conditions_of<'a>(alloc: Global, words: &'a ArgMatches<'_>) -> Result<Stated<'a>, AllocError> {
    let mut conditions = Vec::new(alloc);
    let mut texts = Vec::new(alloc);
    for (name, kind) in [("never", Kind::Never), ("always", Kind::Always)] {
        if let Some(values) = words.get_strs(name) {
            for text in values {
                conditions.push(Condition::new(alloc, kind, text)?)?;
                texts.push(*text)?;
            }
        }
    }
    Ok(Stated { conditions, texts })
}

/// Returns the lines that the words ask for, and how an outcome is printed.
fn kept_of(
    alloc: Global,
    words: &ArgMatches<'_>,
    conditions: &[Condition<'_>],
) -> Result<(Option<Kept>, Form), AllocError> {
    if let Some(text) = words.get_str("show") {
        let form = if words.get_flag("json") || words.get_str("page").is_some() {
            Form::Paragraphs
        } else {
            Form::Table
        };
        return Ok((Some(Kept::lines(alloc, text, false)?), form));
    }
    let kept = match words.get_str("lines") {
        None => None,
        Some("conditions") => Some(Kept::lines_of(alloc, conditions)?),
        Some(text) => Some(Kept::lines(alloc, text, true)?),
    };
    Ok((kept, Form::Paragraphs))
}

/// Returns what the words ask to be printed. `None` if they name no outcome for a page.
fn print_of(words: &ArgMatches<'_>) -> Option<Print> {
    let Some(word) = words.get_str("page") else {
        return Some(if words.get_flag("json") {
            Print::Objects
        } else {
            Print::Text
        });
    };
    let chosen = Chosen::named(word)?;
    let has_condition = words.get_strs("never").is_some() || words.get_strs("always").is_some();
    if chosen == Chosen::Failing && !has_condition {
        return None;
    }
    Some(Print::Page(chosen))
}

/// Returns whether the engine leaves out the outcomes: they are not asked for, or no page shows one by
/// its number.
fn is_quiet(words: &ArgMatches<'_>, print: Print) -> bool {
    match print {
        Print::Text | Print::Objects => words.get_flag("quiet"),
        Print::Page(Chosen::Failing) => true,
        Print::Page(Chosen::Number(_)) => false,
    }
}

/// Reports a word that names no outcome. A failure of that write is ignored.
fn wrong_page(rt: &HostRuntime) -> Status {
    let _ = eprintln!(rt;
        "bendrika: --page takes the number of an outcome, from 1, or failing with --never or --always"
    );
    Status::WrongWords
}

/// Lists the outcomes, or the dead ends, of the configuration file that the words name.
pub(crate) fn listed(rt: &HostRuntime, words: &ArgMatches<'_>) -> Result<Status, Fault> {
    if words.get_flag("stuck") {
        return ends_listed(rt, words);
    }
    let Some(print) = print_of(words) else {
        return Ok(wrong_page(rt));
    };
    let path = words.get_str("FILE").unwrap_or(STANDARD_INPUT);
    let stated = conditions_of(rt.alloc(), words)?;
    let (kept, form) = kept_of(rt.alloc(), words, stated.conditions.as_slice())?;
    // Not `as_ref`: the borrow checker wants one lifetime for all that is asked.
    let lines = match &kept {
        Some(lines) => Some(lines),
        None => None,
    };
    let asked = Asked {
        limit: words.get_one("limit").unwrap_or(1),
        form,
        quiet: is_quiet(words, print),
        kept: lines,
        conditions: stated.conditions.as_slice(),
    };
    match read_file(rt, path)? {
        Some(file) => list_file(
            rt,
            name_of(path),
            &asked,
            print,
            words,
            stated.texts.as_slice(),
            file.as_slice(),
        ),
        None => Ok(Status::Fault),
    }
}

/// Lists the outcomes of the bytes of a file.
fn list_file(
    rt: &HostRuntime,
    name: &str,
    asked: &Asked<'_>,
    print: Print,
    words: &ArgMatches<'_>,
    texts: &[&str],
    file: &[u8],
) -> Result<Status, Fault> {
    let bytes = match words.get_one::<usize>("memory") {
        Some(bytes) => bytes as u64,
        None => free_bytes(rt)?,
    };
    let fitting = states_of_file(rt.alloc(), file, bytes)?;
    let limit = asked.limit;
    let asked = &asked.within(limit.min(fitting));
    let search = Search {
        name,
        asked,
        print,
        file,
    };
    let end = if words.get_flag("progress") {
        let mut progress = Progress::new(rt);
        list_within(rt, &search, &mut progress)
    } else {
        let mut unwatched = Unwatched;
        list_within(rt, &search, &mut unwatched)
    };
    match end {
        Ok(status) => Ok(status),
        Err(OutcomesFault::Program(fault)) => end_of(rt, &search, fault),
        Err(OutcomesFault::Condition(i)) => {
            wrong_condition(rt, &search, texts.get(i).copied().unwrap_or(""))
        }
        Err(OutcomesFault::Line(i)) => {
            let places = words.get_str("show").or(words.get_str("lines"));
            wrong_line(
                rt,
                &search,
                places.unwrap_or("").split(',').nth(i).unwrap_or(""),
            )
        }
        Err(OutcomesFault::Limit) => end_at_limit(rt, &search, (fitting < limit).then_some(bytes)),
    }
}

/// Reports a condition that no outcome of the file can have.
fn wrong_condition(rt: &HostRuntime, search: &Search<'_>, text: &str) -> Result<Status, Fault> {
    let text = shown_name(rt.alloc(), text)?;
    let name = shown_name(rt.alloc(), search.name)?;
    let _ = eprintln!(rt; "bendrika: `{text}` is no reply or bytes of memory that {name} can have");
    Ok(Status::WrongWords)
}

/// Reports a place at which the file has no line.
fn wrong_line(rt: &HostRuntime, search: &Search<'_>, place: &str) -> Result<Status, Fault> {
    let place = shown_name(rt.alloc(), place.trim())?;
    let name = shown_name(rt.alloc(), search.name)?;
    let _ = eprintln!(rt; "bendrika: {name} has no line `{place}`");
    Ok(Status::WrongWords)
}

/// Reports a file that is no configuration, or returns another fault.
fn end_of(rt: &HostRuntime, search: &Search<'_>, fault: ProgramFault) -> Result<Status, Fault> {
    match fault {
        ProgramFault::Config(_) => refuse(rt, search.name, search.file),
        ProgramFault::Write => Err(Fault::Write),
        _ => Err(Fault::Memory),
    }
}

/// Reports that there are more states than the limit, or than fit in so many bytes.
fn end_at_limit(
    rt: &HostRuntime,
    search: &Search<'_>,
    bytes: Option<u64>,
) -> Result<Status, Fault> {
    let asked = search.asked;
    let limit = asked.limit;
    let used = most_bytes(rt)?;
    let line = match Config::read(rt.alloc(), search.file) {
        Ok(config) => frequent_line(rt.alloc(), &config, limit)?,
        Err(ConfigFault::OutOfMemory) => return Err(Fault::Memory),
        Err(_) => None,
    };
    if search.print == Print::Objects {
        printed(
            rt,
            json_limit(rt.alloc(), search.name, limit, line)?.as_str(),
        )?;
    }
    report_limit(rt, limit, bytes);
    report_states(rt, limit, used, line);
    Ok(Status::Limit)
}

/// Returns how many states of a configuration file fit in so many bytes; any number, if the file is no
/// configuration, which the search reports.
fn states_of_file(alloc: Global, file: &[u8], bytes: u64) -> Result<usize, AllocError> {
    match Config::read(alloc, file) {
        Ok(config) => Ok(states_within(&config, bytes)),
        Err(ConfigFault::OutOfMemory) => Err(AllocError),
        Err(_) => Ok(usize::MAX),
    }
}

/// Runs the engine on the bytes of a file, and prints what is asked of the list.
fn list_within<W: Watch>(
    rt: &HostRuntime,
    search: &Search<'_>,
    watch: &mut W,
) -> Result<Status, OutcomesFault> {
    let asked = search.asked;
    let mut source = SliceSource::new(search.file, usize::MAX, usize::MAX);
    if search.print == Print::Text {
        let mut writer = Io::new(io::writer(rt));
        let holds = outcomes_engine(rt.alloc(), asked, &mut source, &mut writer, watch)?;
        return Ok(status_of(holds));
    }
    let mut gathered = Gathered::new(rt.alloc());
    let holds = match outcomes_engine(rt.alloc(), asked, &mut source, &mut gathered, watch) {
        Ok(holds) => holds,
        Err(OutcomesFault::Program(ProgramFault::Write)) => {
            return Err(OutcomesFault::Program(ProgramFault::Memory));
        }
        Err(fault) => return Err(fault),
    };
    match print_list(rt, search, gathered.text()) {
        Ok(Status::Done) => Ok(status_of(holds)),
        Ok(status) => Ok(status),
        Err(Fault::Write) => Err(OutcomesFault::Program(ProgramFault::Write)),
        Err(Fault::Memory) => Err(OutcomesFault::Program(ProgramFault::Memory)),
    }
}

/// Returns the status of a list by whether each condition holds.
fn status_of(holds: bool) -> Status {
    if holds { Status::Done } else { Status::Errors }
}

/// Prints what is asked of a list with this text.
fn print_list(rt: &HostRuntime, search: &Search<'_>, text: &[u8]) -> Result<Status, Fault> {
    if let Print::Page(chosen) = search.print {
        return page_of(rt, search.name, search.file, chosen, text);
    }
    let text = std::str::from_utf8(text).unwrap_or("");
    printed(rt, json_of(rt.alloc(), search.name, text)?.as_str())?;
    Ok(Status::Done)
}
