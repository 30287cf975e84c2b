//! `bendrika outcomes --page`: the page of one outcome of a list.
use crate::fault::Fault;
use crate::page::{SHOWN, page_file};
use crate::restated::{Turns, with_turns};
use crate::status::Status;
use vme_check::shown_name;

/// The word for the first outcome that fails a condition.
const FAILING: &str = "failing";

/// What a line of the schedule of an outcome begins with.
const SCHEDULE: &str = "schedule = ";

/// What comes before the tries of an outcome.
const TRIES: &str = "tries = ";

/// What comes before the schedule in the line of a condition that fails.
const FAILS: &str = ": fails, schedule = ";

/// An outcome of a list.
#[derive(Clone, Copy, Debug, PartialEq, Eq)]
pub(crate) enum Chosen {
    /// The one that the line of the first condition that fails names.
    Failing,
    /// The one with this number, from 1.
    Number(usize),
}

impl Chosen {
    /// Returns the outcome that a word names.
    pub(crate) fn named(word: &str) -> Option<Chosen> {
        if word == FAILING {
            return Some(Chosen::Failing);
        }
        match word.parse::<usize>() {
            Ok(0) | Err(_) => None,
            Ok(number) => Some(Chosen::Number(number)),
        }
    }
}

/// Writes the page of the run that gives an outcome of a list, of which this is the text. Returns `Done`
/// if it is written, or if each condition holds and so none is.
pub(crate) fn page_of(
    rt: &HostRuntime,
    name: &str,
    file: &[u8],
    chosen: Chosen,
    text: &[u8],
) -> Result<Status, Fault> {
    let text = std::str::from_utf8(text).unwrap_or("");
    let found = match chosen {
        Chosen::Failing => failing_in(rt, text)?,
        Chosen::Number(number) => numbered_in(text, number),
    };
    let Some(turns) = found else {
        return missing(rt, name, chosen);
    };
    let file = with_turns(rt.alloc(), file, turns)?;
    page_file(rt, name, SHOWN, file.as_slice())
}

/// Reports that a list has no such outcome.
fn missing(rt: &HostRuntime, name: &str, chosen: Chosen) -> Result<Status, Fault> {
    match chosen {
        Chosen::Failing => {
            let _ = eprintln!(rt; "bendrika: each condition holds, so there is no page");
            Ok(Status::Done)
        }
        Chosen::Number(number) => {
            let name = shown_name(rt.alloc(), name)?;
            let _ = eprintln!(rt; "bendrika: {name} has no outcome {number}");
            Ok(Status::WrongWords)
        }
    }
}

/// Returns the turns in the line of the first condition that fails, and reports that line.
fn failing_in<'a>(rt: &HostRuntime, text: &'a str) -> Result<Option<Turns<'a>>, Fault> {
    for line in text.lines() {
        if let Some((_condition, stated)) = line.split_once(FAILS) {
            let line = shown_name(rt.alloc(), line)?;
            let _ = eprintln!(rt; "bendrika: {line}");
            return Ok(Some(turns_of(stated)));
        }
    }
    Ok(None)
}

/// Returns the turns that the line of a condition states.
fn turns_of(stated: &str) -> Turns<'_> {
    match stated.split_once(", tries = ") {
        Some((schedule, tries)) => Turns {
            schedule,
            tries: Some(tries),
        },
        None => Turns {
            schedule: stated,
            tries: None,
        },
    }
}

/// Returns the turns of the outcome with a number.
fn numbered_in(text: &str, number: usize) -> Option<Turns<'_>> {
    let mut seen: usize = 0;
    let mut found = None;
    for line in text.lines() {
        if let Some(schedule) = found {
            return Some(Turns {
                schedule,
                tries: line.strip_prefix(TRIES),
            });
        }
        if let Some(schedule) = line.strip_prefix(SCHEDULE) {
            seen = seen.saturating_add(1);
            if seen == number {
                found = Some(schedule);
            }
        }
    }
    None
}
