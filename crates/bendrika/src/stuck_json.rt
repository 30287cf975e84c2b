//! `bendrika outcomes --stuck --json`: the text of dead ends as JSON objects, one a line.
use crate::outcomes_json::{first_word, push_member, push_schedule};
use crate::words::VERSION;
use std::alloc::{AllocError, Global};
use std::fmt::Write;
use vme_explain::write_escaped;

/// What the line of the schedule of a dead end begins with.
const SCHEDULE: &str = "schedule = ";

/// What the line of the tries of a dead end begins with.
const TRIES: &str = "tries = ";

/// What stands between the place of a line and what it waits for.
const WAITS: &str = " waits for ";

/// The objects that have been written, and how far the current dead end has come.
#[derive(Drop)]
struct Ends {
    to: String,
    /// The number of dead ends so far.
    number: usize,
    /// How many lines of the current dead end wait, if one has begun.
    waits: Option<usize>,
}

/// Returns the text of dead ends as objects: one for each, and one at the end.
pub(crate) fn json_of_ends(alloc: Global, name: &str, text: &str) -> Result<String, AllocError> {
    let mut ends = Ends {
        to: String::new(alloc),
        number: 0,
        waits: None,
    };
    for line in text.lines() {
        ends.line(name, line)?;
    }
    Ok(ends.to)
}

impl Ends {
    /// Adds a line of the text.
    fn line(&mut self, name: &str, line: &str) -> Result<(), AllocError> {
        if let Some(schedule) = line.strip_prefix(SCHEDULE) {
            return self.begin(schedule);
        }
        let Some(waits) = self.waits else {
            return self.last(name, line);
        };
        if line.is_empty() {
            self.waits = None;
            return self.end(waits);
        }
        if let Some(tries) = line.strip_prefix(TRIES) {
            write!(self.to, ",\"tries\":{tries}")?;
            return Ok(());
        }
        self.waits = Some(waits.saturating_add(1));
        self.wait(waits, line)
    }

    /// Begins a dead end with its schedule.
    fn begin(&mut self, schedule: &str) -> Result<(), AllocError> {
        self.number = self.number.saturating_add(1);
        self.waits = Some(0);
        let number = self.number;
        write!(self.to, "{{\"dead_end\":{number},\"schedule\":")?;
        push_schedule(schedule, &mut self.to)
    }

    /// Adds what a line waits for, after so many others.
    fn wait(&mut self, before: usize, line: &str) -> Result<(), AllocError> {
        self.to
            .push_str(if before == 0 { ",\"waits\":{" } else { "," })?;
        let (place, awaited) = line.split_once(WAITS).unwrap_or((line, ""));
        push_member(place, awaited, &mut self.to)
    }

    /// Ends a dead end at which so many lines wait.
    fn end(&mut self, waits: usize) -> Result<(), AllocError> {
        self.to.push_str(if waits == 0 {
            ",\"waits\":{}}\n"
        } else {
            "}}\n"
        })
    }

    /// Adds the numbers of dead ends and of states.
    fn last(&mut self, name: &str, line: &str) -> Result<(), AllocError> {
        let (ends, states) = line.split_once(", ").unwrap_or((line, ""));
        let ends = first_word(ends);
        let states = first_word(states);
        self.to.push_str("{\"file\":\"")?;
        write_escaped(name, &mut self.to)?;
        write!(
            self.to,
            "\",\"dead_ends\":{ends},\"states\":{states},\"complete\":true,\"version\":\"{VERSION}\"}}\n"
        )
    }
}
