//! `bendrika outcomes --json`: the text of a list as JSON objects, one a line.
use crate::outcomes_limit::Frequent;
use crate::words::VERSION;
use std::alloc::{AllocError, Global};
use std::fmt::Write;
use vme_explain::write_escaped;

/// What a line of the schedule of an outcome begins with.
const SCHEDULE: &str = "schedule = ";

/// What comes before the tries of an outcome.
const TRIES: &str = "tries = ";

/// What comes before the number of an outcome whose schedule has more turns than a file may state.
const LONG: &str = "; found no schedule of at most 1000000 turns for outcome ";

/// The objects that have been written, and how far the current outcome has come.
#[derive(Drop)]
struct Objects<'a> {
    to: String,
    /// The number of outcomes so far.
    number: usize,
    /// Whether the lines of an outcome are being read.
    inside: bool,
    /// Whether the member of the replies has begun in the current outcome.
    has_replies: bool,
    /// Whether the current object has a member already.
    has_member: bool,
    /// The slot of the last row of memory, if the outcome has one.
    slot: Option<&'a str>,
}

/// Returns the text of a list as objects: one for each outcome and condition, and one at the end.
pub(crate) fn json_of(alloc: Global, name: &str, text: &str) -> Result<String, AllocError> {
    let mut objects = Objects {
        to: String::new(alloc),
        number: 0,
        inside: false,
        has_replies: false,
        has_member: false,
        slot: None,
    };
    for line in text.lines() {
        objects.line(name, line)?;
    }
    Ok(objects.to)
}

/// Returns the object of a search that passed its limit, with the line at which most states are.
pub(crate) fn json_limit(
    alloc: Global,
    name: &str,
    limit: usize,
    line: Option<Frequent>,
) -> Result<String, AllocError> {
    let mut to = String::new(alloc);
    to.push_str("{\"file\":\"")?;
    write_escaped(name, &mut to)?;
    write!(
        to,
        "\",\"complete\":false,\"fault\":\"limit\",\"states\":{limit}"
    )?;
    if let Some(line) = line {
        let (slot, number) = (line.slot, line.number);
        write!(to, ",\"line\":\"{slot}:{number}\"")?;
    }
    to.push_str("}\n")?;
    Ok(to)
}

impl<'a> Objects<'a> {
    /// Adds a line of the text.
    fn line(&mut self, name: &str, line: &'a str) -> Result<(), AllocError> {
        if !self.inside {
            return match line.strip_prefix(SCHEDULE) {
                Some(schedule) => self.begin(schedule),
                None => self.ending(name, line),
            };
        }
        if let Some(tries) = line.strip_prefix(TRIES) {
            write!(self.to, ",\"tries\":{tries}")?;
            return Ok(());
        }
        self.begin_replies()?;
        if line.is_empty() {
            return self.end();
        }
        match line.strip_prefix("mem ") {
            Some(row) => self.row(row),
            None => self.reply(line),
        }
    }

    /// Begins an outcome with its schedule.
    fn begin(&mut self, schedule: &str) -> Result<(), AllocError> {
        self.inside = true;
        self.has_replies = false;
        self.has_member = false;
        self.slot = None;
        self.number = self.number.saturating_add(1);
        let number = self.number;
        write!(self.to, "{{\"outcome\":{number},\"schedule\":")?;
        push_schedule(schedule, &mut self.to)
    }

    /// Begins the replies of an outcome, unless they have begun.
    fn begin_replies(&mut self) -> Result<(), AllocError> {
        if self.has_replies {
            return Ok(());
        }
        self.has_replies = true;
        self.to.push_str(",\"replies\":{")
    }

    /// Adds the line of a reply.
    fn reply(&mut self, line: &str) -> Result<(), AllocError> {
        if let Some((place, reply)) = line.split_once(' ') {
            self.comma()?;
            push_member(place, reply, &mut self.to)?;
        }
        Ok(())
    }

    /// Adds a row of memory, without its first word.
    fn row(&mut self, row: &'a str) -> Result<(), AllocError> {
        let Some((slot, row)) = row.split_once(' ') else {
            return Ok(());
        };
        let Some((offset, bytes)) = row.split_once(' ') else {
            return Ok(());
        };
        if self.slot != Some(slot) {
            self.to.push_str(match self.slot {
                Some(_) => "},\"",
                None => "},\"memory\":{\"",
            })?;
            self.to.push_str(slot)?;
            self.to.push_str("\":{")?;
            self.slot = Some(slot);
            self.has_member = false;
        }
        self.comma()?;
        push_member(offset, bytes, &mut self.to)
    }

    /// Ends an outcome.
    fn end(&mut self) -> Result<(), AllocError> {
        self.inside = false;
        self.to.push_str(match self.slot {
            Some(_) => "}}}\n",
            None => "},\"memory\":{}}\n",
        })
    }

    /// Adds the line of a condition, or the last line.
    fn ending(&mut self, name: &str, line: &str) -> Result<(), AllocError> {
        match line.rsplit_once(": ") {
            Some((condition, verdict)) => self.condition(condition, verdict),
            None => self.summary(name, line),
        }
    }

    /// Adds a condition with its verdict.
    fn condition(&mut self, condition: &str, verdict: &str) -> Result<(), AllocError> {
        self.to.push_str("{\"condition\":\"")?;
        write_escaped(condition, &mut self.to)?;
        match verdict.split_once(SCHEDULE) {
            None => self.to.push_str("\",\"holds\":true}\n"),
            Some((_fails, schedule)) => {
                self.to.push_str("\",\"holds\":false,\"schedule\":")?;
                match schedule.split_once(", tries = ") {
                    None => push_schedule(schedule, &mut self.to)?,
                    Some((schedule, tries)) => {
                        push_schedule(schedule, &mut self.to)?;
                        write!(self.to, ",\"tries\":{tries}")?;
                    }
                }
                self.to.push_str("}\n")
            }
        }
    }

    /// Adds the numbers of outcomes and of states, and of the outcomes whose schedule has more turns than a file may state.
    fn summary(&mut self, name: &str, line: &str) -> Result<(), AllocError> {
        let (line, long) = line.split_once(LONG).unwrap_or((line, ""));
        let (outcomes, states) = line.split_once(", ").unwrap_or((line, ""));
        let outcomes = first_word(outcomes);
        let states = first_word(states);
        self.to.push_str("{\"file\":\"")?;
        write_escaped(name, &mut self.to)?;
        write!(
            self.to,
            "\",\"outcomes\":{outcomes},\"states\":{states},\"complete\":true"
        )?;
        if !long.is_empty() {
            self.to.push_str(",\"unstated\":[")?;
            push_numbers(long, &mut self.to)?;
            self.to.push(']')?;
        }
        write!(self.to, ",\"version\":\"{VERSION}\"}}\n")
    }

    /// Adds a comma behind a member.
    fn comma(&mut self) -> Result<(), AllocError> {
        if self.has_member {
            self.to.push(',')?;
        }
        self.has_member = true;
        Ok(())
    }
}

/// Returns the first word of a text.
pub(crate) fn first_word(text: &str) -> &str {
    match text.split_once(' ') {
        Some((word, _rest)) => word,
        None => text,
    }
}

/// Adds a member whose value is a text without characters that JSON escapes.
pub(crate) fn push_member(name: &str, value: &str, to: &mut String) -> Result<(), AllocError> {
    to.push('"')?;
    to.push_str(name)?;
    to.push_str("\":\"")?;
    to.push_str(value)?;
    to.push('"')
}

/// Adds the numbers of outcomes whose schedule has more turns than a file may state.
fn push_numbers(long: &str, to: &mut String) -> Result<(), AllocError> {
    let mut is_first = true;
    for part in long.split(';') {
        if !is_first {
            to.push(',')?;
        }
        is_first = false;
        to.push_str(number_of(part))?;
    }
    Ok(())
}

/// Returns the number of an outcome in a part of the last line, which ends with it.
fn number_of(part: &str) -> &str {
    match part.split_once("outcome ") {
        Some((_words, number)) => number,
        None => part,
    }
}

/// Adds a schedule, without the spaces of TOML.
pub(crate) fn push_schedule(schedule: &str, to: &mut String) -> Result<(), AllocError> {
    for c in schedule.chars() {
        if c != ' ' {
            to.push(c)?;
        }
    }
    Ok(())
}
