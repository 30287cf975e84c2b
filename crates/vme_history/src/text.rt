//! The text of a verdict, plain and as JSON.
use crate::fault::LogProblem;
use crate::judged::Judged;
use crate::log::{Log, Recorded};
use std::alloc::AllocError;
use std::fmt::Write;
use vme_explain::write_escaped;
use vme_lexer::Lines;

/// How a verdict is printed.
#[derive(Clone, Copy)]
pub(crate) struct Form<'a> {
    /// The name of the log.
    pub(crate) name: &'a str,
    /// The text of the log, of which lines are shown.
    pub(crate) log: &'a [u8],
    /// Whether the verdict is printed as JSON.
    pub(crate) json: bool,
}

/// The number of lines in a log, and that of the processors that have one.
#[derive(Clone, Copy)]
struct Counts {
    events: usize,
    processors: usize,
}

/// Returns the number of lines in a log, and that of the processors that have one.
fn counts_of(log: &Log<'_>) -> Counts {
    let mut counts = Counts {
        events: 0,
        processors: 0,
    };
    for processor in 0..log.processors() {
        let lines = log.lines(processor).len();
        counts.events = counts.events.saturating_add(lines);
        if 0 < lines {
            counts.processors = counts.processors.saturating_add(1);
        }
    }
    counts
}

/// Appends a count and the word for what is counted, in the plural unless the count is 1.
fn write_count(count: usize, thing: &str, to: &mut String) -> Result<(), AllocError> {
    write!(to, "{count} {thing}")?;
    if count == 1 {
        return Ok(());
    }
    to.push('s')
}

/// Appends a verdict.
///
/// # Errors
///
/// An allocation failed.
pub(crate) fn write_verdict(
    form: &Form<'_>,
    log: &Log<'_>,
    judged: &Judged,
    to: &mut String,
) -> Result<(), AllocError> {
    if form.json {
        return write_object(form, log, judged, to);
    }
    let counts = counts_of(log);
    if judged.possible {
        to.push_str("possible: ")?;
        write_count(counts.events, "event", to)?;
        to.push_str(" of ")?;
        write_count(counts.processors, "processor", to)?;
        to.push_str(", ")?;
        write_count(judged.stages, "state", to)?;
        return to.push('\n');
    }
    to.push_str("none: no order of the ")?;
    write_count(counts.events, "event", to)?;
    to.push_str(" gives these replies; ")?;
    write_count(judged.stages, "state", to)?;
    to.push_str("\n    the longest prefix has ")?;
    write_count(judged.order.len(), "event", to)?;
    to.push_str("; then\n")?;
    write_next(form, log, judged, to)
}

/// Appends the next line of each processor that has one.
fn write_next(
    form: &Form<'_>,
    log: &Log<'_>,
    judged: &Judged,
    to: &mut String,
) -> Result<(), AllocError> {
    for processor in 0..log.processors() {
        if let Some(one) = next_of(log, judged, processor) {
            to.push_str("    ")?;
            write_line(form, one, to)?;
            to.push('\n')?;
        }
    }
    Ok(())
}

/// Returns the line of a processor that follows the order, if one is left.
fn next_of<'b>(log: &'b Log<'_>, judged: &Judged, processor: usize) -> Option<&'b Recorded> {
    let made = judged.made.get(processor).copied().unwrap_or(0);
    log.lines(processor).get(made)
}

/// Returns the line of a text with a number, from 1.
fn line_of(text: &[u8], number: usize) -> &[u8] {
    let mut at: usize = 0;
    for line in Lines::new(text) {
        at = at.saturating_add(1);
        if at == number {
            return line;
        }
    }
    &[]
}

/// Appends a line of the log; a byte that is not printable in ASCII is a `?`.
fn write_line(form: &Form<'_>, one: &Recorded, to: &mut String) -> Result<(), AllocError> {
    for byte in line_of(form.log, one.number()) {
        if 32 <= *byte && *byte < 127 {
            to.push(char::from(*byte))?;
        } else {
            to.push('?')?;
        }
    }
    Ok(())
}

/// Appends a verdict as an object: with the slots of the processors in the order that was found.
fn write_object(
    form: &Form<'_>,
    log: &Log<'_>,
    judged: &Judged,
    to: &mut String,
) -> Result<(), AllocError> {
    let Counts { events, processors } = counts_of(log);
    let (possible, stages) = (judged.possible, judged.stages);
    write_name(form, to)?;
    write!(
        to,
        "\",\"possible\":{possible},\"events\":{events},\"processors\":{processors},\"states\":{stages},\"order\":["
    )?;
    let mut is_first = true;
    for processor in &judged.order {
        write_comma(&mut is_first, to)?;
        let slot = slot_of(log, *processor);
        write!(to, "{slot}")?;
    }
    to.push_str("],\"next\":[")?;
    is_first = true;
    for processor in 0..log.processors() {
        if let Some(one) = next_of(log, judged, processor) {
            write_comma(&mut is_first, to)?;
            let number = one.number();
            write!(to, "{number}")?;
        }
    }
    to.push_str("]}\n")
}

/// Returns the slot of a processor.
fn slot_of(log: &Log<'_>, processor: usize) -> u16 {
    let config = log.config();
    if processor < config.boards() {
        config.slot(processor)
    } else {
        0
    }
}

/// Appends the name of the log as the first value of an object, without its end.
fn write_name(form: &Form<'_>, to: &mut String) -> Result<(), AllocError> {
    to.push_str("{\"file\":\"")?;
    write_escaped(form.name, to)
}

/// Appends a comma, unless what follows is the first.
fn write_comma(is_first: &mut bool, to: &mut String) -> Result<(), AllocError> {
    if *is_first {
        *is_first = false;
        return Ok(());
    }
    to.push(',')
}

/// Appends why a text is not judged, and the number of the line.
///
/// # Errors
///
/// An allocation failed.
pub(crate) fn write_problem(
    form: &Form<'_>,
    line: usize,
    problem: LogProblem,
    to: &mut String,
) -> Result<(), AllocError> {
    if form.json {
        write_name(form, to)?;
        return write!(
            to,
            "\",\"line\":{line},\"severity\":\"error\",\"message\":\"{problem}\"}}\n"
        );
    }
    to.push_str(form.name)?;
    write!(to, ":{line}: error: {problem}\n")
}

/// Appends that a log has no line.
///
/// # Errors
///
/// An allocation failed.
pub(crate) fn write_nothing(form: &Form<'_>, to: &mut String) -> Result<(), AllocError> {
    if form.json {
        write_name(form, to)?;
        return to.push_str(
            "\",\"severity\":\"error\",\"message\":\"no line: nothing is judged\"}\n",
        );
    }
    to.push_str(form.name)?;
    to.push_str(": error: no line: nothing is judged\n")
}
