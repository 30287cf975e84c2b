//! The engine of `bendrika judge --history`.
ghost use Rattle.std.specs.Prelude.{IfOk};
ghost use Rattle.vme_history.specs.Verdicts.{IsVerdictOf};

use crate::fault::{HistoryFault, LogFault};
use crate::judged::judge_log;
use crate::read::read_log;
use crate::text::{Form, write_nothing, write_problem, write_verdict};
use std::alloc::Global;
use vme_script::Config;

/// What is asked of a judgement.
#[derive(Clone, Copy)]
pub struct Asked<'a> {
    /// The name of the log in messages.
    pub name: &'a str,
    /// Whether the verdict is printed as JSON.
    pub json: bool,
    /// The greatest number of stages.
    pub limit: usize,
}

/// A verdict about a log.
#[derive(Clone, Copy, Debug, PartialEq, Eq)]
pub enum Verdict {
    /// Some order of all lines gives each its recorded reply.
    Possible,
    /// No order does.
    Impossible,
    /// The text is no log, or has no line.
    Rejected,
}

/// Judges the text of a log over the boards of a configuration, and appends the text of the verdict.
/// No clause states the text.
///
/// # Errors
///
/// `Limit`: more stages were found than the limit allows. `Memory`: an allocation failed.
pub fn judge_history(
    alloc: Global,
    asked: &Asked<'_>,
    config: &Config,
    text: &[u8],
    to: &mut String,
) -> Result<Verdict, HistoryFault>
    ensures { IfOk result (IsVerdictOf config.now text.now) }
{
    let form = Form {
        name: asked.name,
        log: text,
        json: asked.json,
    };
    let log = match read_log(alloc, config, text) {
        Ok(log) => log,
        Err(LogFault::Memory) => return Err(HistoryFault::Memory),
        Err(LogFault::Line(line, problem)) => {
            write_problem(&form, line, problem, to)?;
            return Ok(Verdict::Rejected);
        }
    };
    if log.is_empty(alloc)? {
        write_nothing(&form, to)?;
        return Ok(Verdict::Rejected);
    }
    let judged = judge_log(alloc, &log, asked.limit)?;
    write_verdict(&form, &log, &judged, to)?;
    if judged.possible {
        return Ok(Verdict::Possible);
    }
    Ok(Verdict::Impossible)
}
