//! `bendrika judge --history`.
use crate::fault::{Fault, printed};
use crate::input::{bytes_of, input_of, name_of, refuse};
use crate::memory::{free_bytes, states_with_boards};
use crate::status::Status;
use clap::ArgMatches;
use vme_check::shown_name;
use vme_history::{Asked, HistoryFault, Verdict, judge_history};
use vme_script::{Config, ConfigFault};

/// The greatest number of bytes of a log.
const LOG_LIMIT: usize = 100_000_000;

/// The flags of `bendrika judge` that a history does not take.
const OTHER_FLAGS: [&str; 5] = ["protocol", "strict", "zero", "others", "log"];

/// The options with a value that a history does not take.
const OTHER_VALUES: [&str; 3] = ["lines", "ignore-am", "timeout"];

/// Judges the log that the words name, by the boards of the bytes of their file.
pub(crate) fn history_judged(
    rt: &HostRuntime,
    words: &ArgMatches<'_>,
    file: &[u8],
) -> Result<Status, Fault> {
    if has_other_words(words) {
        let _ = eprintln!(rt; "bendrika: --history takes --states, --json and --quiet alone");
        return Ok(Status::WrongWords);
    }
    match Config::read(rt.alloc(), file) {
        Ok(config) => judge_named(rt, words, &config),
        Err(ConfigFault::OutOfMemory) => Err(Fault::Memory),
        Err(_) => {
            let path = words.get_str("FILE").unwrap_or("");
            refuse(rt, name_of(path), file)
        }
    }
}

/// Returns whether a word is one that a history does not take.
fn has_other_words(words: &ArgMatches<'_>) -> bool {
    for name in OTHER_FLAGS {
        if words.get_flag(name) {
            return true;
        }
    }
    for name in OTHER_VALUES {
        if words.get_str(name).is_some() {
            return true;
        }
    }
    words.get_strs("open").is_some()
}

/// Judges the log that the words name.
fn judge_named(rt: &HostRuntime, words: &ArgMatches<'_>, config: &Config) -> Result<Status, Fault> {
    let path = words.get_str("TRACE").unwrap_or("");
    let input = input_of(rt, path, LOG_LIMIT)?;
    let Some(log) = bytes_of(rt, name_of(path), input)? else {
        return Ok(Status::Fault);
    };
    let name = shown_name(rt.alloc(), name_of(path))?;
    let fitting = states_with_boards(config, free_bytes(rt)?);
    let limit: usize = words.get_one("states").unwrap_or(1);
    let asked = Asked {
        name: name.as_str(),
        json: words.get_flag("json"),
        limit: limit.min(fitting),
    };
    let mut text = String::new(rt.alloc());
    match judge_history(rt.alloc(), &asked, config, log.as_slice(), &mut text) {
        Ok(verdict) => {
            if !words.get_flag("quiet") {
                printed(rt, text.as_str())?;
            }
            Ok(status_of(verdict))
        }
        Err(HistoryFault::Memory) => Err(Fault::Memory),
        Err(HistoryFault::Limit) => {
            report_limit(rt, asked.limit, fitting < limit);
            Ok(Status::Fault)
        }
    }
}

/// Returns the status of a verdict.
fn status_of(verdict: Verdict) -> Status {
    match verdict {
        Verdict::Possible => Status::Done,
        Verdict::Impossible => Status::Errors,
        Verdict::Rejected => Status::WrongWords,
    }
}

/// Reports on standard error that there are more states than the limit, and whether that is what
/// fits in memory.
fn report_limit(rt: &HostRuntime, limit: usize, is_memory: bool) {
    let help = if is_memory {
        "which fill the memory: make boards smaller, or the log shorter"
    } else {
        "raise --states, or make the log shorter"
    };
    let _ = eprintln!(rt; "bendrika: more than {limit} states: {help}");
}
