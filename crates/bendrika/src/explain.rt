//! `bendrika explain`.
use crate::fault::{Fault, printed};
use crate::status::Status;
use clap::ArgMatches;
use vme_check::shown_name;
use vme_explain::{Answer, explain, explain_all};

/// Prints the texts that the words ask for.
pub(crate) fn explained(rt: &HostRuntime, words: &ArgMatches<'_>) -> Result<Status, Fault> {
    let json = words.get_flag("json");
    if words.get_flag("all") {
        let text = explain_all(rt.alloc(), json)?;
        printed(rt, text.as_str())?;
        return Ok(Status::Done);
    }
    let line = line_of(rt, words)?;
    let answer = if line.is_empty() && words.get_strs("WORD").is_some() {
        Answer::Unknown(line)
    } else {
        explain(rt.alloc(), line.as_str(), json)?
    };
    match answer {
        Answer::Text(text) => {
            printed(rt, text.as_str())?;
            Ok(Status::Done)
        }
        Answer::Unknown(word) => {
            let word = shown_name(rt.alloc(), word.as_str())?;
            let _ = eprintln!(rt; "bendrika: no text for `{word}`; bendrika explain lists all");
            Ok(Status::WrongWords)
        }
    }
}

/// The words to explain, as one line.
fn line_of(rt: &HostRuntime, words: &ArgMatches<'_>) -> Result<String, Fault> {
    let mut line = String::new(rt.alloc());
    if let Some(words) = words.get_strs("WORD") {
        for word in words {
            if !line.is_empty() {
                line.push(' ')?;
            }
            line.push_str(word)?;
        }
    }
    Ok(line)
}
