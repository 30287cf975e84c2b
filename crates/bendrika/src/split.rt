//! `bendrika split`.
use crate::fault::{Fault, printed_bytes};
use crate::input::{STANDARD_INPUT, name_of, read_file, refuse, report};
use crate::status::Status;
use clap::ArgMatches;
use vme_check::shown_name;
use vme_script::ConfigFault;
use vme_split::{LeftLine, SplitFault, SplitForm, Width8To32, split_file};

/// Prints the split file of the file that the words name.
pub(crate) fn split(rt: &HostRuntime, words: &ArgMatches<'_>) -> Result<Status, Fault> {
    let Some(form) = form_of(words) else {
        return Ok(wrong_words(rt));
    };
    let path = words.get_str("FILE").unwrap_or(STANDARD_INPUT);
    match read_file(rt, path)? {
        Some(file) => split_bytes(rt, name_of(path), &form, file.as_slice()),
        None => Ok(Status::Fault),
    }
}

/// What the words ask to be split. `None` if a word is wrong, or if nothing is asked.
fn form_of(words: &ArgMatches<'_>) -> Option<SplitForm> {
    let local = match words.get_str("local-width") {
        Some(text) => Some(width_of(text)?),
        None => None,
    };
    let slot = match words.get_str("slot") {
        Some(text) => Some(text.parse::<u16>().ok()?),
        None => None,
    };
    let wide = words.get_flag("wide");
    if local.is_none() && !wide {
        return None;
    }
    Some(SplitForm { local, wide, slot })
}

/// The width of a number of bits.
fn width_of(text: &str) -> Option<Width8To32> {
    match text {
        "8" => Some(Width8To32::D08),
        "16" => Some(Width8To32::D16),
        "32" => Some(Width8To32::D32),
        _ => None,
    }
}

/// Reports words that ask for nothing, or for no width or slot. A failure of that write is ignored.
fn wrong_words(rt: &HostRuntime) -> Status {
    let _ = eprintln!(rt;
        "bendrika: split takes --local-width 8, 16 or 32, or --wide, or both; --slot is a number"
    );
    Status::WrongWords
}

/// Prints the split file of the bytes of a file, and reports the lines that stay. A file that is no
/// configuration is reported as by `check`, on standard error.
fn split_bytes(
    rt: &HostRuntime,
    name: &str,
    form: &SplitForm,
    file: &[u8],
) -> Result<Status, Fault> {
    match split_file(rt.alloc(), form, file) {
        Ok(split) => {
            for line in &split.left {
                left(rt, name, line)?;
            }
            printed_bytes(rt, split.text.as_slice())?;
            Ok(Status::Done)
        }
        Err(SplitFault::Memory) => Err(Fault::Memory),
        Err(SplitFault::Config(ConfigFault::OutOfMemory)) => Err(Fault::Memory),
        Err(SplitFault::Config(_)) => refuse(rt, name, file),
        Err(fault) => {
            report(rt, name, &fault)?;
            Ok(Status::WrongWords)
        }
    }
}

/// Reports a line that stays, on standard error. A failure of that write is ignored.
fn left(rt: &HostRuntime, name: &str, line: &LeftLine) -> Result<(), Fault> {
    let name = shown_name(rt.alloc(), name)?;
    let position = line.position;
    let (row, column) = (position.line, position.column);
    let (slot, number) = (line.slot, line.number);
    let why = line.reason.text();
    let _ = eprintln!(rt;
        "{name}:{row}:{column}: not split: {why} (slot {slot}, script line {number})"
    );
    Ok(())
}
