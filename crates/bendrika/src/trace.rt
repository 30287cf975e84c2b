//! `bendrika trace`.
use crate::fault::Fault;
use crate::input::{STANDARD_INPUT, name_of, read_file, refuse};
use crate::page::wrong_range;
use crate::status::Status;
use clap::ArgMatches;
use std::io;
use vme_engines::ProgramFault;
use vme_io::{Io, SliceSource};
use vme_trace::{EventRange, Selection, save_engine, trace_engine};

/// What is written of a run.
#[derive(Clone, Copy)]
enum Form {
    /// The value change dump of the selected events.
    Dump(Selection),
    /// A save file of GTKWave.
    Save,
}

/// Writes the value change dump of the run of the file that the words name, or a save file.
pub(crate) fn traced(rt: &HostRuntime, words: &ArgMatches<'_>) -> Result<Status, Fault> {
    let range = match words.get_str("EVENTS") {
        Some(text) => match EventRange::parse(text) {
            Some(range) => range,
            None => return Ok(wrong_range(rt)),
        },
        None => EventRange::ALL,
    };
    let form = if words.get_flag("gtkw") {
        Form::Save
    } else {
        Form::Dump(Selection {
            range,
            polls: words.get_flag("polls"),
        })
    };
    let path = words.get_str("FILE").unwrap_or(STANDARD_INPUT);
    match read_file(rt, path)? {
        Some(file) => trace_file(rt, name_of(path), form, file.as_slice()),
        None => Ok(Status::Fault),
    }
}

/// Writes what is asked of the bytes of a file. One that is no configuration is reported as by
/// `check`, on standard error.
fn trace_file(rt: &HostRuntime, name: &str, form: Form, file: &[u8]) -> Result<Status, Fault> {
    let mut source = SliceSource::new(file, usize::MAX, usize::MAX);
    let mut writer = Io::new(io::writer(rt));
    let end = match form {
        Form::Dump(selection) => trace_engine(rt.alloc(), selection, &mut source, &mut writer),
        Form::Save => save_engine(rt.alloc(), &mut source, &mut writer),
    };
    match end {
        Ok(()) => Ok(Status::Done),
        Err(ProgramFault::Config(_)) => refuse(rt, name, file),
        Err(ProgramFault::Write) => Err(Fault::Write),
        Err(_) => Err(Fault::Memory),
    }
}
