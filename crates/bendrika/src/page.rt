//! `bendrika page`.
use crate::fault::Fault;
use crate::input::{STANDARD_INPUT, name_of, read_file, refuse};
use crate::status::Status;
use clap::ArgMatches;
use std::io;
use vme_engines::ProgramFault;
use vme_io::{Io, SliceSource};
use vme_page::page_engine;
use vme_trace::EventRange;

/// The events that a page shows if nothing else is said.
pub(crate) const SHOWN: EventRange = EventRange {
    first: 1,
    last: 1000,
};

/// Writes the page of the run of the file that the words name.
pub(crate) fn paged(rt: &HostRuntime, words: &ArgMatches<'_>) -> Result<Status, Fault> {
    let range = match words.get_str("EVENTS") {
        Some(text) => match EventRange::parse(text) {
            Some(range) => range,
            None => return Ok(wrong_range(rt)),
        },
        None => SHOWN,
    };
    let path = words.get_str("FILE").unwrap_or(STANDARD_INPUT);
    match read_file(rt, path)? {
        Some(file) => page_file(rt, name_of(path), range, file.as_slice()),
        None => Ok(Status::Fault),
    }
}

/// Writes the page of the bytes of a file. One that is no configuration is reported as by `check`, on
/// standard error.
pub(crate) fn page_file(
    rt: &HostRuntime,
    name: &str,
    range: EventRange,
    file: &[u8],
) -> Result<Status, Fault> {
    let mut source = SliceSource::new(file, usize::MAX, usize::MAX);
    let mut writer = Io::new(io::writer(rt));
    match page_engine(rt.alloc(), name, range, &mut source, &mut writer) {
        Ok(()) => Ok(Status::Done),
        Err(ProgramFault::Config(_)) => refuse(rt, name, file),
        Err(ProgramFault::Write) => Err(Fault::Write),
        Err(_) => Err(Fault::Memory),
    }
}

/// Reports a word that is no range of events. A failure of that write is ignored.
pub(crate) fn wrong_range(rt: &HostRuntime) -> Status {
    let _ = eprintln!(rt; "bendrika: A-B is two decimal numbers, 1 <= A <= B <= 4294967295");
    Status::WrongWords
}
