//! `bendrika serve`.
use crate::fault::{Fault, fault_of};
use crate::input::{STANDARD_INPUT_NAME, read_named, refuse, report};
use crate::status::Status;
use clap::ArgMatches;
use std::io::{self, BufReader};
use vme_check::InputReader;
use vme_io::Io;
use vme_script::{Config, ConfigFault};
use vme_serve::{SessionFault, serve};

/// Answers the lines of standard input by the boards of the file that the words name. One that is no
/// configuration is reported as by `check`, on standard error.
pub(crate) fn served(rt: &HostRuntime, words: &ArgMatches<'_>) -> Result<Status, Fault> {
    let path = words.get_str("FILE").unwrap_or("");
    let Some(file) = read_named(rt, path)? else {
        return Ok(Status::Fault);
    };
    match Config::read(rt.alloc(), file.as_slice()) {
        Ok(config) => session(rt, &config),
        Err(ConfigFault::OutOfMemory) => Err(Fault::Memory),
        Err(_) => refuse(rt, path, file.as_slice()),
    }
}

/// Answers the lines of standard input.
fn session(rt: &HostRuntime, config: &Config) -> Result<Status, Fault> {
    let input = BufReader::new(rt.alloc(), rt.reader()).map_err(|error| fault_of(&error))?;
    let mut reader = InputReader::new(input);
    let mut writer = Io::new(io::writer(rt));
    match serve(rt.alloc(), config, &mut reader, &mut writer) {
        Ok(()) => Ok(Status::Done),
        Err(SessionFault::Memory) => Err(Fault::Memory),
        Err(SessionFault::Write) => Err(Fault::Write),
        Err(fault) => {
            match reader.failure() {
                Some(error) => report(rt, STANDARD_INPUT_NAME, error)?,
                None => report(rt, STANDARD_INPUT_NAME, &fault)?,
            }
            Ok(Status::Fault)
        }
    }
}
