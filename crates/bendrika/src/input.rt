//! The input that the words name, and why it is refused.
ghost use Rattle.std.specs.Prelude.{◌<◌, ◌^◌};

use crate::fault::Fault;
use crate::status::Status;
use std::fs::File;
use std::io;
use vme_check::{Form, InputReader, check_engine, shown_name, summary};
use vme_engines::{FILE_LIMIT, ProgramFault, read_input};
use vme_io::{Io, SliceSource};

/// The name of standard input among the words.
pub(crate) const STANDARD_INPUT: &str = "-";

/// The name under which standard input is reported.
pub(crate) const STANDARD_INPUT_NAME: &str = "<stdin>";

/// The name under which an input is reported.
pub(crate) fn name_of(path: &str) -> &str {
    if path == STANDARD_INPUT {
        STANDARD_INPUT_NAME
    } else {
        path
    }
}

/// An input: its bytes, or why it cannot be read.
#[derive(Drop)]
pub(crate) enum Input {
    Bytes(Vec<u8>),
    Unread(String),
}

/// Reads a configuration file, or standard input, to its end. `None` if it cannot be read, which is
/// reported.
pub(crate) fn read_file(rt: &HostRuntime, path: &str) -> Result<Option<Vec<u8>>, Fault> {
    let input = input_of(rt, path, FILE_LIMIT)?;
    bytes_of(rt, name_of(path), input)
}

/// Reads a configuration file to its end. `None` if it cannot be read, which is reported.
pub(crate) fn read_named(rt: &HostRuntime, path: &str) -> Result<Option<Vec<u8>>, Fault> {
    let input = file_at(rt, path, FILE_LIMIT)?;
    bytes_of(rt, path, input)
}

/// The bytes of an input. `None` if it cannot be read, which is reported.
pub(crate) fn bytes_of(
    rt: &HostRuntime,
    name: &str,
    input: Input,
) -> Result<Option<Vec<u8>>, Fault> {
    match input {
        Input::Bytes(bytes) => Ok(Some(bytes)),
        Input::Unread(why) => {
            report(rt, name, &why)?;
            Ok(None)
        }
    }
}

/// Reads a file, or standard input, to its end or to one byte past the limit.
pub(crate) fn input_of(rt: &HostRuntime, path: &str, limit: usize) -> Result<Input, Fault>
    requires { limit < 2 ^ 32 }
{
    if path == STANDARD_INPUT {
        return read_all(rt, rt.reader(), limit);
    }
    file_at(rt, path, limit)
}

/// Reads a file to its end or to one byte past the limit.
pub(crate) fn file_at(rt: &HostRuntime, path: &str, limit: usize) -> Result<Input, Fault>
    requires { limit < 2 ^ 32 }
{
    match File::open(rt, path) {
        Ok(file) => read_all(rt, file, limit),
        Err(error) if error.kind() == io::ErrorKind::OutOfMemory => Err(Fault::Memory),
        Err(error) => Ok(Input::Unread(format!(in rt.alloc(); "{error}")?)),
    }
}

/// Reads an opened input to its end or to one byte past the limit.
fn read_all<T: io::Read + Drop>(rt: &HostRuntime, input: T, limit: usize) -> Result<Input, Fault>
    requires { limit < 2 ^ 32 }
{
    let mut reader = InputReader::new(input);
    match read_input(rt.alloc(), &mut reader, limit) {
        Ok(bytes) => Ok(Input::Bytes(bytes)),
        Err(ProgramFault::Memory) => Err(Fault::Memory),
        Err(fault) => {
            let why = match reader.failure() {
                Some(error) => format!(in rt.alloc(); "{error}")?,
                None => format!(in rt.alloc(); "{fault}")?,
            };
            Ok(Input::Unread(why))
        }
    }
}

/// Reports the findings of a file that is no configuration, on standard error.
pub(crate) fn refuse(rt: &HostRuntime, name: &str, file: &[u8]) -> Result<Status, Fault> {
    let form = Form {
        json: false,
        quiet: false,
        no_warnings: false,
        limit: 0,
    };
    let mut source = SliceSource::new(file, usize::MAX, usize::MAX);
    let mut writer = Io::new(rt.stderr());
    match check_engine(rt.alloc(), name, &form, &mut source, &mut writer) {
        Ok(end) => {
            let line = summary(rt.alloc(), end.counts, &form)?;
            let _ = eprint!(rt; "{line}");
            Ok(Status::WrongWords)
        }
        Err(ProgramFault::Memory) => Err(Fault::Memory),
        Err(_) => Ok(Status::WrongWords),
    }
}

/// Reports why an input cannot be read, as one line on standard error. A failure of that write is
/// ignored.
pub(crate) fn report(
    rt: &HostRuntime,
    name: &str,
    why: &impl std::fmt::Display,
) -> Result<(), Fault> {
    let name = shown_name(rt.alloc(), name)?;
    let _ = eprintln!(rt; "bendrika: {name}: {why}");
    Ok(())
}
