//! Why the program ends early, and what it prints.
use std::alloc::AllocError;
use std::io;
use thiserror::Error;
use vme_io::{Failed, Io, write_all};

/// Why the program ended early. Its `Display` text is what it reports.
#[derive(Clone, Copy, Debug, PartialEq, Eq, Error)]
pub(crate) enum Fault {
    /// The output cannot be written.
    #[error("write")]
    Write,
    /// An allocation failed.
    #[error("memory")]
    Memory,
}

impl From<AllocError> for Fault {
    fn from(_error: AllocError) -> Fault {
        Fault::Memory
    }
}

impl From<Failed> for Fault {
    fn from(_failed: Failed) -> Fault {
        Fault::Write
    }
}

/// The fault of a call that prints.
pub(crate) fn fault_of(error: &io::Error) -> Fault {
    match error.kind() {
        io::ErrorKind::OutOfMemory => Fault::Memory,
        _ => Fault::Write,
    }
}

/// Prints a text on standard output.
pub(crate) fn printed(rt: &HostRuntime, text: &str) -> Result<(), Fault> {
    printed_bytes(rt, text.as_bytes())
}

/// Prints bytes on standard output.
pub(crate) fn printed_bytes(rt: &HostRuntime, bytes: &[u8]) -> Result<(), Fault> {
    let mut writer = Io::new(io::writer(rt));
    write_all(&mut writer, bytes)?;
    Ok(())
}
