//! A reader of std as a source of bytes that keeps the error of a failed read.
use std::io::{Error, Read};
use vme_io::{Failed, Source};

/// A reader of std as a source of bytes. It keeps the error of the read that failed. Its bytes are
/// those of the reader: it has a byte model if and only if the reader has one.
#[derive(Drop)]
pub struct InputReader<T> {
    inner: T,
    failure: Option<Error>,
}

impl<T> InputReader<T> {
    ghost use Rattle.std.specs.Prelude.{◌≡◌, false, is_some};
    ghost use Rattle.vme_check.specs.Devices.{has_failed, inner_of};

    /// Returns a source over a reader, with the mark clear.
    pub fn new(inner: T) -> InputReader<T>
        ensures unmarked { has_failed result ≡ false }
        ensures inner { inner_of result ≡ inner }
    {
        InputReader {
            inner,
            failure: None,
        }
    }

    /// Returns the error of a failed read, or `None` if no read has failed.
    pub fn failure(&self) -> Option<&Error>
        ensures { is_some result ≡ has_failed self.now }
    {
        self.failure.as_ref()
    }
}

impl<T: Read> Source for InputReader<T> {
    ghost use Rattle.vme_check.specs.Devices.{has_failed, inner_of};

    ghost is_marked = { has_failed };

    ghost remaining = { λ reader. T.remaining (inner_of reader) };

    /// Reads once from the inner reader.
    fn read(&mut self, buffer: &mut [u8]) -> Result<usize, Failed> {
        match self.inner.read(buffer) {
            Ok(count) => Ok(count),
            Err(error) => {
                self.failure = Some(error);
                Err(Failed)
            }
        }
    }
}
