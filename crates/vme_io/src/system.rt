ghost use Rattle.std.specs.Prelude.{◌≡◌, false};

use crate::sink::Sink;
use crate::source::{Failed, Source};
use std::io::{Read, Write};

/// A reader or a writer of std as a device. Its bytes are those of the reader or the writer: it has
/// a byte model if and only if that one has. It fails where the reader or the writer fails, an
/// interrupted call included, and where a write takes no byte.
#[derive(Drop)]
pub struct Io<T> {
    inner: T,
    marked: bool,
}

impl<T> Io<T> {
    ghost use Rattle.vme_io.specs.Devices.{mark_of, inner_of};

    /// Returns a device over a reader or a writer, with the mark clear.
    pub fn new(inner: T) -> Io<T>
        ensures unmarked { mark_of result ≡ false }
        ensures inner { inner_of result ≡ inner }
    {
        Io {
            inner,
            marked: false,
        }
    }
}

impl<T: Read> Source for Io<T> {
    ghost use Rattle.vme_io.specs.Devices.{mark_of, inner_of};

    ghost is_marked = { mark_of };

    ghost remaining = { λ io. T.remaining (inner_of io) };

    /// Reads once from the inner reader.
    fn read(&mut self, buffer: &mut [u8]) -> Result<usize, Failed> {
        match self.inner.read(buffer) {
            Ok(count) => Ok(count),
            Err(_) => {
                self.marked = true;
                Err(Failed)
            }
        }
    }
}

impl<T: Write> Sink for Io<T> {
    ghost use Rattle.vme_io.specs.Devices.{mark_of, inner_of};

    ghost is_marked = { mark_of };

    ghost contents = { λ io. T.contents (inner_of io) };

    /// Writes once to the inner writer.
    fn write(&mut self, bytes: &[u8]) -> Result<usize, Failed> {
        match self.inner.write(bytes) {
            Ok(count) if 0 < count => Ok(count),
            _ => {
                self.marked = true;
                Err(Failed)
            }
        }
    }
}
