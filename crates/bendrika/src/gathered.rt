//! A sink that keeps what is written.
ghost use Rattle.std.specs.Prelude.{◌≡◌, false};

use std::alloc::Global;
use vme_io::{Failed, Sink};

/// A sink that keeps what is written. It fails where an allocation fails.
#[derive(Drop)]
pub(crate) struct Gathered {
    text: Vec<u8>,
    marked: bool,
}

impl Gathered {
    /// Returns an empty sink, with the mark clear.
    pub(crate) fn new(alloc: Global) -> Gathered
        ensures { result.marked ≡ false }
    {
        Gathered {
            text: Vec::new(alloc),
            marked: false,
        }
    }

    /// Returns what was written.
    pub(crate) fn text(&self) -> &[u8] {
        self.text.as_slice()
    }
}

impl Sink for Gathered {
    ghost use Rattle.std.specs.Prelude.{Some};

    ghost is_marked = { λ g. g.marked };

    ghost contents = { λ g. Some g.text.items };

    fn write(&mut self, bytes: &[u8]) -> Result<usize, Failed> {
        match self.text.extend_from_slice(bytes) {
            Ok(()) => Ok(bytes.len()),
            Err(_) => {
                self.marked = true;
                Err(Failed)
            }
        }
    }
}
