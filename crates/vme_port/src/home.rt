//! The contents of a port's table: the slot with the object, and how the port was opened.
ghost use Rattle.std.specs.Prelude.{◌≡◌};

use std::snapshot::Snapshot;

/// The contents of the slot: the object and the number of entries in its history. There are at
/// least 48 unused bytes on each side and 128 between two slots, so that the word and other values
/// lie on other cache lines.
///
/// A block of memory begins at any multiple of 16. The count stands right before the object, so that
/// a call seldom needs two lines.
#[derive(Drop)]
#[repr(C)]
pub struct Home<O> {
    before: [u64; 10],
    /// The number of entries in the object's history.
    pub count: u64,
    /// The object.
    pub object: O,
    after: [u64; 6],
}

impl<O> Home<O> {
    /// Returns the slot contents for an object whose history is empty.
    pub fn unused(object: O) -> Home<O>
        ensures object { result.object ≡ object }
        ensures count { result.count ≡ 0 }
    {
        Home {
            before: [0; 10],
            count: 0,
            object,
            after: [0; 6],
        }
    }

    /// Returns the object and the number of entries in its history.
    pub fn into_parts(self) -> (O, u64)
        ensures { result ≡ (self.object, self.count) }
    {
        let Home {
            before: _,
            count,
            object,
            after: _,
        } = self;
        (object, count)
    }
}

/// How a port was opened: with which object, and for how many passes.
#[derive(Drop)]
pub struct Opening<O> {
    /// The object that the port was opened with.
    pub start: Snapshot<O>,
    /// The number of passes, 1 to 21.
    pub passes: usize,
}
