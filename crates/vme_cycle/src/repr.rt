//! Bytes that lie in the value itself or on the heap.
ghost use Rattle.std.specs.Prelude.{◌≡◌, ◌+◌, ◌≤◌, [], ◌++◌, length};
ghost use Rattle.vme_cycle.specs.BlockReprs.{repr_bytes, repr_capacity, HasCapacity};

use arrayvec::ArrayVec;

/// The number of bytes that lie in the value itself: as many as a line of 80 bytes can spell.
pub const INLINE_LEN: usize = 40;

/// Bytes and the capacity for them.
#[derive(Debug, Drop)]
pub(crate) enum Repr {
    /// Bytes in the value itself.
    Short(ArrayVec<u8, 40>),
    /// Bytes on the heap, with a capacity of `capacity` bytes.
    Long { bytes: Vec<u8>, capacity: usize },
}

impl Repr {
    pub(crate) fn as_slice(&self) -> &[u8]
        ensures { result.now ≡ repr_bytes self.now }
    {
        match self {
            Repr::Short(bytes) => bytes.as_slice(),
            Repr::Long { bytes, .. } => bytes.as_slice(),
        }
    }

    /// Appends bytes within the capacity.
    #[inline(always)]
    pub(crate) fn extend_from_slice(&mut self, more: &[u8])
        requires capacity_fits { HasCapacity self.old }
        requires capacity { length (repr_bytes self.old) + length more.now ≤ repr_capacity self.old }
        ensures bytes { repr_bytes self.new ≡ repr_bytes self.old ++ more.now }
        ensures capacity { repr_capacity self.new ≡ repr_capacity self.old }
        ensures capacity_fits { HasCapacity self.new }
    {
        match self {
            Repr::Short(bytes) => bytes.try_extend_from_slice(more).unwrap(),
            Repr::Long { bytes, .. } => bytes.extend_from_slice(more).unwrap(),
        }
    }

    pub(crate) fn clear(&mut self)
        requires { HasCapacity self.old }
        ensures bytes { repr_bytes self.new ≡ [] }
        ensures capacity { repr_capacity self.new ≡ repr_capacity self.old }
        ensures capacity_fits { HasCapacity self.new }
    {
        match self {
            Repr::Short(bytes) => bytes.clear(),
            Repr::Long { bytes, .. } => bytes.clear(),
        }
    }
}
