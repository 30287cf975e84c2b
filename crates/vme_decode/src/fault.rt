ghost use Rattle.std.specs.Prelude.{◌≡◌};
ghost use Rattle.vme_decode.specs.declared.fault.MapFault.TheVariants.{OutOfMemory};

use std::alloc::AllocError;

/// Why there is no address map of some entries.
#[derive(Clone, Copy, Debug, PartialEq, Eq)]
pub enum MapFault {
    /// C4: more than 21 entries.
    TooMany,
    /// C3: a base that is not a multiple of four.
    Misaligned,
    /// C2: an entry that ends after the last address of its space.
    OutsideSpace,
    /// C1: two entries of one space that share an address.
    Overlap,
    /// An allocation failed.
    OutOfMemory,
}

impl From<AllocError> for MapFault {
    ghost from_gives = { λ _ fault. fault ≡ OutOfMemory };

    fn from(_error: AllocError) -> MapFault {
        MapFault::OutOfMemory
    }
}
