//! The faults of a configuration file as a document.
ghost use Rattle.std.specs.Prelude.{◌≡◌};
ghost use Rattle.vme_config_toml.specs.declared.fault.DocumentFault.TheVariants.{OutOfMemory};

use std::alloc::AllocFailed;

/// Why a text is not the document of a configuration file.
#[derive(Clone, Copy, Debug, PartialEq, Eq)]
pub enum DocumentFault {
    /// The text is not UTF-8, or not TOML.
    NotToml,
    /// A key is unknown, a required key is absent, a value has another kind, or a whole number is
    /// below 0 or above 2^32 - 1.
    BadKey,
    /// An allocation failed.
    OutOfMemory,
}

impl<T: Drop> From<AllocFailed<T>> for DocumentFault {
    ghost from_gives = { λ _ fault. fault ≡ OutOfMemory };

    fn from(_error: AllocFailed<T>) -> DocumentFault {
        DocumentFault::OutOfMemory
    }
}
