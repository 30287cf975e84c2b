ghost use Rattle.std.specs.Prelude.{◌≡◌};
ghost use Rattle.std.specs.Option.{option_map};

use vme_cycle::{Modify, Signals};
use vme_lanes::{Datum, copy_bytes};

/// A command to a board, by its local port or by the bus.
#[derive(Debug, Drop, PartialEq, Eq)]
pub enum BoardCmd {
    /// A read of `n` bytes at `offset` by the local port. `n` is 1, 2 or 4.
    LocalRead {
        offset: u32,
        n: u8,
    },
    /// A write of these bytes at `offset` by the local port. Their number is 1, 2 or 4.
    LocalWrite {
        offset: u32,
        bytes: Datum,
    },
    /// A read-modify-write of `n` bytes at `offset` with the function `f`, by the local port. `n`
    /// is 1, 2 or 4.
    LocalModify {
        offset: u32,
        n: u8,
        f: Modify,
    },
    /// A cycle of the bus whose first byte is at offset `at`, with the function of a
    /// read-modify-write.
    Cycle {
        signals: Signals,
        at: u32,
        f: Option<Modify>,
    },
}

impl BoardCmd {
    /// Returns a copy of the command. It allocates nothing.
    pub fn copy(&self) -> BoardCmd
        ensures { result ≡ self.now }
    {
        match self {
            BoardCmd::LocalRead { offset, n } => BoardCmd::LocalRead {
                offset: *offset,
                n: *n,
            },
            BoardCmd::LocalWrite { offset, bytes } => BoardCmd::LocalWrite {
                offset: *offset,
                bytes: copy_bytes(bytes),
            },
            BoardCmd::LocalModify { offset, n, f } => BoardCmd::LocalModify {
                offset: *offset,
                n: *n,
                f: f.copy(),
            },
            BoardCmd::Cycle { signals, at, f } => BoardCmd::Cycle {
                signals: *signals,
                at: *at,
                f: copy_function(f.as_ref()),
            },
        }
    }
}

fn copy_function(f: Option<&Modify>) -> Option<Modify>
    ensures { result ≡ option_map (λ f. f.now) f.entry }
{
    match f {
        Some(f) => Some(f.copy()),
        None => None,
    }
}
