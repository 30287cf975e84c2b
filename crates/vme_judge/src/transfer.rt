//! The transfer in which a sample lies.
ghost use Rattle.std.specs.Prelude.{◌≡◌};
ghost use Rattle.vme_judge.specs.Forgetting.{bytes_of};
ghost use Rattle.vme_judge.specs.Seen.{driver_of, opened_by};

use vme_protocol::{Sample, Transfer};

/// The bytes of a group that a cycle reads or writes.
const GROUP: u32 = 4;

/// The bytes of a unit that a block does not pass, and those of eight-byte data.
const UNIT: u32 = 256;

const WIDE_UNIT: u32 = 2048;

/// A transfer whose AS* is low.
#[derive(Clone, Copy, Debug, PartialEq, Eq)]
pub(crate) struct OpenTransfer {
    pub(crate) am: u8,
    /// A31 to A01 as AS* fell.
    pub(crate) address: u32,
    /// The slot that drove BBSY*, if one did.
    pub(crate) slot: Option<u8>,
    /// The data so far.
    pub(crate) data: u64,
    /// The time at which AS* fell, if the trace shows it.
    pub(crate) since: Option<u64>,
}

/// Returns the slot that drives BBSY*, if exactly one does.
pub(crate) fn driver_of(drivers: u32) -> Option<u8>
    ensures { result ≡ driver_of drivers }
{
    if drivers == 0 || drivers & drivers.wrapping_sub(1) != 0 {
        return None;
    }
    u8::try_from(drivers.trailing_zeros() + 1).ok()
}

/// Returns how many bytes a transfer may write from its address on: of a block those up to the end of
/// its unit.
pub(crate) fn bytes_of(transfer: &Transfer) -> u32
    ensures { result ≡ bytes_of transfer.now }
{
    if transfer.wide {
        WIDE_UNIT - transfer.base % WIDE_UNIT
    } else if transfer.block {
        UNIT - transfer.base % UNIT
    } else {
        GROUP
    }
}

impl OpenTransfer {
    /// Returns the transfer that a sample opens.
    #[tactic(auto, unfolding(crate::specs::Seen::opened_by))]
    pub(crate) fn opened(sample: &Sample) -> OpenTransfer
        ensures { result ≡ opened_by sample.now }
    {
        OpenTransfer {
            am: sample.am,
            address: (sample.lines >> 32) as u32 & 0xffff_fffe,
            slot: driver_of(sample.drivers),
            data: 0,
            since: Some(sample.time),
        }
    }
}
