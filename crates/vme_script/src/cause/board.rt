//! Faults of a board.
ghost use Rattle.std.specs.Prelude.{◌≡◌};
ghost use Rattle.vme_script.specs.Causes.{board_refusal};

use crate::fault::ConfigFault;
use vme_am::Space;

/// How a text names a board.
#[derive(Clone, Copy, Debug, PartialEq, Eq)]
pub enum BoardName {
    /// By its slot, which is lawful: from 1 to 21, and above the last earlier slot in that range.
    Slot(u16),
    /// By its index among the tables, from 0, if its slot is absent or refused.
    Index(usize),
}

/// A fault of a board: C8, C9, C10, C5, C3, C2 and C1.
///
/// The rules for C1 and C2 are those of IEEE 1014-1987, 2.3.5 (addressing), for C3 of 2.2.1
/// (addressing lines), and for C10 of 2.3.5, 2.3.6 (basic data transfer) and 2.3.9 (unaligned
/// transfer).
#[derive(Clone, Copy, Debug, PartialEq, Eq)]
pub enum BoardCause {
    /// C8: the slot is not from 1 to 21.
    SlotRange {
        slot: u32,
    },
    /// C8: the board with index `other` has the same slot.
    SlotTaken {
        slot: u32,
        other: usize,
    },
    /// C8: the board with index `other` has the greater slot `before`, the greatest from 1 to 21
    /// before this board.
    SlotOrder {
        slot: u32,
        before: u32,
        other: usize,
    },
    /// C9: the request level is above 3.
    LevelRange {
        level: u32,
    },
    /// C10: no space has this name.
    NoSpace,
    /// C10: no slave has this number of data lines.
    NoWidth {
        width: u32,
    },
    /// C10: a board of 8 or 16 data lines has unaligned transfers.
    UnalignedWidth {
        width: u32,
    },
    /// C5: the size is 0 or above 1,048,576.
    SizeRange {
        size: u32,
    },
    /// C5: the size is from 1 to 1,048,575 and not a multiple of four.
    SizeNotAligned {
        size: u32,
    },
    /// C3: the base is not a multiple of four.
    BaseNotAligned {
        base: u32,
    },
    /// C2: the board's last address, `last`, is past the last one of the space.
    OutsideSpace {
        space: Space,
        last: u64,
    },
    /// C1: the board and an earlier one, with index `other`, both have the addresses from `low` to
    /// `high`. The earlier one has those from `other_low` to `other_high`.
    Overlap {
        board: BoardName,
        other_board: BoardName,
        other: usize,
        space: Space,
        low: u32,
        high: u32,
        other_low: u32,
        other_high: u32,
    },
}

impl BoardCause {
    /// Returns the refusal.
    pub fn refusal(self) -> ConfigFault
        ensures { result ≡ board_refusal self }
    {
        match self {
            BoardCause::SlotRange { .. }
            | BoardCause::SlotTaken { .. }
            | BoardCause::SlotOrder { .. } => ConfigFault::BadSlot,
            BoardCause::LevelRange { .. } => ConfigFault::BadLevel,
            BoardCause::NoSpace | BoardCause::NoWidth { .. } | BoardCause::UnalignedWidth { .. } =>
                ConfigFault::BadWord,
            BoardCause::SizeRange { .. } | BoardCause::SizeNotAligned { .. } => {
                ConfigFault::BadSize
            }
            BoardCause::BaseNotAligned { .. } => ConfigFault::Misaligned,
            BoardCause::OutsideSpace { .. } => ConfigFault::OutsideSpace,
            BoardCause::Overlap { .. } => ConfigFault::Overlap,
        }
    }
}

impl From<BoardCause> for ConfigFault {
    ghost from_gives = { λ cause fault. fault ≡ board_refusal cause };

    fn from(cause: BoardCause) -> ConfigFault {
        cause.refusal()
    }
}
