//! Faults of a mailbox.
ghost use Rattle.std.specs.Prelude.{◌≡◌};
ghost use Rattle.vme_script.specs.Causes.{mailbox_refusal};

use crate::cause::board::BoardName;
use crate::fault::ConfigFault;
use vme_am::Space;

/// A fault of a mailbox: C13.
#[derive(Clone, Copy, Debug, PartialEq, Eq)]
pub enum MailboxCause {
    /// There are this many mailboxes, more than 16. The place is the 17th.
    TooManyMailboxes {
        mailboxes: usize,
    },
    /// The code is none of 09, 0d, 29, 2d, 39 and 3d, those of data and short access.
    CodeRange {
        am: u32,
    },
    /// The address is not a multiple of four.
    AddressNotAligned {
        addr: u32,
    },
    /// The slots are not from 1 to 64.
    SlotsRange {
        slots: u32,
    },
    /// No board of the code's space has the address. `there` is another space in which a board has
    /// it, or `None`.
    NoBoardThere {
        am: u8,
        addr: u32,
        space: Space,
        there: Option<Space>,
    },
    /// The board has the address, and responds to supervisory codes only. `instead` is the one in
    /// place of `am`.
    SupervisoryBoard {
        board: BoardName,
        am: u8,
        instead: u8,
    },
    /// The mailbox needs `needed` bytes, and the board has `left` from its address on.
    TooLong {
        slots: u32,
        needed: u32,
        board: BoardName,
        left: u32,
    },
    /// The board has `width` data lines, fewer than 32.
    NarrowBoard {
        board: BoardName,
        width: u32,
    },
    /// The board has no read-modify-writes.
    NoModify {
        board: BoardName,
    },
    /// The mailbox shares a byte with an earlier one, with index `other`, which has the bytes at
    /// the offsets from `low` to `high` of its board.
    Shared {
        other: usize,
        low: u32,
        high: u32,
    },
}

impl MailboxCause {
    /// Returns the refusal.
    pub fn refusal(self) -> ConfigFault
        ensures { result ≡ mailbox_refusal self }
    {
        ConfigFault::BadMailbox
    }
}

impl From<MailboxCause> for ConfigFault {
    ghost from_gives = { λ cause fault. fault ≡ mailbox_refusal cause };

    fn from(cause: MailboxCause) -> ConfigFault {
        cause.refusal()
    }
}
