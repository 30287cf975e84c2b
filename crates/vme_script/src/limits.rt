//! The limits of a configuration and of a script, each stated once.
use vme_arbiter::SLOTS;

/// The greatest number of boards: one in each slot of a backplane.
pub const MOST_BOARDS: usize = SLOTS as usize;

/// The greatest slot.
pub const LAST_SLOT: u32 = SLOTS as u32;

/// The greatest request level.
pub const LAST_LEVEL: u32 = 3;

/// The greatest number of tries, of rounds, and of the turns of a schedule.
pub const MOST_TURNS: u32 = 1_000_000;

/// The greatest number of mailboxes.
pub const MOST_MAILBOXES: usize = 16;

/// The greatest number of slots of a mailbox.
pub const MOST_MAILBOX_SLOTS: u32 = 64;

/// The greatest number of lines of a script.
pub const MOST_LINES: u16 = 1000;
