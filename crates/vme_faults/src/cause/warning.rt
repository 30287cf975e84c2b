//! Warnings of lawful files.
use crate::cause::cycle::CycleCause;
use vme_am::Space;

/// A warning of a file's turns, mailboxes or numbers.
#[derive(Clone, Copy, Debug, PartialEq, Eq)]
pub enum FileWarning {
    /// `no-turns`: scripts have lines, and no slot with a board has a turn of `vme step`.
    NoTurns,
    /// `no-turns`: the script of the board in `slot` has lines, and its slot has no turn.
    NoTurnsOfSlot { slot: u16 },
    /// `few-turns`: the slot has `turns` turns of `vme step`, and its lines take at least `least`.
    FewTurns { slot: u16, turns: u64, least: u64 },
    /// `idle-turns`: the slot has turns in `schedule`, and its script has no line.
    IdleTurns { slot: u16 },
    /// `no-lines`: no script requests anything.
    NoLines,
    /// `idle-mailbox`: no line names the mailbox.
    IdleMailbox,
    /// `decimal`: the address is written in decimal digits that end in 00.
    Decimal { value: u32 },
}

impl FileWarning {
    /// Returns the name of the warning.
    pub(crate) fn name(self) -> &'static str {
        match self {
            FileWarning::NoTurns | FileWarning::NoTurnsOfSlot { .. } => "no-turns",
            FileWarning::FewTurns { .. } => "few-turns",
            FileWarning::IdleTurns { .. } => "idle-turns",
            FileWarning::NoLines => "no-lines",
            FileWarning::IdleMailbox => "idle-mailbox",
            FileWarning::Decimal { .. } => "decimal",
        }
    }
}

/// What a board does not have and a transfer needs.
#[derive(Clone, Copy, Debug, PartialEq, Eq)]
pub enum Lack {
    /// Unaligned transfers.
    Unaligned,
    /// Block transfers.
    Blocks,
    /// Read-modify-writes.
    Modifies,
    /// This many data lines.
    DataLines(u8),
}

/// A warning of a script's line. The place is the word of the line that causes it.
#[derive(Clone, Copy, Debug, PartialEq, Eq)]
pub enum LineWarning {
    /// K1 to K9: the line's request is always refused.
    AlwaysRefused(CycleCause),
    /// `no-answer`: no board of the space has the address. `there` is the slot and the space
    /// of a board that has it in another space, or `None`.
    NoBoardThere {
        space: Space,
        addr: u32,
        am: u8,
        there: Option<(u16, Space)>,
    },
    /// `no-answer`: the board in `slot` has the address, and responds to supervisory codes
    /// only. `instead` is the one in place of `am`.
    SupervisoryBoard {
        slot: u16,
        am: u8,
        instead: u8,
    },
    /// `past-end`: datum number `datum`, from 1, of a block ends past the board in `slot`, which
    /// has `size` bytes.
    DatumPastEnd {
        slot: u16,
        size: u32,
        datum: u32,
    },
    /// `past-end`: the bytes that the line accesses end past the board in `slot`, which has `size`
    /// bytes.
    PastEnd {
        slot: u16,
        size: u32,
    },
    /// `board-lacks`: the board in `slot` does not support the transfer, which ends after `data`
    /// data.
    BoardLacks {
        slot: u16,
        lack: Lack,
        data: u32,
    },
    /// `never-met`: the line waits for bytes, and no line may write one of them that is not 00.
    NeverMet,
    /// `lock-written`: another line, with this number in the script of the board in `slot`, writes
    /// the byte of the lock.
    LockWritten {
        slot: u16,
        line: u16,
    },
    /// `lock-kept`: no line unlocks the byte that this line locks.
    LockKept,
}

impl LineWarning {
    /// Returns the number of the refusal, or the name of the warning.
    pub(crate) fn name(self) -> &'static str {
        match self {
            LineWarning::AlwaysRefused(cause) => cause.code(),
            LineWarning::NoBoardThere { .. } | LineWarning::SupervisoryBoard { .. } => "no-answer",
            LineWarning::DatumPastEnd { .. } | LineWarning::PastEnd { .. } => "past-end",
            LineWarning::BoardLacks { .. } => "board-lacks",
            LineWarning::NeverMet => "never-met",
            LineWarning::LockWritten { .. } => "lock-written",
            LineWarning::LockKept => "lock-kept",
        }
    }
}
