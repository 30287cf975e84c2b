//! Warnings of bytes that several lines use: locks that stay taken or are overwritten, and waits
//! for bytes that no line writes.
use crate::cause::LineWarning;
use crate::warnings::list::Warnings;
use crate::words::WordSpan;
use std::alloc::AllocError;
use vme_cycle::{Modify, Request};
use vme_grammar::Line;
use vme_memory::BoardCmd;
use vme_positions::Place;
use vme_script::BoardRange;

/// How a line changes bytes.
#[derive(Clone, Copy, PartialEq, Eq)]
pub(crate) enum Change {
    /// It takes a lock.
    Lock,
    /// It frees a lock.
    Unlock,
    /// It sets bit 7 of a byte, as taking a lock does.
    Set,
    /// It writes bytes.
    Write,
}

/// Bytes that a line changes.
#[derive(Clone, Copy)]
pub(crate) struct Access {
    /// The bytes.
    pub range: BoardRange,
    /// How the line changes them.
    pub change: Change,
    /// The slot of the script's board.
    pub slot: u16,
    /// The number of the line, from 1.
    pub line: u16,
    /// Whether the line has no warning. A line with one may change fewer bytes, or none.
    pub is_certain: bool,
}

/// The byte of a lock, or the bytes for which a line waits.
#[derive(Clone, Copy)]
pub(crate) struct Watch {
    /// The bytes.
    pub range: BoardRange,
    /// Bit i is set if byte i is awaited and not 00. A lock has no bits.
    pub awaited: u32,
    /// The index of the script's board.
    pub board: usize,
    /// The slot of that board.
    pub slot: u16,
    /// The number of the line, from 1.
    pub line: u16,
    /// The word of the line at which a warning stands.
    pub span: WordSpan,
}

/// What the lines of all scripts do to shared bytes.
#[derive(Drop)]
pub(crate) struct Uses {
    /// The bytes that lines change.
    pub accesses: Vec<Access>,
    /// The bytes of locks and waits.
    pub watches: Vec<Watch>,
}

/// How a line changes bytes outside mailboxes, if it does.
pub(crate) fn change_of(line: &Line) -> Option<Change> {
    match line {
        Line::Bus(request) => match request {
            Request::Read { .. } | Request::BlockRead { .. } => None,
            Request::Modify { f: Modify::Set, .. } => Some(Change::Set),
            _ => Some(Change::Write),
        },
        Line::Local(command) => match command {
            BoardCmd::LocalRead { .. } | BoardCmd::Cycle { .. } => None,
            BoardCmd::LocalModify { f: Modify::Set, .. } => Some(Change::Set),
            _ => Some(Change::Write),
        },
        Line::Lock { .. } => Some(Change::Lock),
        Line::Unlock { .. } => Some(Change::Unlock),
        Line::Await { .. } | Line::Put { .. } | Line::Take { .. } => None,
    }
}

/// The awaited bytes of a line that are not 00, as bits; no bits for a lock. Returns `None` for
/// other lines, and for a line that awaits only 00.
pub(crate) fn awaited_of(line: &Line) -> Option<u32> {
    match line {
        Line::Lock { .. } => Some(0),
        Line::Await { bytes, .. } => {
            let mut bits: u32 = 0;
            for (index, byte) in bytes.as_slice().iter().enumerate() {
                if *byte != 0 && index < 8 {
                    bits |= 1 << index;
                }
            }
            if bits == 0 { None } else { Some(bits) }
        }
        _ => None,
    }
}

/// Finds the warnings of locks and waits.
pub(crate) fn find_shared(uses: &Uses, warnings: &mut Warnings) -> Result<(), AllocError> {
    for watch in &uses.watches {
        if watch.awaited == 0 {
            find_lock(watch, &uses.accesses, warnings)?;
        } else if is_unwritten(watch, &uses.accesses) {
            warn(watch, LineWarning::NeverMet, warnings)?;
        }
    }
    Ok(())
}

/// Appends a warning of the line of a lock or a wait.
fn warn(watch: &Watch, warning: LineWarning, warnings: &mut Warnings) -> Result<(), AllocError> {
    let place = Place::Word {
        board: watch.board,
        line: usize::from(watch.line),
        from: watch.span.from,
        to: watch.span.to,
    };
    warnings.line(watch.slot, watch.line, warning, place)
}

/// Whether a range has a byte of a board.
fn has_byte(range: BoardRange, board: usize, offset: u32) -> bool {
    range.board == board && range.offset <= offset && offset - range.offset < range.len
}

/// Whether no line writes some awaited byte that is not 00.
fn is_unwritten(watch: &Watch, accesses: &[Access]) -> bool {
    for index in 0..8 {
        if watch.awaited & (1 << index) != 0 {
            let offset = watch.range.offset.saturating_add(index);
            if !is_written(watch.range.board, offset, accesses) {
                return true;
            }
        }
    }
    false
}

/// Whether a line may write a byte.
fn is_written(board: usize, offset: u32, accesses: &[Access]) -> bool {
    for access in accesses {
        if has_byte(access.range, board, offset) {
            return true;
        }
    }
    false
}

/// Finds the warnings of a lock.
fn find_lock(
    watch: &Watch,
    accesses: &[Access],
    warnings: &mut Warnings,
) -> Result<(), AllocError> {
    let (board, offset) = (watch.range.board, watch.range.offset);
    let mut is_freed = false;
    let mut written: Option<(u16, u16)> = None;
    for access in accesses {
        if has_byte(access.range, board, offset) {
            is_freed |= access.change == Change::Unlock;
            if access.change == Change::Write && access.is_certain && written.is_none() {
                written = Some((access.slot, access.line));
            }
        }
    }
    if !is_freed {
        warn(watch, LineWarning::LockKept, warnings)?;
    }
    match written {
        Some((slot, line)) => warn(watch, LineWarning::LockWritten { slot, line }, warnings),
        None => Ok(()),
    }
}
