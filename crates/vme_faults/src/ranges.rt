//! The ranges of all boards: what they share, and their address map.
use crate::cause::{BoardCause, Cause};
use crate::finding::{Finding, find};
use crate::tables::KnownBoard;
use std::alloc::{AllocError, Global};
use vme_decode::{AddressMap, Entry, MapFault};
use vme_positions::{Key, Place, TableName};

/// The last address of a lawful range.
fn last_of(entry: Entry) -> u32 {
    entry.base.saturating_add(entry.size.saturating_sub(1))
}

/// The addresses that two ranges share, the first and the last.
fn shared(a: Entry, b: Entry) -> Option<(u32, u32)> {
    let low = a.base.max(b.base);
    let high = last_of(a).min(last_of(b));
    if a.space == b.space && low <= high {
        Some((low, high))
    } else {
        None
    }
}

/// Finds each board that shares an address with an earlier one, and names the first of these.
pub(crate) fn find_overlaps(
    boards: &[KnownBoard<'_>],
    found: &mut Vec<Finding>,
) -> Result<(), AllocError> {
    for (index, board) in boards.iter().enumerate() {
        if let Some(entry) = board.entry {
            if let Some(cause) = overlap_of(boards, index, board, entry) {
                let place = Place::Key {
                    table: TableName::Board,
                    index,
                    key: Key::Base,
                };
                find(found, Cause::Board(cause), place)?;
            }
        }
    }
    Ok(())
}

/// The overlap of a board with the first earlier board that has an address of its range, if there
/// is one.
fn overlap_of(
    boards: &[KnownBoard<'_>],
    index: usize,
    board: &KnownBoard<'_>,
    entry: Entry,
) -> Option<BoardCause> {
    for (other, earlier) in boards.iter().enumerate() {
        if other >= index {
            return None;
        }
        if let Some(range) = earlier.entry {
            if let Some((low, high)) = shared(range, entry) {
                return Some(BoardCause::Overlap {
                    board: board.name(index),
                    other_board: earlier.name(other),
                    other,
                    space: entry.space,
                    low,
                    high,
                    other_low: range.base,
                    other_high: last_of(range),
                });
            }
        }
    }
    None
}

/// The address map of boards, if all their ranges are known and share no address.
pub(crate) fn map_of(
    alloc: Global,
    boards: &[KnownBoard<'_>],
) -> Result<Option<AddressMap>, AllocError> {
    let mut entries = Vec::new(alloc);
    for board in boards {
        match board.entry {
            Some(entry) => entries.push(entry)?,
            None => return Ok(None),
        }
    }
    match AddressMap::new(alloc, &entries) {
        Ok(map) => Ok(Some(map)),
        Err(MapFault::OutOfMemory) => Err(AllocError),
        Err(_) => Ok(None),
    }
}
