//! The boards before the trace.
ghost use Rattle.std.specs.Prelude.{◌≡◌, IfOk, slice_get};
ghost use Rattle.vme_answers.specs.Starting.{entries_of, rows_from, end_from, opened, opened_if, all_opened, place_after};

use crate::board::{BoardRule, Open, Row};
use std::alloc::{AllocError, Global};
use vme_decode::Entry;
use vme_known::KnownBytes;

/// The entries of boards.
pub(crate) fn entries_of(alloc: Global, boards: &[BoardRule]) -> Result<Vec<Entry>, AllocError>
    ensures { IfOk result (λ entries. entries.items ≡ entries_of boards.now) }
{
    let mut entries = Vec::with_capacity(alloc, boards.len())?;
    for board in boards {
        entries.push(board.entry)?;
    }
    Ok(entries)
}

/// The rows of boards, and the number of their bytes.
pub(crate) fn rows_of(alloc: Global, boards: &[BoardRule]) -> Result<(Vec<Row>, usize), AllocError>
    ensures rows { IfOk result (λ found. found.0.items ≡ rows_from 0 boards.now) }
    ensures len { IfOk result (λ found. found.1 ≡ end_from 0 boards.now) }
{
    let mut rows = Vec::with_capacity(alloc, boards.len())?;
    let mut start: usize = 0;
    for board in boards {
        let size = board.entry.size;
        rows.push(Row {
            start,
            size,
            class: board.class,
        })?;
        start = place_after(start, size);
    }
    Ok((rows, start))
}

/// The place after some bytes, up to the greatest.
pub(crate) fn place_after(start: usize, len: u32) -> usize
    ensures { result ≡ place_after start len }
{
    start.saturating_add(len as usize)
}

/// Makes ranges of bytes open, as far as they are there.
pub(crate) fn open_all(bytes: &mut KnownBytes, rows: &[Row], opens: &[Open])
    ensures { bytes.new ≡ all_opened rows.now opens.now bytes.old }
{
    for range in opens {
        open_range(bytes, rows, range);
    }
}

/// Makes the bytes of a range open, if its board is there.
fn open_range(bytes: &mut KnownBytes, rows: &[Row], range: &Open)
    ensures { bytes.new ≡ opened_if range.now (slice_get rows.now range.now.board) bytes.old }
{
    if let Some(row) = rows.get(range.board) {
        open_in(bytes, row, range);
    }
}

/// Makes the bytes of a range of a board open, if they are there.
fn open_in(bytes: &mut KnownBytes, row: &Row, range: &Open)
    ensures { bytes.new ≡ opened range.now row.now bytes.old }
{
    let from = place_after(row.start, range.from.min(row.size));
    let to = place_after(row.start, range.to.min(row.size));
    if from < to && to <= bytes.len() {
        bytes.make_open(from, to);
    }
}
