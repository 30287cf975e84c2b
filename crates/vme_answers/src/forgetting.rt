//! Bytes that something unseen may have written.
ghost use Rattle.std.specs.Prelude.{◌≡◌, slice_get};
ghost use Rattle.vme_answers.specs.Forgetting.{forgot_in, forgot_if};

use crate::board::Row;
use crate::bytes::forget_all;
use crate::starting::place_after;
use vme_known::KnownBytes;

/// Forgets the bytes of a board from one offset to another, if it is there.
pub(crate) fn forget_range(bytes: &mut KnownBytes, rows: &[Row], board: usize, from: u32, to: u32)
    ensures { bytes.new ≡ forgot_if (slice_get rows.now board) from to bytes.old }
{
    if let Some(row) = rows.get(board) {
        forget_in(bytes, row, from, to);
    }
}

/// Forgets the bytes of a board from one offset to another, as far as they are there.
fn forget_in(bytes: &mut KnownBytes, row: &Row, from: u32, to: u32)
    ensures { bytes.new ≡ forgot_in row.now from to bytes.old }
{
    let from = place_after(row.start, from.min(row.size));
    let to = place_after(row.start, to.min(row.size));
    if from < to && to <= bytes.len() {
        forget_all(bytes, from, to - from);
    }
}
