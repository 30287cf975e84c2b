//! The board that a datum selects, and whether it has the cycle.
ghost use Rattle.std.specs.Prelude.{◌≡◌};
ghost use Rattle.vme_protocol.specs.Transfers.{is_block_code};
ghost use Rattle.vme_answers.specs.Selecting.{is_second, has_cycle_of, may_refuse, overlaps};

use crate::board::{Half, Row};
use crate::class::{has_datum, has_modify};
use vme_am::Am;
use vme_protocol::Datum;

/// The board that a datum selects.
#[derive(Clone, Copy, Debug, PartialEq, Eq)]
pub(crate) struct Selected {
    /// Its place in the list.
    pub(crate) board: usize,
    /// The offset of the first byte.
    pub(crate) offset: u32,
    pub(crate) row: Row,
}

impl Selected {
    /// Whether the class has the cycle of a datum.
    pub(crate) fn has_cycle_of(&self, datum: &Datum) -> bool
        ensures { result ≡ has_cycle_of self.now datum.now }
    {
        let class = self.row.class;
        if is_second(datum) {
            has_modify(class, self.offset, datum.len)
        } else {
            has_datum(class, is_block(datum.am), self.offset, datum.len)
        }
    }

    /// Whether BERR* may answer a datum though the class has the cycle: it may be the read half of a
    /// read-modify-write that the board does not have.
    pub(crate) fn may_refuse(&self, datum: &Datum) -> bool
        ensures { result ≡ may_refuse self.now datum.now }
    {
        !is_block(datum.am) && datum.write && !has_modify(self.row.class, self.offset, datum.len)
    }

    /// Whether some bytes are among those of a read half.
    pub(crate) fn overlaps(&self, len: u8, half: &Half) -> bool
        ensures { result ≡ overlaps self.now len half.now }
    {
        self.board == half.board
            && u64::from(half.offset) < u64::from(self.offset) + u64::from(len)
            && u64::from(self.offset) < u64::from(half.offset) + u64::from(half.len)
    }
}

/// Whether a code is one of a block.
pub(crate) fn is_block(am: u8) -> bool
    ensures { result ≡ is_block_code am }
{
    match Am::from_code(am) {
        Ok(am) => am.kind().is_block(),
        Err(_) => false,
    }
}

/// Whether a datum is the write half of a read-modify-write.
pub(crate) fn is_second(datum: &Datum) -> bool
    ensures { result ≡ is_second datum.now }
{
    !is_block(datum.am) && datum.index > 0
}
