//! Ranges of bytes on the boards.
ghost use Rattle.std.specs.Prelude.{◌≡◌, ◌+◌, ◌<◌, length, is_some, IfSome};
ghost use Rattle.std.specs.List.{list_any};
ghost use Rattle.vme_script.specs.BoardRanges.{range_at, range_of, is_within, share};

use vme_am::Am;
use vme_decode::AddressMap;
use vme_shared::Mailbox;

/// Consecutive bytes of one board.
#[derive(Clone, Copy, Debug, PartialEq, Eq)]
pub struct BoardRange {
    /// The board, by its index in the map.
    pub board: usize,
    /// The offset of the first byte on the board.
    pub offset: u32,
    /// The number of bytes.
    pub len: u32,
}

impl BoardRange {
    /// Returns the range of `len` bytes from `addr` on, with code `am`.
    ///
    /// The range is on the board that the first byte selects; it may end after that board. Returns
    /// `None` if `Am::from_code` rejects the code or the first byte selects no board.
    #[tactic(auto, unfolding(crate::specs::BoardRanges::range_at))]
    pub fn at(map: &AddressMap, am: u8, addr: u32, len: u32) -> Option<BoardRange>
        ensures place { result ≡ range_at map.now am addr len }
        ensures there { IfSome result (λ place. place.board < length map.now) }
    {
        let Ok(am) = Am::from_code(am) else {
            return None;
        };
        let (board, offset) = map.select_at(am, addr)?;
        Some(BoardRange { board, offset, len })
    }

    /// Returns the range of the bytes of `mailbox`.
    ///
    /// The range is on the board that the first byte selects; it may end after that board. Returns
    /// `None` if `Am::from_code` rejects the mailbox's code or the first byte selects no board.
    pub fn of(map: &AddressMap, mailbox: Mailbox) -> Option<BoardRange>
        ensures place { result ≡ range_of map.now mailbox }
        ensures there { IfSome result (λ place. place.board < length map.now) }
    {
        BoardRange::at(map, mailbox.am, mailbox.addr, mailbox.len())
    }

    /// The offset after the last byte.
    fn end(self) -> u64
        ensures { result ≡ self.offset + self.len }
    {
        u64::from(self.offset) + u64::from(self.len)
    }

    /// Returns whether the range ends within a board of `size` bytes.
    pub fn is_within(self, size: u32) -> bool
        ensures within { result ≡ is_within self size }
    {
        self.end() <= u64::from(size)
    }

    /// Returns the offset of the last byte, or the first offset if the range has no byte.
    pub fn last(self) -> u32 {
        self.offset.saturating_add(self.len.saturating_sub(1))
    }

    /// Whether the two ranges share a byte.
    pub(crate) fn shares(self, other: BoardRange) -> bool
        ensures { result ≡ share self other }
    {
        let start = u64::from(self.offset.max(other.offset));
        self.board == other.board && start < self.end().min(other.end())
    }

    /// Returns the first of `others` with which the range shares a byte, and its index.
    pub fn first_shared(self, others: &[BoardRange]) -> Option<(usize, BoardRange)>
        ensures shared { is_some result ≡ list_any (share self) others.now }
    {
        for (index, other) in others.iter().enumerate() {
            if self.shares(*other) {
                return Some((index, *other));
            }
        }
        None
    }
}
