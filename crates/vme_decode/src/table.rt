ghost use Rattle.std.specs.Prelude.{◌≡◌, ◌-◌, ◌^◌, ◌<◌, ◌≤◌, nat_le, List, length, None, IsOk, IfOk, option_copied};
ghost use Rattle.std.specs.List.Sorted.{IsNonDecreasingBy, IsPartitionedBy, IsPartitionPoint};
ghost use Rattle.vme_decode.specs.declared.entry.Entry.{Entry};
ghost use Rattle.vme_decode.specs.Lawful.{first_refusal};
ghost use Rattle.vme_decode.specs.Select.{selection_at};
ghost use Rattle.vme_decode.specs.Table.{rank, rank_of, IsTable, HasRanks, IsLastUpTo};

use crate::entry::Entry;
use std::alloc::{AllocError, Global};
use vme_am::{Am, Space};

/// The number of ranks of a search: five steps of halving search 31 ranks, and there are up to 21
/// rows.
const PLACES: usize = 31;

/// An entry that covers some address, with its position in the caller's list.
#[derive(Clone, Copy, Debug)]
pub(crate) struct Row {
    place: usize,
    entry: Entry,
}

impl Row {
    /// The rank of the row: a table is sorted by rank.
    fn rank(&self) -> u64
        ensures { result ≡ rank_of self.now }
    {
        rank(self.entry.space, self.entry.base)
    }
}

/// The rank of an address: it orders addresses by space, and within a space by address.
fn rank(space: Space, addr: u32) -> u64
    ensures value { result ≡ rank space addr }
    ensures below { result < 2 ^ 64 - 1 }
{
    let before: u64 = match space {
        Space::A16 => 0,
        Space::A24 => 1 << 32,
        Space::A32 => 2 << 32,
    };
    before + u64::from(addr)
}

/// The entries that cover some address, sorted by space and base, and their ranks for a search.
#[derive(Debug, Drop)]
pub(crate) struct Table {
    rows: Vec<Row>,
    ranks: [u64; PLACES],
}

impl Table {
    /// Makes the table of some entries. Without entries it allocates nothing.
    pub(crate) fn of(alloc: Global, entries: &[Entry]) -> Result<Table, AllocError>
        requires { length entries.now ≤ 31 }
        ensures table { IfOk result (λ table. IsTable entries.now table.rows.items) }
        ensures ranks { IfOk result (λ table. HasRanks table.rows.items table.ranks) }
        ensures empty { length entries.now ≡ 0 → IsOk result }
    {
        let mut rows = Vec::with_capacity(alloc, entries.len())?;
        for (place, entry) in entries.iter().enumerate() {
            if entry.size > 0 {
                rows.push(Row {
                    place,
                    entry: *entry,
                })?;
            }
        }
        rows.sort_unstable_by_key(|row| row.rank());
        let ranks = ranks_of(&rows);
        Ok(Table { rows, ranks })
    }

    /// The position of the entry that a code and an address select, and the offset from its base.
    /// Where an entry covers the address, no other entry begins between its base and the address.
    pub(crate) fn find(&self, am: Am, addr: u32) -> Option<(usize, u32)>
        ensures { (entries : List Entry) → first_refusal entries ≡ None → IsTable entries self.now.rows.items →
            HasRanks self.now.rows.items self.now.ranks → result ≡ selection_at entries am addr }
    {
        let row = self.last_up_to(rank(am.space(), addr))?;
        if !row.entry.responds(am, addr) {
            return None;
        }
        Some((row.place, addr - row.entry.base))
    }

    /// The last row whose rank is at most `top`.
    fn last_up_to(&self, top: u64) -> Option<&Row>
        requires { top < 2 ^ 64 - 1 }
        ensures { IsNonDecreasingBy rank_of self.now.rows.items → HasRanks self.now.rows.items self.now.ranks →
            IsLastUpTo self.now.rows.items top (option_copied result) }
    {
        let count = count_up_to(&self.ranks, top);
        self.rows.get(count.checked_sub(1)?)
    }
}

/// The ranks of some rows, with the greatest number at the unused places.
fn ranks_of(rows: &[Row]) -> [u64; PLACES]
    requires { length rows.now ≤ 31 }
    ensures { HasRanks rows.now result }
{
    let mut ranks = [u64::MAX; PLACES];
    for (place, row) in rows.iter().enumerate() {
        ranks[place] = row.rank();
    }
    ranks
}

/// The number of ranks up to `top`, found by halving. It adds the result of each comparison instead
/// of branching on it, since the branch would be unpredictable.
fn count_up_to(ranks: &[u64; PLACES], top: u64) -> usize
    ensures within { result ≤ 31 }
    ensures parted { IsPartitionedBy (λ r. nat_le r top) ranks.now →
        IsPartitionPoint (λ r. r ≤ top) (λ r. top < r) ranks.now result }
{
    let mut count = 0;
    let mut step = PLACES / 2 + 1;
    while step > 0 {
        count += step * usize::from(ranks[count + step - 1] <= top);
        step /= 2;
    }
    count
}
