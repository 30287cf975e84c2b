ghost use Rattle.std.specs.Prelude.{◌≡◌, ◌≢◌, ◌↔◌, ◌<◌, ◌≤◌, ◌%◌, length, Some, None, IsOk, IfOk, IfErr, IfSome, IfNone, IsOkUnless};
ghost use Rattle.vme_decode.specs.Lawful.{some_overlap, first_refusal};
ghost use Rattle.vme_cycle.specs.SignalLines.{first_byte};
ghost use Rattle.vme_decode.specs.Select.{selection_at, selection, IsSelected};

use crate::entry::Entry;
use crate::fault::MapFault;
use crate::table::Table;
use std::alloc::Global;
use std::marker::Model;
use vme_am::Am;
use vme_cycle::Signals;

/// The greatest number of entries of a map: as many as a backplane has slots.
const MOST_ENTRIES: usize = 21;

/// The entries of the boards on one bus. No two of them cover the same address.
#[derive(Debug, Drop)]
pub struct AddressMap {
    /// The entries in the caller's order, which is the model of the map. The first one is tried
    /// before a search.
    entries: Vec<Entry>,
    table: Table,
}

impl Model for AddressMap {
    ghost use Rattle.std.specs.Prelude.{◌≡◌, List, None};
    ghost use Rattle.vme_decode.specs.declared.entry.Entry.{Entry};
    ghost use Rattle.vme_decode.specs.Lawful.{first_refusal};
    ghost use Rattle.vme_decode.specs.Table.{IsTable, HasRanks};

    ghost Value = { List Entry };

    ghost view = { λ m. m.entries.items };

    ghost invariant = { λ m. record {
      lawful : first_refusal m.entries.items ≡ None;
      table : IsTable m.entries.items m.table.rows.items;
      ranks : HasRanks m.table.rows.items m.table.ranks;
    } };
}

impl AddressMap {
    /// Returns the map of some entries. A map without entries allocates nothing.
    ///
    /// # Errors
    ///
    /// The first fault in this order: `TooMany` (C4); entry by entry in the caller's order,
    /// `Misaligned` (C3) and `OutsideSpace` (C2) of that entry; `Overlap` (C1). `OutOfMemory`:
    /// there is no other fault, and an allocation failed.
    pub fn new(alloc: Global, entries: &[Entry]) -> Result<AddressMap, MapFault>
        ensures refused { IfSome (first_refusal entries.now) (λ fault. result ≡ Err fault) }
        ensures lawful { IfNone (first_refusal entries.now) (IsOkUnless result MapFault.OutOfMemory) }
        ensures memory { result ≡ Err MapFault.OutOfMemory → first_refusal entries.now ≡ None }
        ensures empty { length entries.now ≡ 0 → result ≢ Err MapFault.OutOfMemory }
        ensures map { IfOk result (λ map. map ≡ entries.now) }
    {
        check(entries)?;
        let mut copy = Vec::with_capacity(alloc, entries.len())?;
        copy.extend_from_slice(entries)?;
        let table = Table::of(alloc, entries)?;
        Ok(AddressMap {
            entries: copy,
            table,
        })
    }

    /// Returns the position, in the caller's order, of the entry that a code and the address of a
    /// first byte select, and the offset of that address from the entry's base in bytes: IEEE
    /// 1014-1987, 2.3.5 (addressing). Returns `None` where no entry covers the address and admits
    /// the code.
    pub fn select_at(&self, am: Am, addr: u32) -> Option<(usize, u32)>
        ensures value { result ≡ selection_at self.now am addr }
        ensures place { IfSome result (λ found. found.0 < length self.now) }
        ensures offset { IfSome result (λ found. found.1 ≤ addr) }
        ensures remainder { IfSome result (λ found. found.1 % 4 ≡ addr % 4) }
    {
        // If the first entry responds, no search is needed. Up to two entries are tried one by one,
        // which is faster than a search.
        let first = self.entries.first()?;
        if first.responds(am, addr) {
            return Some((0, addr - first.base));
        }
        if self.entries.len() > 2 {
            return self.table.find(am, addr);
        }
        let second = self.entries.get(1)?;
        if second.responds(am, addr) {
            return Some((1, addr - second.base));
        }
        None
    }

    /// Returns the entry that a cycle selects: `select_at` of its code and of the address of its
    /// first byte.
    #[tactic(auto, unfolding(crate::specs::Select::selection))]
    pub fn select(&self, signals: &Signals) -> Option<(usize, u32)>
        ensures value { result ≡ selection self.now signals.now }
        ensures place { IfSome result (λ found. found.0 < length self.now) }
        ensures entry { IfSome result (λ found. IsSelected self.now signals.now found.0 found.1) }
    {
        self.select_at(signals.am(), first_byte(signals))
    }
}

/// Checks that some entries are a lawful map, without an allocation.
///
/// # Errors
///
/// The first fault in this order: `TooMany` (C4); entry by entry, `Misaligned` (C3) and
/// `OutsideSpace` (C2) of that entry; `Overlap` (C1).
#[tactic(auto, unfolding(crate::specs::Lawful::first_refusal))]
pub fn check(entries: &[Entry]) -> Result<(), MapFault>
    ensures lawful { IsOk result ↔ (first_refusal entries.now ≡ None) }
    ensures refused { IfErr result (λ fault. first_refusal entries.now ≡ Some fault) }
    ensures not_memory { result ≢ Err MapFault.OutOfMemory }
{
    if entries.len() > MOST_ENTRIES {
        return Err(MapFault::TooMany);
    }
    for entry in entries {
        entry.check()?;
    }
    if some_overlap(entries) {
        return Err(MapFault::Overlap);
    }
    Ok(())
}

/// Whether some entry shares an address with a later one.
fn some_overlap(entries: &[Entry]) -> bool
    ensures { result ≡ some_overlap entries.now }
{
    for (i, entry) in entries.iter().enumerate() {
        if entry.overlaps_any(&entries[i + 1..]) {
            return true;
        }
    }
    false
}

/// The address of the first byte of the cycle.
fn first_byte(signals: &Signals) -> u32
    ensures { first_byte signals.now ≡ Some result }
{
    signals.addr() + u32::from(signals.location().first())
}
