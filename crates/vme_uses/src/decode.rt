//! A use of `vme_decode`.
ghost use Rattle.std.specs.Prelude.{◌≤◌, IfOk, IfSome};

use std::alloc::Global;
use vme_am::Am;
use vme_decode::{AddressMap, Entry, MapFault};

/// Returns where on the only board of a bus an access begins, or `None` if the board is not selected.
pub fn offset_on(alloc: Global, board: Entry, am: Am, addr: u32) -> Result<Option<u32>, MapFault>
    ensures { IfOk result (λ found. IfSome found (λ offset. offset ≤ addr)) }
{
    let map = AddressMap::new(alloc, &[board])?;
    match map.select_at(am, addr) {
        Some((_, offset)) => Ok(Some(offset)),
        None => Ok(None),
    }
}
