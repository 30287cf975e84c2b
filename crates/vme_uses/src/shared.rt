//! A use of `vme_shared`.
use vme_cycle::CycleFault;
use vme_decode::AddressMap;
use vme_shared::{LockTask, SharedTodo};

/// Returns the first event of a lock at an address of the extended space: a request for the bus.
pub fn lock(map: &AddressMap, slot: u16, addr: u32) -> Result<SharedTodo, CycleFault> {
    let mut task = LockTask::lock(map, slot, 3, 0x0d, addr)?;
    Ok(task.next(None))
}
