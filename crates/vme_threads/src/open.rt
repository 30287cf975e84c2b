//! The opening of the array of ports.
ghost use Rattle.std.specs.Prelude.{◌≡◌, ◌+◌, length, map, vec_len, IfOk};
ghost use Rattle.vme_object.specs.Each.{Each};
ghost use Rattle.vme_port.specs.Passes.{IsUnused};
ghost use Rattle.vme_port_array.specs.Arrays.{array_id, opening, passes_of, objects_of};
ghost use Rattle.vme_threads.specs.Settlements.{opening_objects};

use std::alloc::{AllocError, Global};
use vme_bus_objects::BusObject;
use vme_port_array::{ArrayFault, Pass, PortArray};
use vme_script::Config;

/// Returns the boards with zero memory, in order, and the arbiter of a free bus after them.
///
/// # Errors
/// `AllocError` if an allocation fails.
fn objects(alloc: Global, config: &Config) -> Result<Vec<BusObject>, AllocError>
    ensures { IfOk result (λ r. r.items ≡ opening_objects config.now) }
{
    let count = config.boards();
    let mut objects = Vec::with_capacity(alloc, count + 1)?;
    for board in 0..count {
        let Ok(memory) = config.memory(alloc, board) else {
            return Err(AllocError);
        };
        objects.push_reserved(BusObject::Board(memory));
    }
    objects.push_reserved(BusObject::Arbiter(config.arbiter()));
    Ok(objects)
}

/// Opens an array of all boards and their arbiter, with a pass for each processor.
///
/// # Errors
/// `AllocError` if an allocation fails.
pub(crate) fn open_array(
    alloc: Global,
    config: &Config,
) -> Result<(PortArray<BusObject>, Vec<Pass<BusObject>>), AllocError>
    ensures opening { IfOk result (λ r. opening r.0 ≡ opening_objects config.now) }
    ensures objects { IfOk result (λ r. objects_of r.0 ≡ length config.now.boards + 1) }
    ensures passes { IfOk result (λ r. passes_of r.0 ≡ length config.now.boards) }
    ensures count { IfOk result (λ r. vec_len r.1 ≡ length config.now.boards) }
    ensures unused { IfOk result (λ r. Each (λ i p. IsUnused (array_id r.0) i p) r.1.items) }
{
    let count = config.boards();
    match PortArray::new(alloc, objects(alloc, config)?, count) {
        Ok(opened) => Ok(opened),
        Err(ArrayFault::OutOfMemory) => Err(AllocError),
        Err(ArrayFault::BadCount) => unreachable!(),
    }
}

/// Returns the slot of each board, in order.
///
/// # Errors
/// `AllocError` if an allocation fails.
pub(crate) fn slots(alloc: Global, config: &Config) -> Result<Vec<u16>, AllocError>
    ensures { IfOk result (λ r. r.items ≡ map (λ own. own.slot) config.now.boards) }
{
    let count = config.boards();
    let mut slots = Vec::with_capacity(alloc, count)?;
    for board in 0..count {
        slots.push_reserved(config.slot(board));
    }
    Ok(slots)
}
