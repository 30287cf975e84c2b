//! The workers of an array of ports.
ghost use Rattle.std.specs.Prelude.{◌≡◌, length, vec_len, IfOk};
ghost use Rattle.vme_object.specs.Each.{Each};
ghost use Rattle.vme_port.specs.Passes.{IsUnused};
ghost use Rattle.vme_port_array.specs.Arrays.{array_id};
ghost use Rattle.vme_threads.specs.Ports.{AreNewWorkers};

use crate::worker::Worker;
use std::alloc::{AllocError, Global};
use vme_bus_objects::BusObject;
use vme_port_array::{Pass, PortArray};
use vme_script::Config;

/// Returns a worker for each pass of the array, in order. It allocates the buffers of all workers.
///
/// # Errors
/// `AllocError` if an allocation fails.
pub(crate) fn new_workers(
    alloc: Global,
    config: &Config,
    array: &PortArray<BusObject>,
    passes: Vec<Pass<BusObject>>,
) -> Result<Vec<Worker>, AllocError>
    requires count { vec_len passes ≡ length config.now.boards }
    requires unused { Each (λ i p. IsUnused (array_id array.now) i p) passes.items }
    ensures { IfOk result (λ r. AreNewWorkers config.now array.now r.items) }
{
    let count = config.boards();
    let mut workers = Vec::with_capacity(alloc, count)?;
    for pass in passes {
        let script = config.script(workers.len());
        workers.push_reserved(Worker::new(alloc, count, script, pass)?);
    }
    Ok(workers)
}
