ghost use Rattle.std.specs.Prelude.{IfOk};
ghost use Rattle.vme_machine_ffi.specs.Buffers.{AreReady};

use std::alloc::{AllocError, Global};
use vme_bus_objects::BusObject;
use vme_machine::Member;
use vme_port::Home;
use vme_port_array::Pass;
use vme_processor::Processor;

/// The greatest number of objects of a machine.
const MOST_OBJECTS: usize = 64;

/// What the end of a machine fills. All of it is allocated before a processor is taken.
#[derive(Drop)]
pub(crate) struct Buffers {
    pub(crate) boxes: Vec<Box<Processor, Global>>,
    pub(crate) processors: Vec<Processor>,
    pub(crate) members: Vec<Member<BusObject>>,
    pub(crate) passes: Vec<Pass<BusObject>>,
    pub(crate) homes: Vec<Home<BusObject>>,
}

impl Buffers {
    /// Returns empty buffers for some processors.
    ///
    /// # Errors
    /// `AllocError` if an allocation fails.
    pub(crate) fn new(alloc: Global, count: usize) -> Result<Buffers, AllocError>
        ensures { IfOk result (AreReady count) }
    {
        Ok(Buffers {
            boxes: Vec::with_capacity(alloc, count)?,
            processors: Vec::with_capacity(alloc, count)?,
            members: Vec::with_capacity(alloc, count)?,
            passes: Vec::with_capacity(alloc, count)?,
            homes: Vec::with_capacity(alloc, MOST_OBJECTS)?,
        })
    }
}
