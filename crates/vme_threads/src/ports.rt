ghost use Rattle.std.specs.Prelude.{IfOk};
ghost use Rattle.vme_threads.specs.Ports.{IsBuilt, AreWorkers};

use crate::open::{open_array, slots};
use crate::run_buffers::{PassBuffers, ReportBuffers};
use crate::worker::Worker;
use crate::workers::new_workers;
use std::alloc::{AllocError, Global};
use std::sync::Mutex;
use std::sync::atomic::AtomicBool;
use vme_bus_objects::BusObject;
use vme_bus_wait::BusWaiters;
use vme_port_array::PortArray;
use vme_script::{Config, OutOfMemory};

/// The boards of one backplane and the arbiter of their bus, which threads share as the objects of
/// one array of ports. The value also has the slots of the boards and all buffers that the end of
/// the run needs. `stop` is set if the workers have to stop before their next event: because an
/// object has made as many steps as can be counted, or because a thread can't be started.
#[derive(Drop)]
pub struct Ports {
    pub(crate) array: PortArray<BusObject>,
    pub(crate) slots: Vec<u16>,
    pub(crate) waiters: BusWaiters,
    pub(crate) report_buffers: ReportBuffers,
    pub(crate) buffers: Mutex<PassBuffers>,
    pub(crate) stop: AtomicBool,
    pub(crate) alloc: Global,
}

impl Ports {
    /// Opens one array of ports, whose objects are the configured boards with zero memory and the
    /// arbiter of a free bus, with a pass for each processor. Returns the ports and the workers
    /// that have these passes. It allocates everything that the workers and the end of their run
    /// need.
    ///
    /// # Errors
    /// `OutOfMemory` if an allocation fails.
    pub fn build(alloc: Global, config: &Config) -> Result<(Ports, Vec<Worker>), OutOfMemory>
        ensures built { IfOk result (λ r. IsBuilt config.now r.0) }
        ensures workers { IfOk result (λ r. AreWorkers config.now r.0 r.1.items) }
    {
        match Ports::open(alloc, config) {
            Ok(built) => Ok(built),
            Err(_) => Err(OutOfMemory),
        }
    }

    /// Builds the ports and their workers.
    ///
    /// # Errors
    /// `AllocError` if an allocation fails.
    fn open(alloc: Global, config: &Config) -> Result<(Ports, Vec<Worker>), AllocError>
        ensures built { IfOk result (λ r. IsBuilt config.now r.0) }
        ensures workers { IfOk result (λ r. AreWorkers config.now r.0 r.1.items) }
    {
        let count = config.boards();
        let (array, passes) = open_array(alloc, config)?;
        let workers = new_workers(alloc, config, &array, passes)?;
        let ports = Ports {
            array,
            slots: slots(alloc, config)?,
            waiters: BusWaiters::new(alloc, count)?,
            report_buffers: ReportBuffers::new(alloc, count)?,
            buffers: Mutex::new(PassBuffers::new(alloc)?),
            stop: AtomicBool::new(false),
            alloc,
        };
        Ok((ports, workers))
    }
}
