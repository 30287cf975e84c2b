//! A processor of a machine: the caller of its boards and of the arbiter of their bus.
#![tactic(auto)]

mod bus_operation;
mod closing;
mod local_read;
mod opening;
mod processor;
mod run;
mod shared;
mod single;
mod transfer;
mod work;

pub use closing::{are_all_of_one, close};
pub use local_read::LocalRead;
pub use opening::{OpenError, Place, open};
pub use processor::Processor;
pub use run::Met;
pub use single::Transferred;
pub use transfer::{StartFault, StepFault};
