//! The processors of a backplane (ANSI/IEEE Std 1014-1987, chapters 2 and 3) as threads: one array
//! of ports with all boards and the arbiter of their bus, and a worker for each processor, which
//! calls all of them through one pass.
#![tactic(auto)]

mod gate;
mod gather_report;
mod laws;
mod line;
mod open;
mod ports;
mod processor_pass;
mod read;
mod read_data;
mod report;
mod run_buffers;
mod run_read;
mod take;
mod threads;
mod worker;
mod workers;

pub use gate::Gate;
pub use gather_report::gather;
pub use laws::{a_settled_array_is_a_run, gathered_reports_have_one_order};
pub use ports::Ports;
pub use processor_pass::ProcessorPass;
pub use report::{BoardReport, Report};
pub use threads::run_threads;
pub use worker::{Ran, Worker};
