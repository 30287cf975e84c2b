//! A run of events on one thread: boards and the arbiter of their bus. Each object takes its own
//! part of the run, and the core counts the steps of each object and those of each processor on it.
#![tactic(auto)]

mod counted;
mod datum;
mod event;
mod fault;
mod laws;
mod machine;

pub use datum::DatumCycle;
pub use event::{Event, EventRef, EventReply, Target};
pub use fault::{OutOfMemory, RunStop, Spent};
pub use laws::{a_call_is_a_run_of_one, opening_is_replayed, runs_compose};
pub use machine::Core;
