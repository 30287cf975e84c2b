//! A session over the boards of a configuration: each line of the input, `SLOT LINE`, is a line of
//! a script for the processor in that slot, and is answered before the next one is read.
//!
//! A test bench in any language can drive the boards through two pipes.
#![tactic(auto)]

mod calls;
mod fault;
mod input;
mod laws;
mod request;
mod service;
mod session;

pub use fault::SessionFault;
pub use laws::lines_are_runs_of_their_slots;
pub use service::Service;
pub use session::serve;
