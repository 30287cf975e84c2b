//! An array of ports: callers on any threads share several objects of one type, and each caller has
//! one pass for all of them. The calls of all objects make one history that only grows, in which
//! the part of each object is legal. A pass knows the prefix of that history that it has seen.
#![tactic(auto)]

mod behind;
mod calls;
mod fault;
mod indexed;
mod laws;
mod opening;
mod pass;
mod port_array;
mod rule;
mod seats;
mod settle;
mod waking;

pub use behind::calls_come_behind;
pub use fault::ArrayFault;
pub use indexed::Indexed;
pub use laws::{calls_compose, calls_make_one_history};
pub use pass::Pass;
pub use port_array::PortArray;
pub use settle::Unsettled;
