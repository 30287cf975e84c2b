//! The stepper of scripts on one thread: slots have turns, one after another.
//!
//! In its turn a processor performs one event of its script: a command to a board's memory, or to
//! the arbiter of the data transfer bus (ANSI/IEEE Std 1014-1987, chapters 2 and 3).
#![tactic(auto)]

mod processor;
mod run;
mod stepper;

pub use run::{run_configured, run_steps};
pub use stepper::{Stepper, board_in_slot, zero_memories};
