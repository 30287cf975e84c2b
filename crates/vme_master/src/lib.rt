//! Tasks of a bus master: ANSI/IEEE Std 1014-1987, chapters 2 (data transfer bus) and 3
//! (arbitration).
//!
//! A `Task` returns, call by call, the next event of a transfer over the bus or of a command to a
//! board's local port, and at last its outcome. A driver performs the events, on one thread or on
//! several.
#![tactic(auto)]

mod caller;
mod calls;
mod current;
mod expected;
mod job;
mod laws;
mod outcome;
mod phase;
mod task;
mod todo;

pub use caller::{Caller, call_event};
pub use current::CurrentDatum;
pub use laws::{
    boards_are_of_the_map, data_go_in_order, replies_fit, tasks_go_by_the_table,
    transfers_keep_their_tenure,
};
pub use outcome::{Outcome, OutcomeRef};
pub use task::Task;
pub use todo::Todo;
