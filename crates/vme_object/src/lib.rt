//! Objects that take one command at a time, and histories of their commands: the state after a
//! history, whether each reply is that of the step, and the entries of one caller. [`Counter`] is
//! the smallest object.
#![tactic(auto)]

mod count;
mod counter;
mod held;
mod history;
mod laws;
mod object;
mod operation;

pub use count::next_count;
pub use counter::{Counter, CounterCmd};
pub use held::Held;
pub use history::Entry;
pub use laws::{entries_of_one, histories_compose, replies_are_the_steps};
pub use object::Object;
pub use operation::{CommandRef, Operation};
