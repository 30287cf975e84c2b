//! The answers of the boards to the data of a recorded trace (ANSI/IEEE Std 1014-1987): which board
//! the address map selects, whether its class has the cycle, and whether the bytes that it shows are
//! those that its memory may have. [`Answers`] takes one datum after another.
#![tactic(auto)]

mod answers;
mod board;
mod bytes;
mod class;
mod forgetting;
mod laws;
mod selected;
mod starting;
mod wrong;

pub use answers::Answers;
pub use board::{BoardRule, Open};
pub use laws::{
    cycles_are_those_of_the_board, taken_events_are_a_history, wrong_bytes_are_no_history,
};
pub use wrong::Wrong;
