//! The boards and the kind of arbiter of a configuration file, as values: for a program that opens
//! its own machine with them, and runs no script.
#![tactic(auto)]

mod board;
mod file;

pub use file::{FileBoards, boards_in};
