//! The engine of `vme cycles`, which performs the cycles of request lines; what most engines share:
//! their faults, and how they read their input; and [`read_words`], which reads the command line.
//!
//! An engine reads a source of bytes, writes to a sink, and returns a status or a fault.
#![tactic(auto)]

mod answer;
mod bus;
mod cycles;
mod fault;
mod file;
mod input;
mod request;
mod words;

pub use bus::BOARD_SIZE;
pub use cycles::{INPUT_LIMIT, cycles_engine};
pub use fault::{ProgramFault, exit_status};
pub use file::{FILE_LIMIT, parse_config, read_config};
pub use input::read_input;
pub use request::request_of;
pub use vme_shared::Status;
pub use words::{Form, WordsFault, read_words};
