//! The report of a run: the reply to each line of each script, the number of steps of each board
//! and which processors made them, and the contents of the memories.
//!
//! The report is text. It goes to a sink in large pieces.
#![tactic(auto)]

mod board;
mod fault;
mod gather;
mod part;
mod print;
mod report;
mod status;

pub use board::BoardReportRef;
pub use fault::RunFault;
pub use report::write_report;
