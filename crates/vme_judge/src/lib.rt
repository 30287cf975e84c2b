//! The engine of `bendrika judge`: whether a recorded trace of a bus is legal, or the first sample at
//! which it is not, with the rule that it breaks.
#![tactic(auto)]

mod assumed;
mod boards;
mod counts;
mod dump;
mod dump_run;
mod engine;
mod expected;
mod fault;
mod finding;
mod json;
mod judge;
mod local;
mod log;
mod message;
mod opening;
mod options;
mod rejection;
mod resume;
mod run;
mod seen;
mod shown;
mod tail;
mod title;
mod transfer;
mod verdict;

pub use boards::{Board, boards_of};
pub use engine::judge_engine;
pub use fault::{JudgeFault, Status};
pub use options::{OpenBytes, Options};
