//! The engine of `bendrika outcomes`: every outcome that some order of turns gives, each once and
//! with a schedule that gives it.
//!
//! [`outcomes_engine`] reads a configuration file from a source of bytes, and writes to a sink.
#![tactic(auto)]

mod asked;
mod claim;
mod condition;
mod engine;
mod fault;
mod kept;
mod laws;
mod listing;
mod names;
mod paragraph;
mod place;
mod print;
mod replies;
mod seen;
mod text;
mod write;

pub use asked::{Asked, Form};
pub use condition::{Condition, Kind};
pub use engine::outcomes_engine;
pub use fault::OutcomesFault;
pub use kept::Kept;
pub use laws::{conditions_hold_of_each_outcome, run_texts_have_a_listed_text};
pub use print::{append_count, append_schedule, append_tries_line};
