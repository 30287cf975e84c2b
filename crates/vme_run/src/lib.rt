//! The engines of `vme step` and `vme run`: they run the scripts of a configuration file, on one
//! thread or each on a thread of its own, and write the report. With them are the laws of one order,
//! on which the contract of [`run_engine`] rests: if the calls that threads make on all boards and
//! their arbiter have one order, then their report is that of some turns on one thread. A law is a
//! function with an empty body: a call of it makes its clauses known.
#![tactic(auto)]

mod laws;
mod run;
mod step;
mod text;

pub use laws::{
    a_run_of_threads_is_a_run_of_turns, one_order_has_a_history_of_each_object,
    one_order_is_a_run_of_turns,
};
pub use run::{run_engine, run_file};
pub use step::{step_engine, step_file};
pub use text::report_text;
