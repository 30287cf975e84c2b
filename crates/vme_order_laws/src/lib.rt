//! The theorems of `vme run` as instances of the laws of one order, which are of any processes and any
//! objects: here the processes are the processors of a configuration, and the objects its boards and
//! their arbiter. A law is a function with an empty body: a call of it makes its clauses known.
#![tactic(auto)]

mod laws;

pub use laws::{
    gathered_reports_are_of_one_order, gathered_reports_are_of_turns, gathered_texts_are_run_texts,
    transitions_of_one_order_are_turns, what_threads_gather_is_a_run_of_turns,
};
