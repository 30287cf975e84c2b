//! Laws of processes that call objects: what is gathered from a settled array of ports is what some
//! list of turns leads to, whatever the objects' step and whatever the processes do next. A law is a
//! function with an empty body: a call of it makes its clauses known.
#![tactic(auto)]

mod laws;

pub use laws::{
    a_settled_array_has_one_order, an_array_shows_itself, one_order_of_calls_is_a_run_of_turns,
    what_is_gathered_is_a_run_of_turns,
};
