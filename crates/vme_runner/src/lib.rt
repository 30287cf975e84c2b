//! The drivers that run the scripts of a backplane's processors (ANSI/IEEE Std 1014-1987, chapters
//! 2 and 3), on one thread by turns or with one thread for each processor; the report of a run, and
//! its text. These are items of other crates. The crate's own are the laws of whole runs: the bus has
//! at most one holder, only the holder moves data over it, a block has one tenure, no request is
//! denied, and each declared mailbox is a queue.
#![tactic(auto)]

mod file_laws;
mod order_laws;
mod queue_laws;
mod tenure_laws;
mod thread_laws;
mod turn_laws;

pub use file_laws::configurations_are_lawful;
pub use order_laws::{
    blocks_do_not_interleave, data_move_for_the_holder, each_transition_is_a_turn,
};
pub use queue_laws::{declared_mailboxes_are_queues, texts_show_queues};
pub use tenure_laws::{a_block_has_one_tenure, data_come_one_after_another};
pub use thread_laws::{no_line_is_denied, no_line_is_unfinished, the_arbiter_denies_no_command};
pub use turn_laws::{
    a_turn_makes_its_call_alone, commands_are_the_holders, turns_are_a_run_of_transitions,
};
pub use vme_line_task::{LineTask, LineTodo};
pub use vme_report::RunFault;
pub use vme_run::{
    a_run_of_threads_is_a_run_of_turns, one_order_has_a_history_of_each_object, report_text,
};
pub use vme_shared::Status;
pub use vme_stepper::run_steps;
pub use vme_threads::{BoardReport, Gate, Ports, Ran, Report, Worker, gather, run_threads};
