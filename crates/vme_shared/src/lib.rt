//! Locks and mailboxes over the data transfer bus (ANSI/IEEE Std 1014-1987, chapter 2), and the
//! replies to the lines of a script.
//!
//! A lock is bit 7 of a byte. A mailbox is a queue of words in a board's memory. Their tasks return
//! the next event, call by call. `LineReply` is the reply to a line, and `Status` states whether it
//! is a good one.
#![tactic(auto)]

mod current;
mod job;
mod laws;
mod lock;
mod mailbox;
mod mailbox_laws;
mod outcome;
mod put;
mod reply;
mod request;
mod stage;
mod status;
mod take;
mod task;
mod todo;
mod word;

pub use current::CurrentTransfer;
pub use job::Job;
pub use laws::{
    shared_tasks_are_refused_at_the_start, shared_tasks_call_boards_of_the_map,
    shared_tasks_go_by_the_table, shared_tasks_keep_their_tenure,
};
pub use lock::LockTask;
pub use mailbox::Mailbox;
pub use mailbox_laws::{a_word_goes_through, mailboxes_are_queues};
pub use outcome::SharedOutcome;
pub use put::PutTask;
pub use reply::LineReply;
pub use request::SharedRequest;
pub use stage::{Stage, StageResult};
pub use status::Status;
pub use take::TakeTask;
pub use task::SharedTask;
pub use todo::SharedTodo;
