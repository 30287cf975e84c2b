//! How a processor goes through its script on the data transfer bus (ANSI/IEEE Std 1014-1987,
//! chapters 2 and 3): what each line does next, by the replies of the arbiter and of the boards,
//! and the line's own reply in the end.
//!
//! A line is one attempt or several, each a task of `vme_master` or of `vme_shared`. Drivers on one
//! thread and on several use it.
#![tactic(auto)]

mod attempt;
mod laws;
mod read_buffers;
mod reply;
mod start;
mod task;
mod todo;
mod wait;

pub use attempt::{AttemptTask, Attempts};
pub use laws::{
    lines_call_boards_that_are_there, lines_go_by_the_table, lines_keep_their_tenure,
    traces_go_line_by_line,
};
pub use read_buffers::{ReadBuffers, line_read_len};
pub use reply::LineReplyRef;
pub use task::{LineTask, line_count};
pub use todo::LineTodo;
pub use wait::AwaitTask;
