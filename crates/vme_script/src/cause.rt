//! The causes of refusals of boards, of the turns and of mailboxes. A cause has the values that its
//! text names, and allocates nothing.
mod board;
mod mailbox;
mod schedule;

pub use board::{BoardCause, BoardName};
pub use mailbox::MailboxCause;
pub use schedule::ScheduleCause;
