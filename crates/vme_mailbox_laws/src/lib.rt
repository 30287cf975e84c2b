//! Laws of puts and takes: their commands to the board of their mailbox follow the mailbox
//! protocol, their outcomes report the words that they put and take, and mailboxes are queues.
#![tactic(auto)]

mod isolation_laws;
mod queue_laws;
mod task_laws;

pub use isolation_laws::declared_mailboxes_are_left_alone;
pub use queue_laws::{
    declared_mailboxes_lie_in_their_boards, own_words_are_those_of_own_entries,
    scripts_follow_the_protocol,
};
pub use task_laws::{
    locks_touch_their_byte_alone, puts_and_takes_follow_the_protocol,
    puts_and_takes_stay_in_their_mailbox, puts_and_takes_touch_their_mailbox,
};
