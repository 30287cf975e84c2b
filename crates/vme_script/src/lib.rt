//! Configurations of a backplane, read from TOML files: the boards with their slots, request levels
//! and address ranges (ANSI/IEEE Std 1014-1987, chapters 2 and 3), the scripts of their processors,
//! the arbiter, the schedule and the mailboxes.
//!
//! Every file either is a lawful configuration or has one refusal. [`reply_line`] appends the line of
//! the reply to a script's line.
#![tactic(auto)]

mod arbiter;
mod board;
mod board_range;
mod bytes;
mod cause;
mod config;
mod context;
mod fault;
mod laws;
mod limits;
mod mailbox;
mod mailbox_numbers;
mod mailboxes;
mod read;
mod reply;
mod schedule;
mod script;

pub use arbiter::kind_named;
pub use board::{
    BoardConfig, check_base, check_end, check_level, check_size, check_slot, check_unaligned,
    space_named, width_of,
};
pub use board_range::BoardRange;
pub use bytes::line_bytes;
pub use cause::{BoardCause, BoardName, MailboxCause, ScheduleCause};
pub use config::Config;
pub use context::{MailboxDeclarations, ScriptContext};
pub use fault::{ConfigFault, ScriptFault, ScriptRefusal};
pub use laws::{addresses_select_ranges, tables_give_lawful_numbers};
pub use limits::{LAST_SLOT, MOST_BOARDS, MOST_LINES, MOST_MAILBOXES, MOST_TURNS};
pub use mailbox::{
    check_address, check_apart, check_code, check_inside, check_modify, check_slots, check_width,
    mailbox_from_table, place_of,
};
pub use mailbox_numbers::MailboxNumbers;
pub use mailboxes::check_count;
pub use reply::reply_line;
pub use schedule::{check_rounds, check_tries};
pub use script::{Script, ScriptLine};
pub use vme_core::OutOfMemory;
pub use vme_grammar::{Line, LineFault, parse_line};
pub use vme_shared::{LineReply, Mailbox};
