//! The grammar of request lines: what each line requests of the data transfer bus (ANSI/IEEE Std
//! 1014-1987, chapter 2), of the local port, of a lock or of a mailbox.
//!
//! The crate parses lines, and prints signals, outcomes, refusals and numbers. It knows no board and
//! no device.
#![tactic(auto)]

mod canonical;
mod commands;
mod counted;
mod fault;
mod form;
mod function;
mod laws;
mod line;
mod print;
mod requests;
mod shared;

pub use canonical::{parse_canonical, parse_line};
pub use fault::LineFault;
pub use laws::lines_are_spelled;
pub use line::{LINE_LIMIT, Line, parse_words};
pub use print::{
    print_berr, print_done, print_hex, print_line_refusal, print_number, print_old, print_read,
    print_refusal, print_signals,
};
