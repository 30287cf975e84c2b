//! Bus logs: a line of text for each datum of a data transfer bus, at its answer, and for each access
//! by a local port. The crate reads and prints lines; it judges nothing.
#![tactic(auto)]

mod cut;
mod entry;
mod fault;
mod fields;
mod parse;
mod parts;
mod print;
mod reader;
mod word;

pub use cut::cut_line;
pub use entry::{LogAccess, LogDatum, LogEntry};
pub use fault::LogFault;
pub use parse::parse_entry;
pub use print::{print_access, print_datum};
pub use reader::{LINE_LIMIT, LogReader};
