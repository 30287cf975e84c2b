//! The values of the keys of a configuration file, as plain data.
//!
//! A file is a TOML document. Each value has the kind of its key, and an absent key has its
//! default. The crate does not check slots, ranges, scripts or mailboxes.
#![tactic(auto)]

mod fault;
mod file;
mod keys;
mod read;
mod values;

pub use fault::DocumentFault;
pub use file::{BoardTable, ClassTable, FileTable, MailboxTable, RangeTable};
pub use keys::file_values;
pub use read::table_of;
