//! The accesses of a configuration file that a narrower processor makes in several, as lines of
//! their own: [`split_file`].
#![tactic(auto)]

mod blocks;
mod fault;
mod file;
mod form;
mod laws;
mod line;
mod part;
mod print;
mod text;

pub use fault::SplitFault;
pub use file::{LeftLine, Split, split_file};
pub use form::{Reason, SplitForm};
pub use laws::parts_are_the_bytes;
pub use part::{Part, parts_of, width_bytes};
pub use vme_memory::Width8To32;
