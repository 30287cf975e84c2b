//! Which variables of a value change dump are the lines of a bus: the names that `bendrika trace`
//! writes, or those of a file in TOML.
#![tactic(auto)]

mod defaults;
mod document;
mod fault;
mod group;
mod map;
mod pattern;

pub use defaults::default_lines;
pub use document::read_lines;
pub use fault::{LinesFault, LinesProblem};
pub use group::Group;
pub use map::{LineMap, MOST_WANTED, Place, Wanted};
