//! Where the parts of a configuration file stand in its text: its keys, values, headers, and the
//! bytes of its script lines.
//!
//! [`Outline::of`] walks a text that `toml` accepted. It judges nothing: what it meets out of order
//! ends the walk, and a part that it did not find stands at the start of the file.
#![tactic(auto)]

mod cursor;
mod lexer;
mod outline;
mod parts;
mod place;
mod repeated;
mod script;
mod span;
mod walk;

pub use cursor::{Cursor, Position};
pub use outline::Outline;
pub use place::{Key, Place, TableName};
pub use span::Span;
