//! A reader of value change dumps (IEEE 1364-2005, clause 18): it takes the bytes of a text one after
//! another, in memory that does not grow with the text, and shows the lines of a bus at each time.
#![tactic(auto)]

mod bits;
mod body;
mod bus;
mod change;
mod control;
mod fault;
mod header;
mod identifier;
mod mapping;
mod matching;
mod presence;
mod quick;
mod reader;
mod samples;
mod table;
mod variable;
mod word;

pub use bus::BusLines;
pub use control::ControlLine;
pub use fault::VcdFault;
pub use presence::Presence;
pub use reader::{Step, VcdReader};
