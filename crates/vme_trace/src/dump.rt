//! The text of a value change dump: the lines of the bus and of the local ports, event by event.
mod bus;
mod change;
pub mod edge;
mod event;
mod handshake;
mod header;
mod latest;
mod next;
mod port;
mod print;
mod slot;
mod values;
mod variable;

pub use change::{Change, Code, Value};
pub use event::push_event;
pub use latest::{is_code, value_over};
pub(crate) use next::{print_ending, print_next};
pub(crate) use values::{Shown, start_values};
pub use variable::Variable;
