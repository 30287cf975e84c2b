//! Devices: sources of bytes ([`Source`]) and sinks of bytes ([`Sink`]). Each has a mark that a
//! failure sets. A device may have a byte model, a list of the bytes that are left or that were
//! written; contracts then state which bytes were read and written.
#![tactic(auto)]

mod gather;
mod memory;
mod sink;
mod source;
mod system;

pub use gather::{WRITE_SIZE, flush_if_full};
pub use memory::{RoomSink, SliceSource};
pub use sink::{Sink, write_all};
pub use source::{Failed, Source};
pub use system::Io;
