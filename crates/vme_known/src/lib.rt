//! What the accesses of a trace show of the bytes of a board whose memory at the start is not known,
//! and whether some memory explains them. Something that the trace does not show may write an open
//! byte at any time. [`KnownBytes`] takes one access after another.
#![tactic(auto)]

mod access;
mod byte;
mod known;
mod laws;

pub use access::Access;
pub use byte::Byte;
pub use known::KnownBytes;
pub use laws::{accesses_that_may_come_are_a_history, closed_bytes_have_no_unseen_stores};
