//! Requests of a master, the plan of a lawful request, and the signals that a plan drives
//! (ANSI/IEEE Std 1014-1987, chapter 2). The bytes of block transfers are in [`Block`]. Which
//! requests are lawful, and which refusal each other request has, is this project's profile of the
//! standard.
#![tactic(auto)]

mod block;
mod block_buffer;
mod block_fault;
mod fault;
mod laws;
mod modify;
mod plan;
mod repr;
mod request;
mod signals;
mod transfer;

pub use block::{BLOCK_LIMIT, Block};
pub use block_buffer::BlockBuffer;
pub use block_fault::BlockFault;
pub use fault::CycleFault;
pub use laws::{bytes_are_their_number, sums_are_modulo};
pub use modify::Modify;
pub use plan::Plan;
pub use repr::INLINE_LEN;
pub use request::Request;
pub use signals::Signals;
pub use transfer::Transfer;
