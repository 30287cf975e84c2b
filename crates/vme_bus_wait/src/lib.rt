//! How processors on threads wait for the bus (ANSI/IEEE Std 1014-1987, chapter 3): when each asks
//! the arbiter again, and which of them sleep until then. The crate grants nothing and prevents no
//! processor from asking, so no proof about the bus depends on it.
#![tactic(auto)]

mod counts;
mod sleeper;
mod wait_state;
mod waiters;

pub use wait_state::WaitState;
pub use waiters::BusWaiters;
