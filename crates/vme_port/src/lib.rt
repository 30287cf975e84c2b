//! A port: one object that callers on any threads share, each through a pass of its own. Its calls
//! make one legal history that only grows. A pass knows the prefix of that history that it has
//! seen.
#![tactic(auto)]

mod calls;
mod fault;
mod home;
mod laws;
mod pass;
mod port;
mod rule;
mod seats;
mod settle;
mod word;

pub use fault::{PortFault, Spent, TryFault};
pub use home::Home;
pub use laws::{calls_compose, calls_make_one_history};
pub use pass::Pass;
pub use port::Port;
pub use rule::Account;
pub use settle::Unsettled;
pub use word::{FREE, TAKEN, Taking, WANTED};
