//! A boxed processor that a caller outside of Rattle holds by its address.
#![tactic(auto)]

mod handle;
mod loose;

pub use handle::{Handle, Hidden};
