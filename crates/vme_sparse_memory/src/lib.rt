//! The memory of one board, of which only the words that are not zero are kept. Its replies are those
//! of a [`ByteMemory`](vme_memory::ByteMemory) with the same bytes.
#![tactic(auto)]

mod command;
mod entry;
mod laws;
mod memory;
#[cfg(test)]
mod tests;
mod word;

pub use laws::commands_reach_a_window;
pub use memory::SparseMemory;
