//! The memory of one board, and the replies of its slave to the cycles of the data transfer bus
//! (ANSI/IEEE Std 1014-1987, section 2.3.6: D08(EO), D16 and D32 slaves). The bytes lie in words of
//! 32 bits ([`merge`] and the other functions on words); contracts see a list of bytes.
#![tactic(auto)]

mod access;
mod apply;
mod board;
mod class;
mod command;
mod fault;
mod laws;
mod local;
mod reply;
mod storage;
mod word;

pub use access::Access;
pub use board::ByteMemory;
pub use class::{Class, Width8To32};
pub use command::BoardCmd;
pub use fault::MemoryFault;
pub use laws::{
    bytes_are_overwritten, cycles_are_the_requests_own, replies_have_their_form, written_is_read,
};
pub use reply::Reply;
pub use storage::Row;
pub use word::{
    byte_in, bytes_at, bytes_of, bytes_of_pair, driven_word, first_bytes, leading_word, merge,
    merge_across, merge_from, pair_of, placed_word, word_across, word_of,
};
