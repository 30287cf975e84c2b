//! `libvme`: the data transfer bus (ANSI/IEEE Std 1014-1987) for C and the languages that call C.
//! The exports are the tables of the bus, the lines of each datum of a request, a slave over bytes
//! that the caller holds, the address decoder and the arbiter. Each takes and returns plain
//! structs, calls a function that has no structs, and states that function's contract for what the
//! structs stand for (`specs/`). These functions are those of the crates below, and for the slave
//! those of `src/slave/`. `include/vme.h` declares the exports.
#![tactic(auto)]

mod arbiter;
mod laws;
mod levels;
mod lines;
mod local;
mod map;
mod modify;
mod request;
mod results;
mod slave;
mod tables;
mod version;

pub use laws::block_writes_are_given_by_data;
