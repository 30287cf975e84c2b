//! Structs of plain data that C has of the bus (ANSI/IEEE Std 1014-1987), what they stand for, and the
//! numbers of results: what the libraries for C have in common. `include/vme.h` declares the structs.
#![tactic(auto)]

mod board;
mod datum;
mod modify;
mod request;
mod results;

pub use board::{VmeClass, VmeEntry, class_of, entry_of, kind_of};
pub use datum::{VmeDatum, bytes_of, datum_from, datum_of, level_of};
pub use modify::{VmeModify, modify_of};
pub use request::VmeRequest;
pub use results::{
    BAD_CALL, BAD_COUNT, BUS_ERROR, NO_BOARD, NO_CYCLE, NO_MEMORY, OK, code_refusal_number,
    map_refusal_number, refusal_number,
};
