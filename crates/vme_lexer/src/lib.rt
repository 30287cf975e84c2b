//! Texts cut into lines, lines cut into words, and words read as numbers or bytes.
//!
//! A text is a byte slice. A line ends at LF, words are separated by spaces, and a line that begins
//! with `#` is a comment. The crate does not know what a line means.
#![tactic(auto)]

mod lines;
mod numbers;
mod parts;
mod words;

pub use lines::Lines;
pub use numbers::{
    decimal_number, exact_bytes, hex_bytes, hex_number, local_bytes, local_number, small_number,
};
pub use words::{Words, first_word, words_of};
