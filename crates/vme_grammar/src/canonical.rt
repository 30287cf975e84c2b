//! Lines in canonical form, with one space between words and none at either end, parsed in one
//! pass.

mod bytes;
mod commands;
mod data;
mod fields;
mod line;
mod requests;

pub use line::{parse_canonical, parse_line};
