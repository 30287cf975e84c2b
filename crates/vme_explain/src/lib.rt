//! The texts of `bendrika explain`: what each code and reply of `vme`, each warning of `bendrika check`
//! and each rule of `bendrika judge` means, the rule behind it, an example, and what to do.
//!
//! Each code has one entry in one of eight tables. [`explain`] returns the texts that a line asks for,
//! and [`explain_all`] the table of docs/GUIDE.md.
#![tactic(auto)]

mod answer;
mod dump;
mod entry;
mod find;
mod json;
mod markdown;
mod plain;
mod tables;

pub use answer::{Answer, explain, explain_all};
pub use entry::{Example, Input, Text};
pub use find::{Asked, all, rules, text_of, texts_in};
pub use json::write_escaped;
