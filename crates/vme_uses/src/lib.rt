//! One short, proved use of each library crate, for others to copy. The README of each crate quotes
//! its use (`scripts/examples_of`).
#![tactic(auto)]

pub mod am;
pub mod arbiter;
pub mod bus_objects;
pub mod bus_wait;
pub mod config_toml;
pub mod cores;
pub mod cycle;
pub mod decode;
pub mod devices;
pub mod engines;
pub mod explore;
pub mod grammar;
pub mod lanes;
pub mod lexer;
pub mod line_task;
pub mod mailbox_laws;
pub mod master;
pub mod memory;
pub mod object;
pub mod port;
pub mod port_array;
pub mod reduce;
pub mod report;
pub mod run;
pub mod runner;
pub mod script;
pub mod shared;
pub mod states;
pub mod stepper;
pub mod threads;
