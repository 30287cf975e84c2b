//! Tests of counters, memories, address maps, the arbiter, the core and tasks, through their public
//! functions: tables of cases, properties of all codes, strobe patterns and byte locations, and
//! random commands. They are a crate of their own, so that no crate with tests is proved twice.
#![tactic(auto)]

#[cfg(test)]
mod arbitration;
#[cfg(test)]
mod blocks;
#[cfg(test)]
mod cores;
#[cfg(test)]
mod counters;
#[cfg(test)]
mod denials;
#[cfg(test)]
mod maps;
#[cfg(test)]
mod memories;
#[cfg(test)]
mod properties;
#[cfg(test)]
mod random_commands;
#[cfg(test)]
mod shared_course;
#[cfg(test)]
mod shared_tasks;
#[cfg(test)]
mod support;
#[cfg(test)]
mod transfers;
#[cfg(test)]
mod wide;
