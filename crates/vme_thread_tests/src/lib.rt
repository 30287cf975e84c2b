//! Tests with threads: ports and arrays of ports; scripts on threads, whose processors wait for each
//! other, read blocks, add to one word, and share locks and mailboxes; and waits for the bus. They
//! are a crate of their own so that the crates below are not proved twice.
#![tactic(auto)]

#[cfg(test)]
mod flags;
#[cfg(test)]
mod ports;
#[cfg(test)]
mod runs;
#[cfg(test)]
mod waits;
