//! Tests of the protocol of traces, through its public functions: a course of samples that breaks no
//! rule, and its copies with one line edited in some of them, which breaks one rule. They are a crate of
//! their own, so that no crate with tests is proved twice.
#![tactic(auto)]

#[cfg(test)]
mod answers;
#[cfg(test)]
mod course;
#[cfg(test)]
mod edits;
#[cfg(test)]
mod known;
#[cfg(test)]
mod ports;
#[cfg(test)]
mod transfers;
