//! The protocol of the data transfer bus in a recorded trace (ANSI/IEEE Std 1014-1987): which sample
//! is the first that may not follow the ones before it, which rule it breaks, and the data that the
//! trace shows. [`Watch`] takes one sample after another; no configuration is needed.
#![tactic(auto)]

mod arbitration;
mod datum;
mod exchange;
mod handshake;
mod laws;
mod lines;
mod order;
mod place;
mod port;
mod rule;
mod sample;
mod scope;
mod transfer;
mod verdict;
mod watch;

pub use datum::Datum;
pub use handshake::Handshake;
pub use laws::{
    illegal_traces_are_legal_before, illegal_traces_stay_illegal,
    strobes_are_low_under_the_address_strobe,
};
pub use place::Place;
pub use port::{Local, Port, local_access};
pub use rule::Rule;
pub use sample::Sample;
pub use scope::{Mode, Scope};
pub use transfer::Transfer;
pub use verdict::{Verdict, judge};
pub use watch::Watch;
