//! The arbiter of the arbitration bus (ANSI/IEEE Std 1014-1987, chapter 3). Slots request the data
//! transfer bus on four levels, and at most one slot holds it. When the holder releases the bus,
//! the arbiter grants it to the first level with a request, and on that level to the lowest slot,
//! which is first on the grant daisy chain.
#![tactic(auto)]

mod arbiter;
mod command;
mod kind;
mod laws;
mod levels;
mod state;

pub use arbiter::{Arbiter, SLOTS};
pub use command::{ArbCmd, ArbReply};
pub use kind::ArbiterKind;
pub use laws::{
    at_most_three_go_before, first_level_then_lowest_slot, no_command_is_denied,
    one_slot_has_the_bus, pending_requests_are_a_set, replies_show_the_holder,
    replies_show_who_waits, states_are_orderly,
};
pub use state::{ArbiterState, PLACES};
