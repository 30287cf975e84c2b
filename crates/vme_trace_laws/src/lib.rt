//! Laws of waveforms: what a viewer shows of a handshake and of an event follows the rules of the bus;
//! and in a whole run each event is shown once, with the datum of a transfer; one slot drives BBSY*, a
//! grant goes to a slot that requests the bus, and AS* is low in each transfer. Polls that wait change no
//! line.
#![tactic(auto)]

mod addresses;
mod events;
mod grants;
mod handshakes;
mod polls;
mod runs;
mod strobes;

pub use addresses::the_address_stays_over_a_transfer;
pub use events::{events_end_at_rest, events_keep_the_rules, events_show_their_data};
pub use grants::{grants_end_at_the_slot_that_takes_them, grants_go_to_slots_that_request};
pub use handshakes::{
    answers_follow_the_strobes, data_stand_under_the_answer,
    strobes_are_low_under_the_address_strobe, the_address_stands_under_the_answer,
};
pub use polls::waiting_polls_change_no_line;
pub use runs::{each_event_is_shown_once, one_slot_drives_busy, runs_end_at_rest};
pub use strobes::the_address_strobe_stays_low_in_a_transfer;
