//! The traces that `bendrika trace` shows keep rules of the protocol of the bus: no sample of the values
//! of their variables breaks them (ANSI/IEEE Std 1014-1987).
#![tactic(auto)]

mod laws;

pub use laws::{
    boards_of_a_file_stand_in_order, our_traces_are_legal, our_traces_keep_the_bus_timer,
    our_traces_keep_the_rule_of_addresses, our_traces_keep_the_rule_of_codes,
    our_traces_keep_the_rule_of_data, our_traces_keep_the_rule_of_grants,
    our_traces_keep_the_rule_of_transfers, our_traces_keep_the_rule_of_undefined_lines,
    our_traces_keep_the_rules_of_the_control_lines, traces_that_keep_each_rule_are_legal,
};
