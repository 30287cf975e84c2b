//! Address maps: which board a cycle of the data transfer bus selects. Each board has a range in
//! the short, standard or extended address space (ANSI/IEEE Std 1014-1987, section 2.3.5).
//! [`AddressMap::new`] refuses a map in which two ranges of a space share an address.
#![tactic(auto)]

mod entry;
mod fault;
mod laws;
mod map;
mod table;

pub use entry::Entry;
pub use fault::MapFault;
pub use laws::{
    one_entry_covers, overlap_is_a_shared_address, selected_is_the_one,
    selection_goes_by_the_address,
};
pub use map::{AddressMap, check};
