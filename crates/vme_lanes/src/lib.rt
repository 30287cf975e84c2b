//! Byte locations: which strobes select which bytes of a group of four, and which data lanes carry
//! them (ANSI/IEEE Std 1014-1987, section 2.2.1). [`Strobes::of`] computes the strobes from the
//! first byte and the length of a location. [`Location::sense`] returns the location of some
//! strobes. A datum of eight bytes uses all eight lanes.
#![tactic(auto)]

mod lines;
mod location;

pub use lines::{
    DataLines, Datum, copy_bytes, pick, pick_wide, place, place_wide, placed_is_picked,
    wide_is_picked,
};
pub use location::{Location, Strobes, places_are_found, strobes_are_sensed};
