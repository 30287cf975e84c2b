//! Address modifiers of the data transfer bus: what the lines AM5 to AM0 state about a cycle
//! (ANSI/IEEE Std 1014-1987, section 2.2.2). The table has fourteen rows of that standard and four
//! rows for blocks of eight-byte data, whose codes are those of the 64-bit block transfer of VME64.
//! [`Am::from_code`] reads a code from its bits.
#![tactic(auto)]

mod code;

pub use code::{Am, AmFault, Kind, Space};
