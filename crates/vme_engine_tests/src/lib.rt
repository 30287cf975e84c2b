//! Tests of the three engines with devices that fail at any byte, damaged or refused files, and
//! failed allocations, and of the uses in `vme_uses`, apart from these crates so that their proofs
//! are not repeated.
#![tactic(auto)]

#[cfg(test)]
mod cycles_rows;
#[cfg(test)]
mod cycles_wide;
#[cfg(test)]
mod devices;
#[cfg(test)]
mod faults;
#[cfg(test)]
mod files;
#[cfg(test)]
mod holds;
#[cfg(test)]
mod lines;
#[cfg(test)]
mod long_rows;
#[cfg(test)]
mod memory;
#[cfg(test)]
mod rows;
#[cfg(test)]
mod step_rows;
#[cfg(test)]
mod step_shared;
#[cfg(test)]
mod step_wide;
#[cfg(test)]
mod support;
#[cfg(test)]
mod surface;
#[cfg(test)]
mod surface_runs;
#[cfg(test)]
mod uses;
#[cfg(test)]
mod words;
