//! Tests of configuration files, of the scripts in them and of reports, apart from `vme_script` and
//! `vme_report` so that their proofs are not repeated.
#![tactic(auto)]

#[cfg(test)]
mod bytes;
#[cfg(test)]
mod canonical;
#[cfg(test)]
mod files;
#[cfg(test)]
mod line_buffers;
#[cfg(test)]
mod lines;
#[cfg(test)]
mod mailboxes;
#[cfg(test)]
mod readers;
#[cfg(test)]
mod replies;
#[cfg(test)]
mod reports;
#[cfg(test)]
mod rows;
#[cfg(test)]
mod scripts;
#[cfg(test)]
mod shared_lines;
#[cfg(test)]
mod support;
#[cfg(test)]
mod turns;
