//! The run of a configuration on one thread as a page of HTML: timing diagrams of some of its events,
//! and its report.
//!
//! The text is written while the run goes on, in large pieces; no list of events is kept.
#![tactic(auto)]

mod diagram;
mod diagrams;
mod drawing;
mod engine;
mod head;
mod line;
mod note;
mod page;
mod scripts;

pub use engine::page_engine;
pub use page::write_page;
