//! The run of a configuration on one thread, turn by turn: what each turn did on the bus
//! (ANSI/IEEE Std 1014-1987, chapters 2 and 3) or on a local port (`observation`), the text of a value
//! change dump of it (`dump`; VCD, IEEE 1364-2005, clause 18), and the dump of a whole run.
//!
//! The text is written while the run goes on, in large pieces; no list of events is kept.
#![tactic(auto)]

mod dump;
mod engine;
mod observation;
mod progress;
mod range;
mod save;
mod trace;
mod turns;

pub use dump::{Change, Code, Value, Variable, edge, is_code, push_event, value_over};
pub use engine::trace_engine;
pub use observation::{Activity, Grant, Observation, TransferredDatum, observe_turn};
pub use progress::Selection;
pub use range::EventRange;
pub use save::save_engine;
pub use trace::write_trace;
pub use turns::FileTurns;
