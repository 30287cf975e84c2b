use crate::outcome::SharedOutcome;
use vme_core::Event;

/// What a lock, an unlock, a put or a take does next.
#[derive(Debug, Drop)]
pub enum SharedTodo {
    /// The driver performs this event and gives the task the reply.
    Call(Event),
    /// The task has ended with this outcome.
    Finished(SharedOutcome),
}
