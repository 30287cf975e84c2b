//! The next step of a line.
ghost use Rattle.std.specs.Prelude.{◌≡◌, option_map};
ghost use Rattle.vme_core.specs.EventRefs.{call_asked};
ghost use Rattle.vme_line_task.specs.Events.{call_of_todo};

use vme_core::{Event, EventRef};

/// What a line does next.
#[derive(Debug, Drop)]
pub enum LineTodo {
    /// The driver performs this event and gives the line the reply.
    Call(Event),
    /// The line has ended. `LineTask::reply` lends its reply, and `LineTask::into_reply` returns
    /// it.
    Ended,
}

impl LineTodo {
    /// Returns the next step of a line that has begun: its next event, or `Ended` if there is none.
    pub(crate) fn of(event_ref: Option<EventRef<'_>>) -> LineTodo
        ensures { call_of_todo result ≡ option_map call_asked event_ref.entry }
    {
        match event_ref {
            Some(event_ref) => LineTodo::Call(event_ref.to_event()),
            None => LineTodo::Ended,
        }
    }
}
