ghost use Rattle.std.specs.Prelude.{◌≡◌, option_map};
ghost use Rattle.vme_core.specs.EventRefs.{call_asked};
ghost use Rattle.vme_master.specs.Events.{call_of_todo};

use vme_core::{Event, EventRef};

/// What a task does next.
#[derive(Debug, Drop)]
pub enum Todo {
    /// The driver performs this event and gives the task the reply.
    Call(Event),
    /// The task has ended. `Task::outcome` returns its outcome by reference, and
    /// `Task::into_outcome` by value.
    Finished,
}

impl Todo {
    /// The next step of a task that has begun, by its next event, if there is one.
    pub(crate) fn of(event_ref: Option<EventRef<'_>>) -> Todo
        ensures { call_of_todo result ≡ option_map call_asked event_ref.entry }
    {
        match event_ref {
            Some(event_ref) => Todo::Call(event_ref.to_event()),
            None => Todo::Finished,
        }
    }
}
