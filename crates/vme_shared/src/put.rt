ghost use Rattle.std.specs.Prelude.{◌≡◌};
ghost use Rattle.vme_shared.specs.Mailboxes.{IsMailbox};
ghost use Rattle.vme_shared.specs.declared.request.SharedRequest.TheVariants.{Put};
ghost use Rattle.vme_shared.specs.Machine.{shared_task};
ghost use Rattle.vme_shared.specs.Events.{IsNextOf};

use crate::mailbox::Mailbox;
use crate::request::SharedRequest;
use crate::task::SharedTask;
use crate::todo::SharedTodo;
use std::marker::Model;
use vme_core::EventReply;
use vme_cycle::CycleFault;
use vme_decode::AddressMap;

/// The task that puts a word into a mailbox, call by call.
#[derive(Debug, Drop)]
pub struct PutTask<'a> {
    task: SharedTask<'a>,
}

impl<'a> Model for PutTask<'a> {
    ghost use Rattle.vme_shared.specs.Machine.{SharedView};

    ghost Value = { SharedView };

    ghost view = { λ t. t.task };
}

impl<'a> PutTask<'a> {
    /// Returns the task that puts `word` into `mailbox`. The slot requests the bus on `level`.
    ///
    /// # Errors
    ///
    /// The refusal of the lock's transfer, or else that of a read of the mailbox's last word.
    pub fn start(
        map: &'a AddressMap,
        slot: u16,
        level: u8,
        mailbox: Mailbox,
        word: u32,
    ) -> Result<PutTask<'a>, CycleFault>
        requires { IsMailbox mailbox }
        ensures { result
            ≡ shared_task (record { map = map.now; slot = slot; level = level; request = Put mailbox word }) }
    {
        let task = SharedTask::start(map, slot, level, SharedRequest::Put { mailbox, word })?;
        Ok(PutTask { task })
    }

    /// Returns what the task does next. `reply` is `None` at the first call, and then the reply to
    /// the event that the call before returned.
    pub fn next(&mut self, reply: Option<EventReply>) -> SharedTodo
        ensures { IsNextOf self.old self.new reply result }
    {
        self.task.next(reply)
    }
}
