ghost use Rattle.std.specs.Prelude.{◌≡◌};
ghost use Rattle.vme_shared.specs.declared.request.SharedRequest.TheVariants.{Lock, Unlock};
ghost use Rattle.vme_shared.specs.Machine.{shared_task};
ghost use Rattle.vme_shared.specs.Events.{IsNextOf};

use crate::request::SharedRequest;
use crate::task::SharedTask;
use crate::todo::SharedTodo;
use std::marker::Model;
use vme_core::EventReply;
use vme_cycle::CycleFault;
use vme_decode::AddressMap;

/// The task that takes or releases a lock, call by call. The lock is bit 7 of a byte.
#[derive(Debug, Drop)]
pub struct LockTask<'a> {
    task: SharedTask<'a>,
}

impl<'a> Model for LockTask<'a> {
    ghost use Rattle.vme_shared.specs.Machine.{SharedView};

    ghost Value = { SharedView };

    ghost view = { λ t. t.task };
}

impl<'a> LockTask<'a> {
    /// Returns the task that takes a lock by one cycle: IEEE 1014-1987, 2.3.8 (read-modify-write).
    /// The slot requests the bus on `level`.
    ///
    /// # Errors
    ///
    /// The refusal of that cycle's request.
    pub fn lock(
        map: &'a AddressMap,
        slot: u16,
        level: u8,
        am: u8,
        addr: u32,
    ) -> Result<LockTask<'a>, CycleFault>
        ensures { result
            ≡ shared_task (record { map = map.now; slot = slot; level = level; request = Lock am addr }) }
    {
        let task = SharedTask::start(map, slot, level, SharedRequest::Lock { am, addr })?;
        Ok(LockTask { task })
    }

    /// Returns the task that releases a lock by one write of zero. The slot requests the bus on
    /// `level`.
    ///
    /// # Errors
    ///
    /// The refusal of that write.
    pub fn unlock(
        map: &'a AddressMap,
        slot: u16,
        level: u8,
        am: u8,
        addr: u32,
    ) -> Result<LockTask<'a>, CycleFault>
        ensures { result
            ≡ shared_task (record { map = map.now; slot = slot; level = level; request = Unlock am addr }) }
    {
        let task = SharedTask::start(map, slot, level, SharedRequest::Unlock { am, addr })?;
        Ok(LockTask { task })
    }

    /// Returns what the task does next. `reply` is `None` at the first call, and then the reply to
    /// the event that the call before returned.
    pub fn next(&mut self, reply: Option<EventReply>) -> SharedTodo
        ensures { IsNextOf self.old self.new reply result }
    {
        self.task.next(reply)
    }
}
