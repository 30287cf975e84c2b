//! The calls of a task: on a core, or by a caller.
ghost use Rattle.std.specs.Prelude.{◌≡◌, ◌≢◌, ◌<◌, Ok, Some, None, IfSome, IfOk, IfErr};
ghost use Rattle.vme_arbiter.specs.declared.command.ArbCmd.{ArbCmd as AnyArbCmd};
ghost use Rattle.vme_core.specs.Advances.{CanMake, AdvancesOn, ends_by_call};
ghost use Rattle.vme_core.specs.Calls.{OnBus};
ghost use Rattle.vme_core.specs.Machines.{process_count};
ghost use Rattle.vme_core.specs.NextSteps.{call_in};
ghost use Rattle.vme_master.specs.Callers.{AdvancesBy};
ghost use Rattle.vme_master.specs.Machine.{advance, to_do};

use crate::caller::Caller;
use crate::job::Job;
use crate::phase::Phase;
use crate::task::Task;
use vme_arbiter::ArbCmd;
use vme_core::Core;

impl Task<'_> {
    /// Performs the next event on `core` for processor `who`, gives the task the reply and returns
    /// whether the task has ended with this event. Without a next event nothing changes. With one,
    /// this is `event_ref`, `Core::apply_ref`, `advance` and `is_finished` in one, and faster, since
    /// neither event nor reply is copied in between.
    #[inline(always)]
    pub fn step_on(&mut self, core: &mut Core, who: usize) -> bool
        requires who { who < process_count core.old }
        requires can { CanMake core.old (call_in (to_do self.old)) }
        ensures step { AdvancesOn to_do advance who core.old core.new self.old self.new }
        ensures ended { result ≡ ends_by_call to_do self.old self.new }
    {
        // For speed the commands are spelled out here, as `BusJob::bus_command` has them.
        match (&self.job, self.phase) {
            (Job::Bus(job), Phase::Requesting) => {
                let (slot, level) = (job.slot, job.level);
                let reply = core.apply_bus(who, ArbCmd::Ask { slot, level });
                self.on_bus_reply(Phase::Requesting, reply);
                self.is_finished()
            }
            (Job::Bus(job), Phase::Polling) => {
                let reply = core.apply_bus(who, ArbCmd::Look { slot: job.slot });
                self.on_bus_reply(Phase::Polling, reply);
                self.is_finished()
            }
            (Job::Bus(job), Phase::Releasing { berr }) => {
                let reply = core.apply_bus(who, ArbCmd::Done { slot: job.slot });
                self.on_bus_reply(Phase::Releasing { berr }, reply);
                self.is_finished()
            }
            (Job::Bus(job), Phase::Transferring { i }) => {
                let (board, offset) = job.place.unwrap();
                let reply = core.apply_datum(who, board, &job.datum_at(board, offset, i));
                self.on_board_reply(Phase::Transferring { i }, &reply);
                self.is_finished()
            }
            (Job::Local(job), Phase::Transferring { i }) => {
                let reply = core.apply_board(who, job.board, &job.cmd);
                self.on_board_reply(Phase::Transferring { i }, &reply);
                self.is_finished()
            }
            _ => false,
        }
    }

    /// Performs the next event by a call of `caller`, gives the task the reply and returns whether
    /// the task has ended with this event. Without a next event nothing changes. With one, this is
    /// `event_ref`, `call_event`, `advance` and `is_finished` in one, and faster.
    ///
    /// # Errors
    ///
    /// The fault of the call. The task is unchanged.
    #[inline(always)]
    pub fn step_by<E, C>(&mut self, caller: &mut C, with: &E) -> Result<bool, C::Fault>
    where
        C: Caller<E>,
        requires { IfSome (call_in (to_do self.old)) (C.can with.now caller.old) }
        ensures step { IfOk result (λ _.
            AdvancesBy C.performs to_do advance caller.old caller.new self.old self.new) }
        ensures ended { IfOk result (λ ended. ended ≡ ends_by_call to_do self.old self.new) }
        ensures unchanged { IfErr result (λ _. self.new ≡ self.old) }
    {
        match self.try_step_by(caller, with)? {
            Some(ended) => Ok(ended),
            None => self.step_by_waiting(caller, with),
        }
    }

    /// Performs the next event as `step_by` does, if it is an event on the bus and `caller` can make
    /// its call without waiting. Otherwise nothing changes, and it returns `None`.
    ///
    /// # Errors
    ///
    /// The fault of the call. The task is unchanged.
    #[inline(always)]
    pub fn try_step_by<E, C>(&mut self, caller: &mut C, with: &E) -> Result<Option<bool>, C::Fault>
    where
        C: Caller<E>,
        requires { IfSome (call_in (to_do self.old)) (C.can with.now caller.old) }
        ensures step { IfOk result (λ tried. IfSome tried (λ _.
            AdvancesBy C.performs to_do advance caller.old caller.new self.old self.new)) }
        ensures ended { IfOk result (λ tried. IfSome tried (λ ended.
            ended ≡ ends_by_call to_do self.old self.new)) }
        ensures same_caller { result ≡ Ok None → caller.new ≡ caller.old }
        ensures same_task { result ≡ Ok None → self.new ≡ self.old }
        ensures unchanged { IfErr result (λ _. self.new ≡ self.old) }
    {
        let (Job::Bus(job), Phase::Transferring { i }) = (&self.job, self.phase) else {
            return self.try_step_by_bus(caller, with);
        };
        let Some((board, offset)) = job.place else {
            return Ok(None);
        };
        let cycle = job.datum_at(board, offset, i);
        let Some(reply) = caller.try_datum(with, board, &cycle)? else {
            return Ok(None);
        };
        self.on_board_reply(Phase::Transferring { i }, &reply);
        Ok(Some(self.is_finished()))
    }

    /// Performs the next event as `try_step_by` does, if it is a command to the arbiter. Otherwise
    /// nothing changes, and it returns `None`.
    ///
    /// # Errors
    ///
    /// The fault of the call. The task is unchanged.
    #[inline(always)]
    fn try_step_by_bus<E, C>(&mut self, caller: &mut C, with: &E) -> Result<Option<bool>, C::Fault>
    where
        C: Caller<E>,
        requires { IfSome (call_in (to_do self.old)) (C.can with.now caller.old) }
        ensures step { IfOk result (λ tried. IfSome tried (λ _.
            AdvancesBy C.performs to_do advance caller.old caller.new self.old self.new)) }
        ensures ended { IfOk result (λ tried. IfSome tried (λ ended.
            ended ≡ ends_by_call to_do self.old self.new)) }
        ensures same_caller { result ≡ Ok None → caller.new ≡ caller.old }
        ensures same_task { result ≡ Ok None → self.new ≡ self.old }
        ensures unchanged { IfErr result (λ _. self.new ≡ self.old) }
    {
        let Some(cmd) = self.bus_command() else {
            return Ok(None);
        };
        let Some(reply) = caller.try_command_bus(with, &cmd)? else {
            return Ok(None);
        };
        self.on_bus_reply(self.phase, reply);
        Ok(Some(self.is_finished()))
    }

    /// Performs the next event as `step_by` does, by a call that may wait, without trying it first.
    ///
    /// # Errors
    ///
    /// The fault of the call. The task is unchanged.
    #[inline(never)]
    pub fn step_by_waiting<E, C>(&mut self, caller: &mut C, with: &E) -> Result<bool, C::Fault>
    where
        C: Caller<E>,
        requires { IfSome (call_in (to_do self.old)) (C.can with.now caller.old) }
        ensures step { IfOk result (λ _.
            AdvancesBy C.performs to_do advance caller.old caller.new self.old self.new) }
        ensures ended { IfOk result (λ ended. ended ≡ ends_by_call to_do self.old self.new) }
        ensures unchanged { IfErr result (λ _. self.new ≡ self.old) }
    {
        let Some(cmd) = self.bus_command() else {
            return self.step_by_board(caller, with);
        };
        let reply = caller.command_bus(with, &cmd)?;
        self.on_bus_reply(self.phase, reply);
        Ok(self.is_finished())
    }

    /// Performs the next event, which is not a command to the arbiter, as `step_by` does. Without
    /// a next event nothing changes.
    ///
    /// # Errors
    ///
    /// The fault of the call. The task is unchanged.
    #[inline(always)]
    fn step_by_board<E, C>(&mut self, caller: &mut C, with: &E) -> Result<bool, C::Fault>
    where
        C: Caller<E>,
        requires other { (cmd : AnyArbCmd) → call_in (to_do self.old) ≢ Some (OnBus cmd) }
        requires can { IfSome (call_in (to_do self.old)) (C.can with.now caller.old) }
        ensures step { IfOk result (λ _.
            AdvancesBy C.performs to_do advance caller.old caller.new self.old self.new) }
        ensures ended { IfOk result (λ ended. ended ≡ ends_by_call to_do self.old self.new) }
        ensures unchanged { IfErr result (λ _. self.new ≡ self.old) }
    {
        match (&self.job, self.phase) {
            (Job::Bus(job), Phase::Transferring { i }) => {
                let (board, offset) = job.place.unwrap();
                let cycle = job.datum_at(board, offset, i);
                let reply = caller.transfer_datum(with, board, &cycle)?;
                self.on_board_reply(Phase::Transferring { i }, &reply);
                Ok(self.is_finished())
            }
            (Job::Local(job), Phase::Transferring { i }) => {
                let reply = caller.command_board(with, job.board, &job.cmd)?;
                self.on_board_reply(Phase::Transferring { i }, &reply);
                Ok(self.is_finished())
            }
            _ => Ok(false),
        }
    }

    /// Returns the command to the arbiter that comes next, if the next event is one.
    fn bus_command(&self) -> Option<ArbCmd>
        ensures next { IfSome result (λ cmd. call_in (to_do self.now) ≡ Some (OnBus cmd)) }
        ensures other { result ≡ None → (cmd : AnyArbCmd) → call_in (to_do self.now) ≢ Some (OnBus cmd) }
    {
        match &self.job {
            Job::Bus(job) => job.bus_command(self.phase),
            Job::Local(_) => None,
        }
    }
}
