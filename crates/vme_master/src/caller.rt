ghost use Rattle.std.specs.Prelude.{◌≡◌, Ok, None, IfOk, IfSome};
ghost use Rattle.vme_memory.specs.Locals.{command_given};
ghost use Rattle.vme_core.specs.declared.event.EventReply.TheVariants as replies;
ghost use Rattle.vme_core.specs.Calls.{OnBoard, OnBus};
ghost use Rattle.vme_core.specs.EventRefs.{call_asked};

use vme_arbiter::{ArbCmd, ArbReply};
use vme_core::{DatumCycle, EventRef, EventReply};
use vme_memory::{BoardCmd, Reply};

/// What makes the calls of a task for one processor, such as the processor's pass on a thread. It
/// makes each call with a context, `E`. A method whose name begins with `try` never waits. `can` states when it can be asked for a call, and `performs`
/// that it made a call and got a reply. No clause states the cause of a fault, nor what the caller
/// is after one.
pub trait Caller<E> {
    ghost use Rattle.vme_core.specs.Calls.{Call};
    ghost use Rattle.vme_core.specs.declared.event.EventReply.{EventReply};

    /// The fault of a call.
    type Fault;

    ghost can: { E → Self → Call → Type 0 };

    ghost performs: { Call → EventReply → Self → Self → Type 0 };

    /// Performs a command on the arbiter, and returns its reply.
    ///
    /// # Errors
    ///
    /// The fault of the call.
    fn command_bus(&mut self, with: &E, cmd: &ArbCmd) -> Result<ArbReply, Self::Fault>
        requires { can with.now self.old (OnBus cmd.now) }
        ensures { IfOk result (λ reply. performs (OnBus cmd.now) (replies.Bus reply) self.old self.new) };

    /// Performs a command on the arbiter if the caller can do so without waiting, and returns its
    /// reply, or `None` if it can't.
    ///
    /// # Errors
    ///
    /// The fault of the call.
    fn try_command_bus(&mut self, with: &E, cmd: &ArbCmd) -> Result<Option<ArbReply>, Self::Fault>
        requires { can with.now self.old (OnBus cmd.now) }
        ensures made { IfOk result (λ tried. IfSome tried (λ reply.
            performs (OnBus cmd.now) (replies.Bus reply) self.old self.new)) }
        ensures not_now { result ≡ Ok None → self.new ≡ self.old };

    /// Performs a command on the board at index `board`, and returns its reply.
    ///
    /// # Errors
    ///
    /// The fault of the call.
    fn command_board(
        &mut self,
        with: &E,
        board: usize,
        cmd: &BoardCmd,
    ) -> Result<Reply, Self::Fault>
        requires { can with.now self.old (OnBoard board (command_given cmd.now)) }
        ensures { IfOk result (λ reply.
            performs (OnBoard board (command_given cmd.now)) (replies.Board reply) self.old self.new) };

    /// Moves a datum of a transfer to or from the board at index `board`, and returns its reply.
    ///
    /// # Errors
    ///
    /// The fault of the call.
    fn transfer_datum(
        &mut self,
        with: &E,
        board: usize,
        cycle: &DatumCycle<'_>,
    ) -> Result<Reply, Self::Fault>
        requires { can with.now self.old (OnBoard board (command_given cycle.now)) }
        ensures { IfOk result (λ reply.
            performs (OnBoard board (command_given cycle.now)) (replies.Board reply) self.old self.new) };

    /// Moves a datum of a transfer, as `transfer_datum` does, if the caller can do so without
    /// waiting, and returns the board's reply, or `None` if it can't.
    ///
    /// # Errors
    ///
    /// The fault of the call.
    fn try_datum(
        &mut self,
        with: &E,
        board: usize,
        cycle: &DatumCycle<'_>,
    ) -> Result<Option<Reply>, Self::Fault>
        requires { can with.now self.old (OnBoard board (command_given cycle.now)) }
        ensures made { IfOk result (λ tried. IfSome tried (λ reply.
            performs (OnBoard board (command_given cycle.now)) (replies.Board reply) self.old self.new)) }
        ensures not_now { result ≡ Ok None → self.new ≡ self.old };
}

/// Performs an event by one call of `caller`, and returns the reply.
///
/// # Errors
///
/// The fault of the call.
pub fn call_event<E, C: Caller<E>>(
    caller: &mut C,
    with: &E,
    event_ref: &EventRef<'_>,
) -> Result<EventReply, C::Fault>
    requires { C.can with.now caller.old (call_asked event_ref.now) }
    ensures { IfOk result (λ reply. C.performs (call_asked event_ref.now) reply caller.old caller.new) }
{
    match event_ref {
        EventRef::Bus(cmd) => Ok(EventReply::Bus(caller.command_bus(with, cmd)?)),
        EventRef::Board { board, cmd } => {
            Ok(EventReply::Board(caller.command_board(with, *board, cmd)?))
        }
        EventRef::Datum { board, cycle } => {
            Ok(EventReply::Board(caller.transfer_datum(with, *board, cycle)?))
        }
    }
}
