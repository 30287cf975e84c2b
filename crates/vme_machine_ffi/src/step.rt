//! The events of what a processor does over the bus.
ghost use Rattle.std.specs.Prelude.{◌≡◌, ◌⊎◌, None, IfSome, IfNone, IsSome};
ghost use Rattle.vme_processor.specs.Runs.{Stepped};
ghost use Rattle.vme_c_types.specs.Results.{bus_error, no_board};
ghost use Rattle.vme_machine_ffi.specs.Results.{closed};
ghost use Rattle.vme_machine_ffi.specs.Shared.{EndsShared};
ghost use Rattle.vme_machine_ffi.specs.Steps.{EndsOr, NumbersMet, RunsAs, StepsAs, StepsWithReply, WritesReply, reply_number};

use crate::calls::reply_number;
use crate::handle::VmeProcessor;
use crate::results::{BAD_STATE, BUSY, CLOSED, DENIED, EMPTY, FULL, HELD, MORE, SPENT, WAITING};
use std::alloc::Global;
use vme_c_types::{BAD_CALL, BUS_ERROR, NO_BOARD, OK, VmeDatum, datum_from};
use vme_core::EventReply;
use vme_master::OutcomeRef;
use vme_memory::Reply;
use vme_processor::{Met, Processor, StepFault};
use vme_shared::SharedOutcome;

/// The number of a bus error: of a board, or since no board responds.
fn error_number(processor: &Processor) -> u8
    ensures { (result ≡ bus_error) ⊎ (result ≡ no_board) }
{
    if processor.selects_a_board() {
        BUS_ERROR
    } else {
        NO_BOARD
    }
}

/// The number of the outcome of a lock, an unlock, a put or a take.
fn shared_number(processor: &Processor, outcome: SharedOutcome) -> u8
    ensures { EndsShared outcome result }
{
    match outcome {
        SharedOutcome::Taken => OK,
        SharedOutcome::Unlocked => OK,
        SharedOutcome::Busy => HELD,
        SharedOutcome::Put => OK,
        SharedOutcome::Took(_) => OK,
        SharedOutcome::Full => FULL,
        SharedOutcome::Empty => EMPTY,
        SharedOutcome::Spent => SPENT,
        SharedOutcome::Berr => error_number(processor),
        SharedOutcome::Denied => DENIED,
    }
}

/// The number of the end of what was started last, or another one if it has not ended.
fn end_or(processor: &Processor, other: u8) -> u8
    ensures { EndsOr processor.now other result }
{
    if let Some(outcome) = processor.shared_outcome() {
        return shared_number(processor, outcome);
    }
    match processor.outcome() {
        Some(OutcomeRef::Read(_)) => OK,
        Some(OutcomeRef::Done) => OK,
        Some(OutcomeRef::Old(_)) => OK,
        Some(OutcomeRef::Berr { .. }) => error_number(processor),
        Some(OutcomeRef::Denied) => DENIED,
        None => other,
    }
}

/// The number of a step by what it came to.
pub(crate) fn met_number(processor: &Processor, met: Met) -> u8
    ensures { NumbersMet met processor.now result }
{
    match met {
        Met::Event | Met::Freed => end_or(processor, MORE),
        Met::Waiting => end_or(processor, WAITING),
        Met::Nothing => end_or(processor, BAD_CALL),
        Met::Busy => BUSY,
        Met::Spent => SPENT,
        Met::NoBoard => BAD_STATE,
    }
}

/// Performs the next event.
// Its code stands once, apart from that of runs.
#[inline(never)]
fn step(processor: &mut Processor) -> Result<Option<EventReply>, StepFault>
    ensures { Stepped result processor.old processor.new }
{
    processor.step()
}

/// Performs the next event of a processor, and returns the number of the step.
fn step_silent(processor: &mut Processor) -> u8
    ensures { StepsAs result processor.old processor.new }
{
    let stepped = step(processor);
    met_number(processor, Met::of(&stepped))
}

/// Performs the next event of the transfer, lock, unlock, put or take that was started last, if no
/// other processor holds its object. Returns `BUSY`, and nothing has happened; `WAITING` if the
/// arbiter has not granted the bus; `MORE` if the task goes on; and at its end, with the bus
/// released, `OK`, `BUS_ERROR`, `NO_BOARD` or, if a command was denied, `DENIED`; of a lock `HELD`,
/// and of a put or a take also `HELD`, `FULL`, `EMPTY` or `SPENT`. After the end it returns the end
/// again. Returns `BAD_CALL` if nothing was started; `SPENT`, `BAD_STATE` or `CLOSED`.
#[unsafe(no_mangle)]
pub extern "C" fn vme_processor_step(alloc: Global, p: &mut VmeProcessor) -> u8
    ensures closed { IfNone p.old.handle.value ((result ≡ closed) × (p.new.handle.value ≡ None)) }
    ensures stays { IfSome p.old.handle.value (λ a. IsSome p.new.handle.value) }
    ensures open { IfSome p.old.handle.value (λ a. IfSome p.new.handle.value (λ b. StepsAs result a b)) }
{
    let Some(mut processor) = p.take(alloc) else {
        return CLOSED;
    };
    let result = step_silent(&mut processor);
    *p = VmeProcessor::of(processor);
    result
}

/// Makes steps of a processor, one after another, and returns the number of the last one.
fn run(processor: &mut Processor) -> u8
    ensures { RunsAs result processor.old processor.new }
{
    let met = processor.run();
    met_number(processor, met)
}

/// Makes steps as `vme_processor_step` does, one after another: until a step makes no event, the
/// arbiter has not granted the bus, or the bus is released. Returns the number of the last step:
/// `MORE` if the bus was released and the lock, unlock, put or take goes on, and otherwise as
/// `vme_processor_step`.
#[unsafe(no_mangle)]
pub extern "C" fn vme_processor_run(alloc: Global, p: &mut VmeProcessor) -> u8
    ensures closed { IfNone p.old.handle.value ((result ≡ closed) × (p.new.handle.value ≡ None)) }
    ensures stays { IfSome p.old.handle.value (λ a. IsSome p.new.handle.value) }
    ensures open { IfSome p.old.handle.value (λ a. IfSome p.new.handle.value (λ b. RunsAs result a b)) }
{
    let Some(mut processor) = p.take(alloc) else {
        return CLOSED;
    };
    let result = run(&mut processor);
    *p = VmeProcessor::of(processor);
    result
}

/// Writes the bytes of the reply of a step, if it has any, and returns the number of the reply.
fn write_reply(stepped: &Result<Option<EventReply>, StepFault>, out: &mut VmeDatum) -> u8
    ensures number { result ≡ reply_number stepped.now }
    ensures bytes { WritesReply stepped.now out.old out.new }
{
    if let Ok(Some(EventReply::Board(Reply::Bytes(datum)))) = stepped {
        *out = datum_from(datum.as_slice());
    }
    match stepped {
        Ok(Some(reply)) => reply_number(reply),
        Ok(None) => BAD_CALL,
        Err(StepFault::Busy) => BUSY,
        Err(StepFault::Spent) => SPENT,
        Err(StepFault::NoBoard) => BAD_STATE,
    }
}

/// Performs the next event of a processor, writes its reply, and returns the number of the step.
fn step_with_reply(processor: &mut Processor, reply: &mut u8, out: &mut VmeDatum) -> u8
    ensures { StepsWithReply result reply.new out.old out.new processor.old processor.new }
{
    let stepped = step(processor);
    *reply = write_reply(&stepped, out);
    met_number(processor, Met::of(&stepped))
}

/// As `vme_processor_step`. It writes the number of the reply to `reply`: `OK` or `BUS_ERROR` of a
/// board; `GRANTED`, `WAITING`, `DENIED` or `FREED` of the arbiter; or that of the cause why there is
/// no event, `BUSY`, `SPENT`, `BAD_STATE`, or `BAD_CALL` after the end. It writes the bytes that a
/// board's reply has to `out`.
#[unsafe(no_mangle)]
pub extern "C" fn vme_processor_step_reply(
    alloc: Global,
    p: &mut VmeProcessor,
    reply: &mut u8,
    out: &mut VmeDatum,
) -> u8
    ensures closed { IfNone p.old.handle.value ((result ≡ closed) × (reply.new ≡ reply.old)
        × (out.new ≡ out.old) × (p.new.handle.value ≡ None)) }
    ensures stays { IfSome p.old.handle.value (λ a. IsSome p.new.handle.value) }
    ensures open { IfSome p.old.handle.value (λ a. IfSome p.new.handle.value (λ b.
        StepsWithReply result reply.new out.old out.new a b)) }
{
    let Some(mut processor) = p.take(alloc) else {
        return CLOSED;
    };
    let result = step_with_reply(&mut processor, reply, out);
    *p = VmeProcessor::of(processor);
    result
}
