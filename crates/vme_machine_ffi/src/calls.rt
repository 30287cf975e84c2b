//! The events of a processor by the local port of its own board.
ghost use Rattle.std.specs.Prelude.{◌≡◌, None, IfSome, IfNone, IsSome};
ghost use Rattle.vme_bus_objects.specs.declared.command.BusCommand.TheVariants as commands;
ghost use Rattle.vme_memory.specs.declared.command.BoardCmd.TheVariants as board_commands;
ghost use Rattle.vme_machine_ffi.specs.Calls.{Does, Answers, AnswersDone, Writes, number_of};
ghost use Rattle.vme_c_types.specs.Data.{datum_of, modify_of};
ghost use Rattle.vme_c_types.specs.Results.{ok};
ghost use Rattle.vme_machine_ffi.specs.Results.{closed};

use crate::handle::VmeProcessor;
use crate::results::{BUSY, CLOSED, DENIED, FREED, GRANTED, SPENT, WAITING};
use std::alloc::Global;
use vme_arbiter::ArbReply;
use vme_c_types::{BUS_ERROR, OK, VmeDatum, VmeModify, datum_from, datum_of, modify_of};
use vme_core::EventReply;
use vme_memory::{BoardCmd, ByteMemory, Reply};
use vme_object::{CommandRef, Operation};
use vme_port::TryFault;
use vme_processor::LocalRead;

/// What a call came to.
#[derive(Drop)]
pub(crate) enum Called {
    /// One event, with this reply.
    Reply(EventReply),
    /// Nothing: another processor holds the object.
    Busy,
    /// Nothing: the object has made as many steps as can be counted.
    Spent,
    /// Nothing: the struct has no processor.
    Closed,
}

/// The number of a reply.
pub(crate) fn reply_number(reply: &EventReply) -> u8
    ensures { result ≡ number_of (Called.Reply reply.now) }
{
    match reply {
        EventReply::Board(Reply::Bytes(_) | Reply::Done) => OK,
        EventReply::Board(Reply::Berr) => BUS_ERROR,
        EventReply::Bus(ArbReply::Granted) => GRANTED,
        EventReply::Bus(ArbReply::Waiting) => WAITING,
        EventReply::Bus(ArbReply::Denied) => DENIED,
        EventReply::Bus(ArbReply::Freed) => FREED,
    }
}

/// The number of what a call came to.
fn number_of(called: &Called) -> u8
    ensures { result ≡ number_of called.now }
{
    match called {
        Called::Reply(reply) => reply_number(reply),
        Called::Busy => BUSY,
        Called::Spent => SPENT,
        Called::Closed => CLOSED,
    }
}

/// Writes the bytes of the reply, if it has any, and returns the number of the call.
fn answer(called: &Called, out: &mut VmeDatum) -> u8
    ensures number { result ≡ number_of called.now }
    ensures bytes { Writes called.now out.old out.new }
{
    if let Called::Reply(EventReply::Board(Reply::Bytes(datum))) = called {
        *out = datum_from(datum.as_slice());
    }
    number_of(called)
}

/// Performs one operation on the processor's own board, if no other processor holds it.
fn call<A: Operation<ByteMemory>>(alloc: Global, p: &mut VmeProcessor, operation: &A) -> Called
    ensures closed { IfNone p.old.handle.value ((result ≡ Called.Closed) × (p.new.handle.value ≡ None)) }
    ensures stays { IfSome p.old.handle.value (λ a. IsSome p.new.handle.value) }
    ensures open { IfSome p.old.handle.value (λ a. IfSome p.new.handle.value (λ b.
        Does (commands.Board (A.command operation.now)) result a b)) }
{
    let Some(mut processor) = p.take(alloc) else {
        return Called::Closed;
    };
    let called = match processor.try_own(operation) {
        Ok(reply) => Called::Reply(reply),
        Err(TryFault::Busy) => Called::Busy,
        Err(TryFault::Spent) => Called::Spent,
    };
    *p = VmeProcessor::of(processor);
    called
}

/// Reads `n` bytes, 1, 2 or 4, at offset `at` of the processor's own board by the local port.
/// Returns `OK` and writes the bytes, `BUS_ERROR`, `BUSY`, `SPENT` or `CLOSED`.
#[unsafe(no_mangle)]
pub extern "C" fn vme_processor_try_local_read(
    alloc: Global,
    p: &mut VmeProcessor,
    at: u32,
    n: u8,
    out: &mut VmeDatum,
) -> u8
    ensures closed { IfNone p.old.handle.value ((result ≡ closed) × (out.new ≡ out.old) × (p.new.handle.value ≡ None)) }
    ensures stays { IfSome p.old.handle.value (λ a. IsSome p.new.handle.value) }
    ensures open { IfSome p.old.handle.value (λ a. IfSome p.new.handle.value (λ b.
        Answers (commands.Board (board_commands.LocalRead at n)) result out.old out.new a b)) }
{
    let called = call(alloc, p, &LocalRead { offset: at, n });
    answer(&called, out)
}

/// Writes a datum of 1, 2 or 4 bytes at offset `at` of the processor's own board by the local port.
/// Returns `OK`, `BUS_ERROR`, `BUSY`, `SPENT` or `CLOSED`.
#[unsafe(no_mangle)]
pub extern "C" fn vme_processor_try_local_write(
    alloc: Global,
    p: &mut VmeProcessor,
    at: u32,
    datum: &VmeDatum,
) -> u8
    ensures closed { IfNone p.old.handle.value ((result ≡ closed) × (p.new.handle.value ≡ None)) }
    ensures stays { IfSome p.old.handle.value (λ a. IsSome p.new.handle.value) }
    ensures open { IfSome p.old.handle.value (λ a. IfSome p.new.handle.value (λ b.
        AnswersDone (commands.Board (board_commands.LocalWrite at (record { items = datum_of datum.now }))) result a b)) }
{
    let cmd = BoardCmd::LocalWrite {
        offset: at,
        bytes: datum_of(datum),
    };
    number_of(&call(alloc, p, &CommandRef { cmd: &cmd }))
}

/// Performs a read-modify-write of `n` bytes, 1, 2 or 4, at offset `at` of the processor's own board
/// by the local port. Returns `OK` and writes the old bytes, `BUS_ERROR`, `BUSY`, `SPENT` or
/// `CLOSED`.
#[unsafe(no_mangle)]
pub extern "C" fn vme_processor_try_local_modify(
    alloc: Global,
    p: &mut VmeProcessor,
    at: u32,
    n: u8,
    f: &VmeModify,
    out: &mut VmeDatum,
) -> u8
    ensures closed { IfNone p.old.handle.value ((result ≡ closed) × (out.new ≡ out.old) × (p.new.handle.value ≡ None)) }
    ensures stays { IfSome p.old.handle.value (λ a. IsSome p.new.handle.value) }
    ensures open { IfSome p.old.handle.value (λ a. IfSome p.new.handle.value (λ b.
        Answers (commands.Board (board_commands.LocalModify at n (modify_of f.now))) result out.old out.new a b)) }
{
    let cmd = BoardCmd::LocalModify {
        offset: at,
        n,
        f: modify_of(f),
    };
    let called = call(alloc, p, &CommandRef { cmd: &cmd });
    answer(&called, out)
}

/// Gives up a processor, and leaves the struct empty. Its machine can't be closed then. Returns `OK`
/// or `CLOSED`.
#[unsafe(no_mangle)]
pub extern "C" fn vme_processor_drop(alloc: Global, p: &mut VmeProcessor) -> u8
    ensures closed { IfNone p.old.handle.value (result ≡ closed) }
    ensures open { IfSome p.old.handle.value (λ a. result ≡ ok) }
    ensures empty { p.new.handle.value ≡ None }
{
    let Some(processor) = p.take(alloc) else {
        return CLOSED;
    };
    drop(processor);
    OK
}
