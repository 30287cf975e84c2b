//! The transfers of one datum over the bus that are started and run in one call.
ghost use Rattle.std.specs.Prelude.{◌≡◌, false, None, IfSome, IfNone, IsSome};
ghost use Rattle.vme_cycle.specs.Requests.{is_block_request};
ghost use Rattle.vme_cycle.specs.declared.request.Request.TheVariants as requests;
ghost use Rattle.vme_c_types.specs.Data.{datum_of, modify_of};
ghost use Rattle.vme_machine_ffi.specs.Results.{closed};
ghost use Rattle.vme_machine_ffi.specs.Singles.{TransfersAs, TransfersBy, TransfersDone, WritesEnd, end_number};

use crate::handle::VmeProcessor;
use crate::results::CLOSED;
use crate::step::met_number;
use crate::transfer::start_number;
use std::alloc::Global;
use vme_c_types::{BUS_ERROR, NO_BOARD, OK, VmeDatum, VmeModify, datum_from, datum_of, modify_of};
use vme_cycle::Request;
use vme_memory::Reply;
use vme_processor::{Processor, Transferred};

/// The number of the end of a transfer, by the reply of the board that responds, if one does.
fn end_number(reply: &Option<Reply>) -> u8
    ensures { result ≡ end_number reply.now }
{
    match reply {
        Some(Reply::Bytes(_) | Reply::Done) => OK,
        Some(Reply::Berr) => BUS_ERROR,
        None => NO_BOARD,
    }
}

/// Writes the bytes of a reply, if it has any.
fn write_end(reply: &Option<Reply>, out: &mut VmeDatum)
    ensures { WritesEnd reply.now out.old out.new }
{
    if let Some(Reply::Bytes(datum)) = reply {
        *out = datum_from(datum.as_slice());
    }
}

/// Makes a transfer. Returns the number of the call and the reply that ended the transfer, if one did.
#[inline(always)]
fn transfer_with(processor: &mut Processor, request: Request) -> (u8, Option<Reply>)
    requires { is_block_request request ≡ false }
    ensures { TransfersBy request result.1 result.0 processor.old processor.new }
{
    match processor.transfer(request) {
        Ok(Transferred::Ended(reply)) => (end_number(&reply), reply),
        Ok(Transferred::Kept(met)) => (met_number(processor, met), None),
        Err(fault) => (start_number(fault), None),
    }
}

/// Makes a transfer of the processor in a struct, as `transfer_with` does.
#[inline(always)]
fn transfer(alloc: Global, p: &mut VmeProcessor, request: Request) -> (u8, Option<Reply>)
    requires { is_block_request request ≡ false }
    ensures closed { IfNone p.old.handle.value
        ((result.0 ≡ closed) × (result.1 ≡ None) × (p.new.handle.value ≡ None)) }
    ensures stays { IfSome p.old.handle.value (λ a. IsSome p.new.handle.value) }
    ensures open { IfSome p.old.handle.value (λ a. IfSome p.new.handle.value (λ b.
        TransfersBy request result.1 result.0 a b)) }
{
    let Some(mut processor) = p.take(alloc) else {
        return (CLOSED, None);
    };
    let came = transfer_with(&mut processor, request);
    *p = VmeProcessor::of(processor);
    came
}

/// Reads `n` bytes over the bus by one cycle (IEEE 1014-1987, 2.3.6, basic data transfer): starts the
/// transfer and makes its events, one after another. If the transfer has ended, returns `OK` and
/// writes the bytes, or returns `BUS_ERROR` or `NO_BOARD`; the processor then has nothing started.
/// Returns `WAITING`, `BUSY`, `SPENT` or `BAD_STATE`, as `vme_processor_step`, if the transfer was
/// started and goes on, and `DENIED` if a command of it was denied. Otherwise nothing was started:
/// returns K1 to K9, the first refusal of the request; `BAD_CALL` if what the processor does over the
/// bus has not ended; or `CLOSED`.
#[unsafe(no_mangle)]
pub extern "C" fn vme_processor_read(
    alloc: Global,
    p: &mut VmeProcessor,
    am: u8,
    addr: u32,
    n: u8,
    out: &mut VmeDatum,
) -> u8
    ensures open { IfSome p.old.handle.value (λ a. IfSome p.new.handle.value (λ b.
        TransfersAs (requests.Read am addr n) result out.old out.new a b)) }
    ensures closed { IfNone p.old.handle.value ((result ≡ closed) × (out.new ≡ out.old) × (p.new.handle.value ≡ None)) }
    ensures stays { IfSome p.old.handle.value (λ a. IsSome p.new.handle.value) }
{
    let (result, reply) = transfer(alloc, p, Request::Read { am, addr, n });
    write_end(&reply, out);
    result
}

/// Writes a datum over the bus by one cycle. Returns as `vme_processor_read`, and writes no bytes.
#[unsafe(no_mangle)]
pub extern "C" fn vme_processor_write(
    alloc: Global,
    p: &mut VmeProcessor,
    am: u8,
    addr: u32,
    datum: &VmeDatum,
) -> u8
    ensures open { IfSome p.old.handle.value (λ a. IfSome p.new.handle.value (λ b.
        TransfersDone (requests.Write am addr (record { items = datum_of datum.now })) result a b)) }
    ensures closed { IfNone p.old.handle.value ((result ≡ closed) × (p.new.handle.value ≡ None)) }
    ensures stays { IfSome p.old.handle.value (λ a. IsSome p.new.handle.value) }
{
    let bytes = datum_of(datum);
    let (result, _) = transfer(alloc, p, Request::Write { am, addr, bytes });
    result
}

/// Performs a read-modify-write of `n` bytes over the bus (IEEE 1014-1987, 2.3.8). Returns as
/// `vme_processor_read`, and writes the old bytes.
#[unsafe(no_mangle)]
pub extern "C" fn vme_processor_modify(
    alloc: Global,
    p: &mut VmeProcessor,
    am: u8,
    addr: u32,
    n: u8,
    f: &VmeModify,
    out: &mut VmeDatum,
) -> u8
    ensures open { IfSome p.old.handle.value (λ a. IfSome p.new.handle.value (λ b.
        TransfersAs (requests.Modify am addr n (modify_of f.now)) result out.old out.new a b)) }
    ensures closed { IfNone p.old.handle.value ((result ≡ closed) × (out.new ≡ out.old) × (p.new.handle.value ≡ None)) }
    ensures stays { IfSome p.old.handle.value (λ a. IsSome p.new.handle.value) }
{
    let f = modify_of(f);
    let (result, reply) = transfer(alloc, p, Request::Modify { am, addr, n, f });
    write_end(&reply, out);
    result
}
