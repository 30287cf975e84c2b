//! The transfers of a processor over the bus.
ghost use Rattle.std.specs.Prelude.{◌≡◌, ℕ, Ok, None, Result, IfSome, IfNone, IsSome};
ghost use Rattle.vme_cycle.specs.declared.request.Request.{Request as AnyRequest};
ghost use Rattle.vme_processor.specs.Transfers.{outcome_of};
ghost use Rattle.vme_machine_ffi.specs.Requests.{read_request, modify_request, AsksWrite};
ghost use Rattle.vme_machine_ffi.specs.Results.{closed};
ghost use Rattle.vme_machine_ffi.specs.Transfers.{StartsAs, Copies, bytes_of, start_number};

use crate::handle::VmeProcessor;
use crate::request::{modify_request, read_request, write_request};
use crate::results::CLOSED;
use std::alloc::Global;
use vme_c_types::{BAD_CALL, NO_MEMORY, OK, VmeModify, VmeRequest, refusal_number};
use vme_cycle::Request;
use vme_master::OutcomeRef;
use vme_processor::{Processor, StartFault};

/// The number of a start that fails.
pub(crate) fn start_number(fault: StartFault) -> u8
    ensures { result ≡ start_number fault }
{
    match fault {
        StartFault::Running => BAD_CALL,
        StartFault::OutOfMemory => NO_MEMORY,
        StartFault::Refused(fault) => refusal_number(fault),
    }
}

/// Starts a transfer, if there is a request for it, and returns the number of the start.
#[inline(always)]
fn start_with(alloc: Global, processor: &mut Processor, request: Result<Request, u8>) -> u8
    ensures { StartsAs request result processor.old processor.new }
{
    let request = match request {
        Ok(request) => request,
        Err(number) => return number,
    };
    match processor.start(alloc, request) {
        Ok(()) => OK,
        Err(fault) => start_number(fault),
    }
}

/// Starts a transfer of the processor in a struct.
#[inline(always)]
fn start(alloc: Global, p: &mut VmeProcessor, request: Result<Request, u8>) -> u8
    ensures closed { IfNone p.old.handle.value ((result ≡ closed) × (p.new.handle.value ≡ None)) }
    ensures stays { IfSome p.old.handle.value (λ a. IsSome p.new.handle.value) }
    ensures open { IfSome p.old.handle.value (λ a. IfSome p.new.handle.value (λ b. StartsAs request result a b)) }
{
    let Some(mut processor) = p.take(alloc) else {
        return CLOSED;
    };
    let result = start_with(alloc, &mut processor, request);
    *p = VmeProcessor::of(processor);
    result
}

/// Starts a read over the bus: IEEE 1014-1987, 2.3.6 (basic data transfer) and 2.3.7 (block
/// transfer). Returns `OK`; K1 to K9, the first refusal of the request; `BAD_CALL` if what
/// the processor does over the bus has not ended; `NO_MEMORY` if a request that reads more than 40 bytes gets no buffer; or
/// `CLOSED`.
#[unsafe(no_mangle)]
pub extern "C" fn vme_processor_start_read(
    alloc: Global,
    p: &mut VmeProcessor,
    r: &VmeRequest,
) -> u8
    ensures closed { IfNone p.old.handle.value ((result ≡ closed) × (p.new.handle.value ≡ None)) }
    ensures stays { IfSome p.old.handle.value (λ a. IsSome p.new.handle.value) }
    ensures open { IfSome p.old.handle.value (λ a. IfSome p.new.handle.value (λ b.
        StartsAs (Ok (read_request r.now)) result a b)) }
{
    start(alloc, p, Ok(read_request(r)))
}

/// Starts a write of some bytes over the bus. Returns as `vme_processor_start_read`; `NO_MEMORY` if a
/// write of more than 40 bytes gets no copy of them.
#[unsafe(no_mangle)]
pub extern "C" fn vme_processor_start_write(
    alloc: Global,
    p: &mut VmeProcessor,
    r: &VmeRequest,
    bytes: &[u8],
) -> u8
    ensures closed { IfNone p.old.handle.value ((result ≡ closed) × (p.new.handle.value ≡ None)) }
    ensures stays { IfSome p.old.handle.value (λ a. IsSome p.new.handle.value) }
    ensures open { IfSome p.old.handle.value (λ a. IfSome p.new.handle.value (λ b.
        (request : Result AnyRequest ℕ) × AsksWrite r.now bytes.now request × StartsAs request result a b)) }
{
    let request = write_request(alloc, r, bytes);
    start(alloc, p, request)
}

/// Starts a read-modify-write over the bus: IEEE 1014-1987, 2.3.8 (read-modify-write). Returns as
/// `vme_processor_start_read`.
#[unsafe(no_mangle)]
pub extern "C" fn vme_processor_start_modify(
    alloc: Global,
    p: &mut VmeProcessor,
    r: &VmeRequest,
    f: &VmeModify,
) -> u8
    ensures closed { IfNone p.old.handle.value ((result ≡ closed) × (p.new.handle.value ≡ None)) }
    ensures stays { IfSome p.old.handle.value (λ a. IsSome p.new.handle.value) }
    ensures open { IfSome p.old.handle.value (λ a. IfSome p.new.handle.value (λ b.
        StartsAs (Ok (modify_request r.now f.now)) result a b)) }
{
    start(alloc, p, Ok(modify_request(r, f)))
}

/// The bytes of the outcome, if there is one.
fn bytes_of(processor: &Processor) -> &[u8]
    ensures { result.now ≡ bytes_of (outcome_of processor.now) }
{
    match processor.outcome() {
        Some(OutcomeRef::Read(bytes)) => bytes,
        Some(OutcomeRef::Old(bytes)) => bytes,
        Some(OutcomeRef::Berr { bytes, .. }) => bytes,
        _ => &[],
    }
}

/// Copies bytes to the head of a buffer, if they fit, and writes their number.
fn copy(bytes: &[u8], out: &mut [u8], count: &mut usize) -> u8
    ensures { Copies bytes.now out.old out.new count.new result }
{
    *count = bytes.len();
    if out.len() < bytes.len() {
        return BAD_CALL;
    }
    out[..bytes.len()].copy_from_slice(bytes);
    OK
}

/// Writes the bytes that the last transfer read, or the old ones of a read-modify-write, once it has
/// ended, and their number: 0 if there are none. Returns `OK`; `BAD_CALL` if they do not fit, and
/// writes only the number; or `CLOSED`, and writes nothing.
#[unsafe(no_mangle)]
pub extern "C" fn vme_processor_bytes(
    alloc: Global,
    p: &mut VmeProcessor,
    out: &mut [u8],
    count: &mut usize,
) -> u8
    ensures closed { IfNone p.old.handle.value ((result ≡ closed) × (out.new ≡ out.old) × (p.new.handle.value ≡ None)) }
    ensures stays { IfSome p.old.handle.value (λ a. p.new.handle.value ≡ p.old.handle.value) }
    ensures open { IfSome p.old.handle.value (λ a.
        Copies (bytes_of (outcome_of a)) out.old out.new count.new result) }
{
    let Some(processor) = p.take(alloc) else {
        return CLOSED;
    };
    let result = copy(bytes_of(&processor), out, count);
    *p = VmeProcessor::of(processor);
    result
}
