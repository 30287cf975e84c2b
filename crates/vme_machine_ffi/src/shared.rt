//! The locks and mailboxes of a processor.
ghost use Rattle.std.specs.Prelude.{◌≡◌, ℕ, Ok, None, Result, IfOk, IfSome, IfNone, IsSome};
ghost use Rattle.vme_shared.specs.declared.request.SharedRequest.{SharedRequest as AnyShared};
ghost use Rattle.vme_shared.specs.declared.request.SharedRequest.TheVariants as requests;
ghost use Rattle.vme_shared.specs.Mailboxes.{IsWellFormed};
ghost use Rattle.vme_processor.specs.Shared.{shared_outcome_of, shared_datum_of};
ghost use Rattle.vme_machine_ffi.specs.Results.{closed};
ghost use Rattle.vme_machine_ffi.specs.Shared.{AsksMailbox, StartsSharedAs, WritesWord, Shows, ShowsRequest, mailbox_of};

use crate::handle::VmeProcessor;
use crate::mailbox::{VmeMailbox, mailbox_of};
use crate::results::CLOSED;
use crate::transfer::start_number;
use std::alloc::Global;
use vme_c_types::{BAD_CALL, OK, VmeDatum, VmeModify, VmeRequest, datum_from};
use vme_cycle::{Modify, Request};
use vme_processor::Processor;
use vme_shared::{SharedOutcome, SharedRequest};

/// Starts a lock, an unlock, a put or a take, if there is a request for it, and returns the number of
/// the start.
fn start_with(processor: &mut Processor, request: Result<SharedRequest, u8>) -> u8
    requires { IfOk request IsWellFormed }
    ensures { StartsSharedAs request result processor.old processor.new }
{
    let request = match request {
        Ok(request) => request,
        Err(number) => return number,
    };
    match processor.start_shared(request) {
        Ok(()) => OK,
        Err(fault) => start_number(fault),
    }
}

/// Starts a lock, an unlock, a put or a take of the processor in a struct.
fn start(alloc: Global, p: &mut VmeProcessor, request: Result<SharedRequest, u8>) -> u8
    requires { IfOk request IsWellFormed }
    ensures closed { IfNone p.old.handle.value ((result ≡ closed) × (p.new.handle.value ≡ None)) }
    ensures stays { IfSome p.old.handle.value (λ a. IsSome p.new.handle.value) }
    ensures open { IfSome p.old.handle.value (λ a. IfSome p.new.handle.value (λ b.
        StartsSharedAs request result a b)) }
{
    let Some(mut processor) = p.take(alloc) else {
        return CLOSED;
    };
    let result = start_with(&mut processor, request);
    *p = VmeProcessor::of(processor);
    result
}

/// Starts a lock: one read-modify-write (IEEE 1014-1987, 2.3.8) that sets bit 7 of a byte. Returns
/// `OK`; K1 to K9, the first refusal of that cycle; `BAD_CALL` if what the processor does over the
/// bus has not ended; or `CLOSED`.
#[unsafe(no_mangle)]
pub extern "C" fn vme_processor_start_lock(
    alloc: Global,
    p: &mut VmeProcessor,
    am: u8,
    addr: u32,
) -> u8
    ensures closed { IfNone p.old.handle.value ((result ≡ closed) × (p.new.handle.value ≡ None)) }
    ensures stays { IfSome p.old.handle.value (λ a. IsSome p.new.handle.value) }
    ensures open { IfSome p.old.handle.value (λ a. IfSome p.new.handle.value (λ b.
        StartsSharedAs (Ok (requests.Lock am addr)) result a b)) }
{
    start(alloc, p, Ok(SharedRequest::Lock { am, addr }))
}

/// Starts an unlock: one write of zero to the byte of a lock. Returns as `vme_processor_start_lock`.
#[unsafe(no_mangle)]
pub extern "C" fn vme_processor_start_unlock(
    alloc: Global,
    p: &mut VmeProcessor,
    am: u8,
    addr: u32,
) -> u8
    ensures closed { IfNone p.old.handle.value ((result ≡ closed) × (p.new.handle.value ≡ None)) }
    ensures stays { IfSome p.old.handle.value (λ a. IsSome p.new.handle.value) }
    ensures open { IfSome p.old.handle.value (λ a. IfSome p.new.handle.value (λ b.
        StartsSharedAs (Ok (requests.Unlock am addr)) result a b)) }
{
    start(alloc, p, Ok(SharedRequest::Unlock { am, addr }))
}

/// The request of a put, or the number of C13.
fn put_request(m: &VmeMailbox, word: u32) -> Result<SharedRequest, u8>
    ensures asks { AsksMailbox m.now (requests.Put (mailbox_of m.now) word) result }
    ensures lawful { IfOk result IsWellFormed }
{
    let mailbox = mailbox_of(m)?;
    Ok(SharedRequest::Put { mailbox, word })
}

/// The request of a take, or the number of C13.
fn take_request(m: &VmeMailbox) -> Result<SharedRequest, u8>
    ensures asks { AsksMailbox m.now (requests.Take (mailbox_of m.now)) result }
    ensures lawful { IfOk result IsWellFormed }
{
    let mailbox = mailbox_of(m)?;
    Ok(SharedRequest::Take { mailbox })
}

/// Starts a put of a word into a mailbox, which takes its lock, reads its counts, writes the word and
/// its count, and releases the lock. Returns as `vme_processor_start_lock`, with the refusal of the
/// lock's cycle, or else that of a read of the mailbox's last word; or the number of C13 if the
/// mailbox is not lawful.
#[unsafe(no_mangle)]
pub extern "C" fn vme_processor_start_put(
    alloc: Global,
    p: &mut VmeProcessor,
    m: &VmeMailbox,
    word: u32,
) -> u8
    ensures closed { IfNone p.old.handle.value ((result ≡ closed) × (p.new.handle.value ≡ None)) }
    ensures stays { IfSome p.old.handle.value (λ a. IsSome p.new.handle.value) }
    ensures open { IfSome p.old.handle.value (λ a. IfSome p.new.handle.value (λ b.
        (request : Result AnyShared ℕ) × AsksMailbox m.now (requests.Put (mailbox_of m.now) word) request
        × StartsSharedAs request result a b)) }
{
    let request = put_request(m, word);
    start(alloc, p, request)
}

/// Starts a take of the oldest word of a mailbox. Returns as `vme_processor_start_put`.
#[unsafe(no_mangle)]
pub extern "C" fn vme_processor_start_take(
    alloc: Global,
    p: &mut VmeProcessor,
    m: &VmeMailbox,
) -> u8
    ensures closed { IfNone p.old.handle.value ((result ≡ closed) × (p.new.handle.value ≡ None)) }
    ensures stays { IfSome p.old.handle.value (λ a. IsSome p.new.handle.value) }
    ensures open { IfSome p.old.handle.value (λ a. IfSome p.new.handle.value (λ b.
        (request : Result AnyShared ℕ) × AsksMailbox m.now (requests.Take (mailbox_of m.now)) request
        × StartsSharedAs request result a b)) }
{
    let request = take_request(m);
    start(alloc, p, request)
}

/// Writes the word of the last take, if it has taken one.
fn write_word(processor: &Processor, word: &mut u32) -> u8
    ensures { WritesWord (shared_outcome_of processor.now) word.old word.new result }
{
    match processor.shared_outcome() {
        Some(SharedOutcome::Took(taken)) => {
            *word = taken;
            OK
        }
        _ => BAD_CALL,
    }
}

/// Writes the word that the last take has taken, once it has ended. Returns `OK`; `BAD_CALL`, and
/// writes nothing, if what was started last is no take, has not ended or has taken no word; or
/// `CLOSED`.
#[unsafe(no_mangle)]
pub extern "C" fn vme_processor_word(alloc: Global, p: &mut VmeProcessor, word: &mut u32) -> u8
    ensures closed { IfNone p.old.handle.value ((result ≡ closed) × (word.new ≡ word.old) × (p.new.handle.value ≡ None)) }
    ensures stays { IfSome p.old.handle.value (λ a. p.new.handle.value ≡ p.old.handle.value) }
    ensures open { IfSome p.old.handle.value (λ a. WritesWord (shared_outcome_of a) word.old word.new result) }
{
    let Some(processor) = p.take(alloc) else {
        return CLOSED;
    };
    let result = write_word(&processor, word);
    *p = VmeProcessor::of(processor);
    result
}

/// The function of no read-modify-write, or of the one that sets bit 7.
fn function(number: u8) -> VmeModify
    ensures { result.function ≡ number }
{
    VmeModify {
        function: number,
        operand: datum_from(&[]),
        put: datum_from(&[]),
    }
}

/// Writes the request of a transfer of a lock or a mailbox, and the bytes that it writes.
fn write_request(request: &Request, out: &mut VmeRequest, bytes: &mut VmeDatum) -> u8
    ensures { ShowsRequest request.now out.old out.new bytes.old bytes.new result }
{
    let (addr, am, kind, n, f) = match request {
        Request::Read { am, addr, n } => (*addr, *am, 0, *n, function(0)),
        Request::Write {
            am,
            addr,
            bytes: written,
        } => {
            *bytes = datum_from(written.as_slice());
            (*addr, *am, 1, bytes.n, function(0))
        }
        Request::Modify {
            am,
            addr,
            n,
            f: Modify::Set,
        } => (*addr, *am, 4, *n, function(1)),
        _ => return BAD_CALL,
    };
    *out = VmeRequest {
        addr,
        count: 0,
        am,
        kind,
        n,
        f,
    };
    OK
}

/// Writes the request of the current transfer, if a lock, an unlock, a put or a take has not ended.
fn show(processor: &Processor, out: &mut VmeRequest, bytes: &mut VmeDatum) -> u8
    ensures { Shows (shared_datum_of processor.now) out.old out.new bytes.old bytes.new result }
{
    match processor.shared_datum() {
        Some(datum) => write_request(datum.plan().request(), out, bytes),
        None => BAD_CALL,
    }
}

/// Writes the request of the transfer at which a lock, an unlock, a put or a take is, and the bytes
/// of a write. Returns `OK`; `BAD_CALL`, and writes nothing, if what was started last is none of
/// these or has ended; or `CLOSED`.
#[unsafe(no_mangle)]
pub extern "C" fn vme_processor_transfer(
    alloc: Global,
    p: &mut VmeProcessor,
    out: &mut VmeRequest,
    bytes: &mut VmeDatum,
) -> u8
    ensures closed { IfNone p.old.handle.value ((result ≡ closed) × (out.new ≡ out.old)
        × (bytes.new ≡ bytes.old) × (p.new.handle.value ≡ None)) }
    ensures stays { IfSome p.old.handle.value (λ a. p.new.handle.value ≡ p.old.handle.value) }
    ensures open { IfSome p.old.handle.value (λ a.
        Shows (shared_datum_of a) out.old out.new bytes.old bytes.new result) }
{
    let Some(processor) = p.take(alloc) else {
        return CLOSED;
    };
    let result = show(&processor, out, bytes);
    *p = VmeProcessor::of(processor);
    result
}
