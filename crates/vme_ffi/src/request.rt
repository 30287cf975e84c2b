//! The requests of a master, and the lines of each of their data.
ghost use Rattle.std.specs.Prelude.{◌≡◌, ◌<◌, ◌≤◌, IfOk, IfErr, IsTrue, IsFalse};
ghost use Rattle.vme_cycle.specs.Lawful.{first_refusal, transfer_of};
ghost use Rattle.vme_cycle.specs.Plans.{signals_of, write_half_of};
ghost use Rattle.vme_cycle.specs.Requests.{count_of};
ghost use Rattle.vme_c_types.specs.Data.{datum_of};
ghost use Rattle.vme_c_types.specs.Results.{ok, bad_call, refusal_number};
ghost use Rattle.vme_ffi.specs.Requests.{request_of, is_modified};
ghost use Rattle.vme_ffi.specs.Lines.{lines_struct, Shows};
ghost use Rattle.vme_ffi.specs.Results.{request_result};

use crate::lines::{VmeLines, lines_from};
use std::mem;
use vme_c_types::{BAD_CALL, OK, VmeDatum, VmeRequest, datum_of, modify_of, refusal_number};
use vme_cycle::{Plan, Request};
use vme_lanes::Datum;

/// The request that a struct stands for, with the datum that it writes.
fn request_of(request: &VmeRequest, datum: &VmeDatum) -> Request
    ensures { result ≡ request_of request.now (datum_of datum.now) }
{
    let (am, addr, n) = (request.am, request.addr, request.n);
    match request.kind {
        0 => Request::Read { am, addr, n },
        1 => Request::Write {
            am,
            addr,
            bytes: datum_of(datum),
        },
        2 => Request::BlockRead {
            am,
            addr,
            n,
            count: request.count,
        },
        3 => Request::BlockFill {
            am,
            addr,
            n,
            count: request.count,
            bytes: datum_of(datum),
        },
        _ => Request::Modify {
            am,
            addr,
            n,
            f: modify_of(&request.f),
        },
    }
}

/// The result of the check of a request.
fn check(request: &Request) -> u8
    ensures { result ≡ request_result (first_refusal request.now) }
{
    match Plan::of(request) {
        Ok(_plan) => OK,
        Err(fault) => refusal_number(fault),
    }
}

/// Returns `OK` if a request is lawful, and otherwise its first refusal, K1 to K9. `datum` is one
/// that it writes.
#[unsafe(no_mangle)]
pub extern "C" fn vme_request_check(request: &VmeRequest, datum: &VmeDatum) -> u8
    ensures { result ≡ request_result (first_refusal (request_of request.now (datum_of datum.now))) }
{
    let request = request_of(request, datum);
    let result = check(&request);
    // A request can own a block. This one does not, so the library calls no allocator for its drop.
    mem::forget(request);
    result
}

/// Writes the lines of datum `i` of a request. Returns the first refusal of the request, or
/// `BAD_CALL` if it has no datum `i`.
fn write_lines(request: &Request, i: u16, out: &mut VmeLines) -> u8
    ensures lines { IfOk (transfer_of request.now) (λ t.
        i < count_of t.request → (result ≡ ok) × Shows out.new (signals_of t i)) }
    ensures exact { IfOk (transfer_of request.now) (λ t.
        i < count_of t.request → out.new ≡ lines_struct (signals_of t i)) }
    ensures past { IfOk (transfer_of request.now) (λ t.
        count_of t.request ≤ i → (result ≡ bad_call) × (out.new ≡ out.old)) }
    ensures refused { IfErr (transfer_of request.now) (λ fault.
        (result ≡ refusal_number fault) × (out.new ≡ out.old)) }
{
    let plan = match Plan::of(request) {
        Ok(plan) => plan,
        Err(fault) => return refusal_number(fault),
    };
    if i >= plan.len() {
        return BAD_CALL;
    }
    *out = lines_from(&plan.signals(i));
    OK
}

/// Writes the lines of datum `i` of a lawful request before a slave replies: IEEE 1014-1987, 2.3.6
/// (basic data transfer) to 2.3.9 (unaligned transfer). `datum` is datum `i` of a write. Returns
/// the first refusal of the request, or `BAD_CALL` if it has no datum `i`.
#[unsafe(no_mangle)]
pub extern "C" fn vme_request_lines(
    request: &VmeRequest,
    i: u16,
    datum: &VmeDatum,
    out: &mut VmeLines,
) -> u8
    ensures lines { IfOk (transfer_of (request_of request.now (datum_of datum.now))) (λ t.
        i < count_of t.request → (result ≡ ok) × Shows out.new (signals_of t i)) }
    ensures exact { IfOk (transfer_of (request_of request.now (datum_of datum.now))) (λ t.
        i < count_of t.request → out.new ≡ lines_struct (signals_of t i)) }
    ensures past { IfOk (transfer_of (request_of request.now (datum_of datum.now))) (λ t.
        count_of t.request ≤ i → (result ≡ bad_call) × (out.new ≡ out.old)) }
    ensures refused { IfErr (transfer_of (request_of request.now (datum_of datum.now))) (λ fault.
        (result ≡ refusal_number fault) × (out.new ≡ out.old)) }
{
    let request = request_of(request, datum);
    let result = write_lines(&request, i, out);
    mem::forget(request);
    result
}

/// Writes the lines of the write half of a read-modify-write that drives some bytes. Returns the
/// first refusal of the request, or `BAD_CALL` if it is not a read-modify-write of as many bytes.
fn write_half(request: &Request, bytes: &Datum, out: &mut VmeLines) -> u8
    ensures lines { IfOk (transfer_of request.now) (λ t. IsTrue (is_modified t.request bytes.now.items) →
        (result ≡ ok) × Shows out.new (write_half_of t bytes.now.items)) }
    ensures exact { IfOk (transfer_of request.now) (λ t. IsTrue (is_modified t.request bytes.now.items) →
        out.new ≡ lines_struct (write_half_of t bytes.now.items)) }
    ensures other { IfOk (transfer_of request.now) (λ t. IsFalse (is_modified t.request bytes.now.items) →
        (result ≡ bad_call) × (out.new ≡ out.old)) }
    ensures refused { IfErr (transfer_of request.now) (λ fault.
        (result ≡ refusal_number fault) × (out.new ≡ out.old)) }
{
    let plan = match Plan::of(request) {
        Ok(plan) => plan,
        Err(fault) => return refusal_number(fault),
    };
    if plan.modify().is_none() || bytes.len() != usize::from(plan.datum_len()) {
        return BAD_CALL;
    }
    *out = lines_from(&plan.write_half(bytes));
    OK
}

/// Writes the lines of the write half of a lawful read-modify-write that drives a datum: IEEE
/// 1014-1987, 2.3.8 (read-modify-write). Returns the first refusal of the request, or `BAD_CALL` if
/// it is not a read-modify-write of as many bytes.
#[unsafe(no_mangle)]
pub extern "C" fn vme_request_write_half(
    request: &VmeRequest,
    datum: &VmeDatum,
    out: &mut VmeLines,
) -> u8
    ensures lines { IfOk (transfer_of (request_of request.now (datum_of datum.now))) (λ t.
        IsTrue (is_modified t.request (datum_of datum.now)) →
        (result ≡ ok) × Shows out.new (write_half_of t (datum_of datum.now))) }
    ensures exact { IfOk (transfer_of (request_of request.now (datum_of datum.now))) (λ t.
        IsTrue (is_modified t.request (datum_of datum.now)) →
        out.new ≡ lines_struct (write_half_of t (datum_of datum.now))) }
    ensures other { IfOk (transfer_of (request_of request.now (datum_of datum.now))) (λ t.
        IsFalse (is_modified t.request (datum_of datum.now)) →
        (result ≡ bad_call) × (out.new ≡ out.old)) }
    ensures refused { IfErr (transfer_of (request_of request.now (datum_of datum.now))) (λ fault.
        (result ≡ refusal_number fault) × (out.new ≡ out.old)) }
{
    let request = request_of(request, datum);
    let result = write_half(&request, &datum_of(datum), out);
    mem::forget(request);
    result
}
