//! The output of `vme cycles` for a line, and the effect of the line on the board.
ghost use Rattle.std.specs.Prelude.{ℕ, ◌≡◌, ◌+◌, ◌++◌, ◌<◌, ◌≤◌, length, Some, IfOk, IfSome, OnOk};
ghost use Rattle.vme_cycle.specs.BlockBuffers.{block_limit};
ghost use Rattle.vme_cycle.specs.Lawful.{IsLawfulTransfer};
ghost use Rattle.vme_cycle.specs.Requests.{addr_of, function_of, datum_len, count_of};
ghost use Rattle.vme_cycle.specs.SignalLines.{row_len};
ghost use Rattle.vme_memory.specs.Steps.{HasLen};
ghost use Rattle.vme_grammar.specs.Texts.{outcome_text, output_line};
ghost use Rattle.vme_engines.specs.Answers.{outcome_of, final_signals, offset_of, reply_at, reply_to, write_half_text, datum_text, transfer_answer, request_answer, answer};

use crate::bus::Bus;
use crate::request::request_of;
use std::alloc::AllocError;
use vme_cycle::{BlockBuffer, Plan, Request, Signals};
use vme_grammar::{
    print_berr, print_done, print_line_refusal, print_old, print_read, print_refusal, print_signals,
};
use vme_memory::{Access, Reply};
use vme_shared::Status;

/// Processes a line: appends its output, and leaves the board as the line's cycles do. `replied` is
/// a buffer for the bytes that a transfer reads; each line reuses it.
#[tactic(auto, unfolding(crate::specs::Answers::answer))]
pub(crate) fn answer_line(
    bus: &mut Bus,
    line: &[u8],
    replied: &mut BlockBuffer,
    text: &mut Vec<u8>,
) -> Result<Status, AllocError>
    requires { block_limit ≤ replied.old.capacity }
    ensures capacity { replied.new.capacity ≡ replied.old.capacity }
    ensures text { OnOk result (text.new.items ≡ text.old.items ++ (answer bus.old line.now).text) }
    ensures board { OnOk result (bus.new ≡ (answer bus.old line.now).board) }
    ensures status { IfOk result (λ status. status ≡ (answer bus.old line.now).status) }
{
    match request_of(line) {
        Ok(None) => Ok(Status::Clean),
        Ok(Some(request)) => answer_request(bus, &request, replied, text),
        Err(fault) => {
            print_line_refusal(text, fault)?;
            Ok(Status::Marked)
        }
    }
}

/// Processes a request: appends its output, which is that of its data or its refusal.
fn answer_request(
    bus: &mut Bus,
    request: &Request,
    replied: &mut BlockBuffer,
    text: &mut Vec<u8>,
) -> Result<Status, AllocError>
    requires { block_limit ≤ replied.old.capacity }
    ensures capacity { replied.new.capacity ≡ replied.old.capacity }
    ensures text { OnOk result
        (text.new.items ≡ text.old.items ++ (request_answer bus.old request.now).text) }
    ensures board { OnOk result (bus.new ≡ (request_answer bus.old request.now).board) }
    ensures status { IfOk result (λ status. status ≡ (request_answer bus.old request.now).status) }
{
    match Plan::of(request) {
        Ok(plan) => answer_data(bus, &plan, replied, text),
        Err(fault) => {
            print_refusal(text, fault)?;
            Ok(Status::Marked)
        }
    }
}

/// Performs the cycle of each datum, up to the first that ends with a bus error, and appends the
/// signals of each and the outcome of the transfer.
#[tactic(auto, unfolding(crate::specs::Answers::transfer_answer))]
fn answer_data(
    bus: &mut Bus,
    plan: &Plan<'_>,
    replied: &mut BlockBuffer,
    text: &mut Vec<u8>,
) -> Result<Status, AllocError>
    requires lawful { IsLawfulTransfer plan.now }
    requires capacity { block_limit ≤ replied.old.capacity }
    ensures capacity { replied.new.capacity ≡ replied.old.capacity }
    ensures text { OnOk result (text.new.items
        ≡ text.old.items ++ (transfer_answer bus.old plan.now).text) }
    ensures board { OnOk result (bus.new ≡ (transfer_answer bus.old plan.now).board) }
    ensures status { IfOk result (λ status. status ≡ (transfer_answer bus.old plan.now).status) }
{
    let count = plan.len();
    let offset = offset_of(bus, plan);
    replied.clear();
    for i in 0..count {
        match answer_datum(bus, plan, i, offset, text)? {
            Reply::Bytes(datum) => replied.extend_from_slice(datum.as_slice()),
            Reply::Done => {}
            Reply::Berr => {
                print_berr(text, i, replied.as_slice())?;
                return Ok(Status::Marked);
            }
        }
    }
    print_outcome(text, plan, replied.as_slice())?;
    Ok(Status::Clean)
}

/// The offset of a plan's first byte on the board, if that byte selects the board.
fn offset_of(bus: &Bus, plan: &Plan<'_>) -> Option<u32>
    requires { 0 < count_of plan.now.request }
    ensures value { result ≡ offset_of plan.now }
    ensures within { IfSome result (λ offset.
        (offset < 4096) × (offset ≡ addr_of plan.now.request)) }
{
    bus.select(&plan.signals(0))
}

/// Performs the cycle of datum `i` and appends its signals. If the board replies to a
/// read-modify-write with bytes, the signals of the write half follow.
fn answer_datum(
    bus: &mut Bus,
    plan: &Plan<'_>,
    i: u16,
    offset: Option<u32>,
    text: &mut Vec<u8>,
) -> Result<Reply, AllocError>
    requires lawful { IsLawfulTransfer plan.now }
    requires in_count { i < count_of plan.now.request }
    requires offset { offset ≡ offset_of plan.now }
    requires within { IfSome offset (λ offset.
        (offset < 4096) × (offset ≡ addr_of plan.now.request)) }
    ensures text { OnOk result (text.new.items ≡ text.old.items
        ++ datum_text plan.now i (reply_to bus.old plan.now i).0) }
    ensures reply { IfOk result (λ reply. reply ≡ (reply_to bus.old plan.now i).0) }
    ensures board { OnOk result (bus.new ≡ (reply_to bus.old plan.now i).1) }
    ensures len { IfOk result (λ reply. HasLen reply (datum_len plan.now.request)) }
{
    let mut signals = plan.signals(i);
    let reply = reply_at(bus, plan, i, offset);
    drive_reply(&mut signals, &reply);
    print_signals(text, &signals)?;
    print_write_half(text, plan, &reply)?;
    Ok(reply)
}

/// Appends the signals of the write half of a read-modify-write, if its read half returned bytes.
fn print_write_half(text: &mut Vec<u8>, plan: &Plan<'_>, reply: &Reply) -> Result<(), AllocError>
    requires { HasLen reply.now (datum_len plan.now.request) }
    ensures { OnOk result (text.new.items ≡ text.old.items
        ++ write_half_text plan.now (function_of plan.now.request) reply.now) }
{
    let Some(f) = plan.modify() else {
        return Ok(());
    };
    match reply {
        Reply::Bytes(old) => print_signals(text, &plan.write_half(&f.value(old))),
        Reply::Done | Reply::Berr => Ok(()),
    }
}

/// Appends the outcome of a transfer without a bus error. `replied` contains the bytes that it
/// read.
fn print_outcome(text: &mut Vec<u8>, plan: &Plan<'_>, replied: &[u8]) -> Result<(), AllocError>
    ensures { OnOk result
        (text.new.items ≡ text.old.items
        ++ output_line (outcome_text (outcome_of plan.now replied.now))) }
{
    if plan.reads() {
        print_read(text, replied)
    } else if plan.modify().is_some() {
        print_old(text, replied)
    } else {
        print_done(text)
    }
}

/// Drives the data of the board's reply to a read, at the end of a cycle.
fn drive_reply(signals: &mut Signals, reply: &Reply)
    requires { (len : ℕ) × (row_len signals.old.am.wide signals.old.strobes ≡ Some len)
        × HasLen reply.now len }
    ensures { signals.new ≡ final_signals signals.old reply.now }
{
    match reply {
        Reply::Bytes(datum) => signals.answer(datum.as_slice()),
        Reply::Done | Reply::Berr => {}
    }
}

/// The reply to datum `i`: that of the board if it is selected, otherwise the bus error of the bus
/// timer. The board takes the datum without the signals of its cycle.
fn reply_at(bus: &mut Bus, plan: &Plan<'_>, i: u16, offset: Option<u32>) -> Reply
    requires lawful { IsLawfulTransfer plan.now }
    requires in_count { i < count_of plan.now.request }
    requires within { IfSome offset (λ offset.
        (offset < 4096) × (offset ≡ addr_of plan.now.request)) }
    ensures reply { result ≡ (reply_at bus.old plan.now i offset).0 }
    ensures board { bus.new ≡ (reply_at bus.old plan.now i offset).1 }
    ensures len { HasLen result (datum_len plan.now.request) }
{
    let Some(offset) = offset else {
        return Reply::Berr;
    };
    let at = offset + u32::from(i) * u32::from(plan.datum_len());
    bus.access(&Access::of_datum(plan.request(), i, at))
}
