//! The handshakes of a cycle.
ghost use Rattle.std.specs.Prelude.{◌≡◌, ◌≤◌};
ghost use Rattle.vme_trace.specs.Handshakes.{edge_of, carries_byte, is_data_len, answered, write_half, half_of, lines_after, is_berr, has_address_phase, unanswered_handshake, ending_handshake, first_of_datum, second_of_datum, first_handshake, second_handshake};

use crate::dump::edge::{FIRST, SECOND};
use crate::observation::{Activity, TransferredDatum};
use vme_core::EventReply;
use vme_cycle::{Modify, Signals};
use vme_lanes::Datum;
use vme_memory::Reply;

/// A handshake of a datum.
#[derive(Clone, Copy, Debug, PartialEq, Eq)]
pub struct Handshake {
    /// Whether it is the second of its event.
    pub late: bool,
    /// What the lines show.
    pub lines: Signals,
    /// Whether AS* falls for it.
    pub opens: bool,
    /// Whether the address is taken off the lines before it, which then carry data to the master.
    pub clears: bool,
    /// Whether WRITE* falls for it.
    pub falls: bool,
    /// Whether data are driven.
    pub carries: bool,
    /// Whether BERR* answers.
    pub berr: bool,
    /// Whether AS* rises after it.
    pub ends: bool,
}

impl Handshake {
    /// Returns an edge of the handshake, by the number of edges after its begin.
    pub(crate) fn edge(&self, after: u8) -> u8
        requires { after ≤ 9 }
        ensures { result ≡ edge_of self.now after }
    {
        if self.late {
            SECOND + after
        } else {
            FIRST + after
        }
    }
}

/// Returns the first handshake of an event, if it has one.
pub(crate) fn first_handshake(activity: &Activity, reply: &EventReply) -> Option<Handshake>
    ensures { result ≡ first_handshake activity.now reply.now }
{
    match (activity, reply) {
        (Activity::Releases(Some(signals)), _) => Some(unanswered_handshake(*signals)),
        (Activity::Transfers(datum), EventReply::Board(reply)) => Some(first_of_datum(
            datum, reply,
        )),
        _ => None,
    }
}

/// Returns the second handshake of an event, if it has one.
pub(crate) fn second_handshake(activity: &Activity, reply: &EventReply) -> Option<Handshake>
    ensures { result ≡ second_handshake activity.now reply.now }
{
    match (activity, reply) {
        (Activity::Transfers(datum), EventReply::Board(reply)) => second_of_datum(datum, reply),
        _ => None,
    }
}

/// The handshake of a cycle that no board answers.
fn unanswered_handshake(signals: Signals) -> Handshake
    ensures { result ≡ unanswered_handshake signals }
{
    Handshake {
        late: false,
        lines: signals,
        opens: true,
        clears: false,
        falls: false,
        carries: carries_byte(&signals) && !signals.am().wide(),
        berr: true,
        ends: true,
    }
}

/// The first handshake of a datum: the address phase of an eight-byte block, the read half of a
/// read-modify-write, or the datum.
fn first_of_datum(datum: &TransferredDatum, reply: &Reply) -> Handshake
    ensures { result ≡ first_of_datum datum.now reply.now }
{
    if has_address_phase(datum) {
        return Handshake {
            late: false,
            lines: datum.signals,
            opens: true,
            clears: false,
            falls: false,
            carries: false,
            berr: false,
            ends: false,
        };
    }
    let ends = half_of(datum, reply).is_none();
    let shake = ending_handshake(datum, reply, false);
    Handshake {
        opens: datum.first,
        ends: ends && shake.ends,
        ..shake
    }
}

/// The second handshake of a datum, if it has one: the first datum of an eight-byte block, or the
/// write half of a read-modify-write.
fn second_of_datum(datum: &TransferredDatum, reply: &Reply) -> Option<Handshake>
    ensures { result ≡ second_of_datum datum.now reply.now }
{
    if has_address_phase(datum) {
        let shake = ending_handshake(datum, reply, true);
        return Some(Handshake {
            clears: datum.signals.write(),
            ..shake
        });
    }
    let half = half_of(datum, reply)?;
    Some(Handshake {
        late: true,
        lines: half,
        opens: false,
        clears: false,
        falls: true,
        carries: true,
        berr: false,
        ends: true,
    })
}

/// The handshake that moves a datum and ends the transfer, if it is the last.
fn ending_handshake(datum: &TransferredDatum, reply: &Reply, late: bool) -> Handshake
    ensures { result ≡ ending_handshake datum.now reply.now late }
{
    let lines = lines_after(datum.signals, reply);
    let berr = is_berr(reply);
    Handshake {
        late,
        lines,
        opens: false,
        clears: false,
        falls: false,
        carries: carries_byte(&lines),
        berr,
        ends: berr || datum.last,
    }
}

/// Whether a transfer begins with an address phase of its own: ANSI/VITA 1-1994 (multiplexed block
/// transfers).
fn has_address_phase(datum: &TransferredDatum) -> bool
    ensures { result ≡ has_address_phase datum.now }
{
    datum.first && datum.signals.am().wide()
}

/// Whether a reply is a bus error.
pub(crate) fn is_berr(reply: &Reply) -> bool
    ensures { result ≡ is_berr reply.now }
{
    matches!(reply, Reply::Berr)
}

/// The lines after the reply: in a read with the bytes that the board drives.
fn lines_after(signals: Signals, reply: &Reply) -> Signals
    ensures { result ≡ lines_after signals reply.now }
{
    match reply {
        Reply::Bytes(bytes) => answered(signals, bytes),
        Reply::Done | Reply::Berr => signals,
    }
}

/// The write half of a read-modify-write that read some bytes.
fn half_of(datum: &TransferredDatum, reply: &Reply) -> Option<Signals>
    ensures { result ≡ half_of datum.now reply.now }
{
    match (&datum.function, reply) {
        (Some(function), Reply::Bytes(old)) => write_half(datum.signals, function, old),
        _ => None,
    }
}

/// The lines with the bytes that a board drives in reply.
fn answered(signals: Signals, bytes: &Datum) -> Signals
    ensures { result ≡ answered signals bytes.now.items }
{
    if is_data_len(&signals, bytes) {
        signals.answered(bytes.as_slice())
    } else {
        signals
    }
}

/// The lines of the write half of a read-modify-write: WRITE* is low, and the master drives the new
/// bytes.
fn write_half(signals: Signals, function: &Modify, old: &Datum) -> Option<Signals>
    ensures { result ≡ write_half signals function.now old.now.items }
{
    if !is_data_len(&signals, old) || !function.has_len(old.len() as u8) {
        return None;
    }
    let new = function.value(old);
    let driven = signals.answered(new.as_slice());
    Signals::from_lines(
        driven.am(),
        driven.addr(),
        driven.strobes(),
        false,
        driven.lines(),
    )
}

/// Whether code and strobes select as many bytes as there are.
fn is_data_len(signals: &Signals, bytes: &Datum) -> bool
    ensures { result ≡ is_data_len signals.now bytes.now.items }
{
    let len = signals.location().len();
    if !signals.am().wide() {
        return bytes.len() == usize::from(len);
    }
    len == 4 && bytes.len() == 8
}

/// Whether some lane carries a byte.
fn carries_byte(signals: &Signals) -> bool
    ensures { result ≡ carries_byte signals.now }
{
    signals.lines().lanes().iter().any(|lane| lane.is_some())
}
