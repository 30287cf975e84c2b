//! Functions that the tests of boards share: they make memories, data, maps and replies, and call
//! objects through their trait.
use std::alloc::Global;
use std::process::Abort;
use vme_arbiter::{ArbCmd, ArbReply};
use vme_core::EventReply;
use vme_cycle::{Plan, Request, Signals};
use vme_decode::{AddressMap, Entry};
use vme_lanes::Datum;
use vme_memory::{ByteMemory, Class, Reply, Width8To32};
use vme_object::Object;

/// A slave of 32 data lines that responds to all kinds of transfers.
pub const WHOLE: Class = Class {
    width: Width8To32::D32,
    uat: true,
    blt: true,
    rmw: true,
};

/// A slave of 16 data lines without unaligned transfers, block transfers or read-modify-writes.
pub const NARROW: Class = Class {
    width: Width8To32::D16,
    uat: false,
    blt: false,
    rmw: false,
};

/// Returns the memory of a board, all zero.
pub fn memory_of(rt: &impl Abort, alloc: Global, size: u32, class: Class) -> ByteMemory {
    ByteMemory::new(alloc, size, class).expect(rt, "no memory")
}

/// Returns the map of some entries.
pub fn map_of(rt: &impl Abort, alloc: Global, entries: &[Entry]) -> AddressMap {
    AddressMap::new(alloc, entries).expect(rt, "no map")
}

pub fn datum(bytes: &[u8]) -> Datum {
    Datum::try_from(bytes).unwrap_or_default()
}

/// Returns the signals of the one datum of a request.
pub fn signals_of(rt: &impl Abort, request: &Request) -> Signals {
    let plan = Plan::of(request).expect(rt, "refused");
    assert!(rt; plan.len() == 1);
    plan.signals(0)
}

/// Returns the reply to a command, by the trait only.
pub fn reply<O: Object>(object: &mut O, cmd: &O::Cmd) -> O::Reply {
    object.apply(cmd)
}

/// The request for the bus by slot 2, on level 3.
pub const ASK: ArbCmd = ArbCmd::Ask { slot: 2, level: 3 };

pub const LOOK: ArbCmd = ArbCmd::Look { slot: 2 };

pub const DONE: ArbCmd = ArbCmd::Done { slot: 2 };

/// The reply that a task receives.
#[derive(Clone, Copy, Debug, PartialEq, Eq)]
pub enum Given {
    Nothing,
    FromArbiter(ArbReply),
    /// Bytes that a board has read.
    Bytes(&'static [u8]),
    /// A board has written its bytes.
    Done,
    Berr,
}

pub const WAITING: Given = Given::FromArbiter(ArbReply::Waiting);

pub const GRANTED: Given = Given::FromArbiter(ArbReply::Granted);

pub const FREED: Given = Given::FromArbiter(ArbReply::Freed);

pub const DENIED: Given = Given::FromArbiter(ArbReply::Denied);

/// Returns the reply that `given` describes, or `None` for no reply.
pub fn replied(given: Given) -> Option<EventReply> {
    match given {
        Given::Nothing => None,
        Given::FromArbiter(arb_reply) => Some(EventReply::Bus(arb_reply)),
        Given::Bytes(bytes) => Some(EventReply::Board(Reply::Bytes(datum(bytes)))),
        Given::Done => Some(EventReply::Board(Reply::Done)),
        Given::Berr => Some(EventReply::Board(Reply::Berr)),
    }
}
