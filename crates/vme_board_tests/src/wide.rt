//! The replies of boards to data of eight bytes.
use crate::support::{WHOLE, datum, memory_of, signals_of};
use std::alloc::Global;
use std::process::Abort;
use vme_cycle::{Block, Modify, Plan, Request, Signals};
use vme_lanes::{Datum, Location, Strobes};
use vme_memory::{ByteMemory, Class, Reply, Width8To32};

static EIGHT: [u8; 8] = [1, 2, 3, 4, 5, 6, 7, 8];

/// Returns a read, or a write of `EIGHT`, of one datum at address 8.
fn request(write: bool) -> Request {
    if write {
        Request::BlockFill {
            am: 0x08,
            addr: 8,
            n: 8,
            count: 1,
            bytes: datum(&EIGHT),
        }
    } else {
        Request::BlockRead {
            am: 0x08,
            addr: 8,
            n: 8,
            count: 1,
        }
    }
}

/// Returns the reply of a board to the cycle of that read or write, at an offset.
fn reply_to(rt: &impl Abort, memory: &mut ByteMemory, write: bool, at: u32) -> Reply {
    memory.cycle(&signals_of(rt, &request(write)), at, None)
}

/// Checks the first bytes of a board.
fn check_row(rt: &impl Abort, memory: &ByteMemory, bytes: &[u8]) {
    assert_eq!(rt; memory.row(0).as_slice(), bytes);
}

#[test]
fn eight_bytes_lie_in_two_words(rt: HostRuntime) {
    let mut memory = memory_of(&rt, rt.alloc(), 16, WHOLE);
    assert_eq!(&rt; reply_to(&rt, &mut memory, true, 4), Reply::Done);
    check_row(
        &rt,
        &memory,
        &[0, 0, 0, 0, 1, 2, 3, 4, 5, 6, 7, 8, 0, 0, 0, 0],
    );
    assert_eq!(&rt;
        reply_to(&rt, &mut memory, false, 4),
        Reply::Bytes(datum(&EIGHT))
    );
}

/// Boards of twelve bytes that lack eight bytes at an offset, or the cycle.
static LACKS: [(Class, u32); 3] = [
    (WHOLE, 8),
    (
        Class {
            width: Width8To32::D16,
            uat: false,
            blt: true,
            rmw: true,
        },
        4,
    ),
    (
        Class {
            width: Width8To32::D32,
            uat: true,
            blt: false,
            rmw: true,
        },
        4,
    ),
];

#[test]
fn a_board_lacks_eight_bytes(rt: HostRuntime) {
    for (class, at) in &LACKS {
        let mut memory = memory_of(&rt, rt.alloc(), 12, *class);
        for write in [true, false] {
            assert_eq!(&rt; reply_to(&rt, &mut memory, write, *at), Reply::Berr);
        }
        check_row(&rt, &memory, &[0; 12]);
    }
}

/// Returns the signals with the strobes of another location.
fn shown_at(rt: &impl Abort, signals: &Signals, location: Location) -> Signals {
    let shown = Signals::from_lines(
        signals.am(),
        signals.addr(),
        Strobes::of(location),
        signals.write(),
        signals.lines(),
    );
    shown.expect(rt, "no location")
}

/// Locations other than BYTE(0-3).
static OTHER_LOCATIONS: [Location; 3] = [Location::Byte0, Location::Bytes01, Location::Bytes02];

/// Checks that a board of 16 bytes replies with a bus error to eight bytes with the strobes of other
/// locations, and to eight bytes with a function.
fn check_others(rt: &impl Abort, memory: &mut ByteMemory, signals: &Signals) {
    for location in &OTHER_LOCATIONS {
        let shown = shown_at(rt, signals, *location);
        assert_eq!(rt; memory.cycle(&shown, 0, None), Reply::Berr);
    }
    assert_eq!(rt; memory.cycle(signals, 0, Some(&Modify::Set)), Reply::Berr);
}

#[test]
fn other_cycles_with_the_code_are_bus_errors(rt: HostRuntime) {
    let mut memory = memory_of(&rt, rt.alloc(), 16, WHOLE);
    for write in [true, false] {
        check_others(&rt, &mut memory, &signals_of(&rt, &request(write)));
    }
    check_row(&rt, &memory, &[0; 16]);
}

/// Returns the bytes of a whole block, 2,048.
fn many(rt: &impl Abort, alloc: Global) -> Vec<u8> {
    let mut bytes = Vec::new(alloc);
    for i in 0..2048u16 {
        assert!(rt; bytes.push((i % 251) as u8).is_ok());
    }
    bytes
}

/// Returns a block write of these bytes at address 2048.
fn block_write(rt: &impl Abort, alloc: Global, bytes: &[u8]) -> Request {
    Request::BlockWrite {
        am: 0x0c,
        addr: 2048,
        n: 8,
        bytes: Block::from_slice(alloc, bytes).expect(rt, "no block"),
    }
}

/// Writes a block of 256 data to a board, from offset 1004 on.
fn write_block(rt: &impl Abort, memory: &mut ByteMemory, request: &Request) {
    let plan = Plan::of(request).expect(rt, "refused");
    assert!(rt; plan.len() == 256);
    for i in 0..plan.len() {
        let reply = memory.cycle(&plan.signals(i), 1004 + 8 * u32::from(i), None);
        assert!(rt; matches!(reply, Reply::Done));
    }
}

/// Returns the bytes of a reply.
fn bytes_of(rt: &impl Abort, reply: Reply) -> Datum {
    match reply {
        Reply::Bytes(bytes) => bytes,
        other => panic!(rt; "{other:?}"),
    }
}

/// Reads a block of 256 data from a board, from offset 1004 on, and returns its bytes.
fn read_block(
    rt: &impl Abort,
    alloc: Global,
    memory: &mut ByteMemory,
    request: &Request,
) -> Vec<u8> {
    let mut found = Vec::new(alloc);
    let plan = Plan::of(request).expect(rt, "refused");
    assert!(rt; plan.len() == 256);
    for i in 0..plan.len() {
        let reply = memory.cycle(&plan.signals(i), 1004 + 8 * u32::from(i), None);
        let bytes = bytes_of(rt, reply);
        assert!(rt; found.extend_from_slice(bytes.as_slice()).is_ok());
    }
    found
}

/// A block read of as many bytes as `many` returns, at address 2048.
const READ: Request = Request::BlockRead {
    am: 0x0c,
    addr: 2048,
    n: 8,
    count: 256,
};

#[test]
fn a_whole_block_is_read_again(rt: HostRuntime) {
    let mut memory = memory_of(&rt, rt.alloc(), 4096, WHOLE);
    let wanted = many(&rt, rt.alloc());
    let write = block_write(&rt, rt.alloc(), wanted.as_slice());
    write_block(&rt, &mut memory, &write);
    let found = read_block(&rt, rt.alloc(), &mut memory, &READ);
    assert_eq!(&rt; found.as_slice(), wanted.as_slice());
}
