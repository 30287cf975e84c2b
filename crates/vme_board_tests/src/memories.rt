//! The replies of boards of several classes.
use crate::support::{NARROW, WHOLE, datum, memory_of, signals_of};
use std::alloc::Global;
use std::process::Abort;
use vme_cycle::{Block, Modify, Plan, Request};
use vme_lanes::Datum;
use vme_memory::{BoardCmd, ByteMemory, MemoryFault, Reply};

fn read(addr: u32, n: u8) -> Request {
    Request::Read { am: 0x0d, addr, n }
}

fn write(addr: u32, bytes: &[u8]) -> Request {
    Request::Write {
        am: 0x0d,
        addr,
        bytes: datum(bytes),
    }
}

fn block_read(addr: u32, n: u8, count: u16) -> Request {
    Request::BlockRead {
        am: 0x0b,
        addr,
        n,
        count,
    }
}

/// A transfer, with its bytes as a slice.
enum Transfer {
    Read(u32, u8),
    Write(u32, &'static [u8]),
    BlockRead(u32, u8, u16),
}

fn request_of(transfer: &Transfer) -> Request {
    match transfer {
        Transfer::Read(addr, n) => read(*addr, *n),
        Transfer::Write(addr, bytes) => write(*addr, bytes),
        Transfer::BlockRead(addr, n, count) => block_read(*addr, *n, *count),
    }
}

/// Returns the letter of a reply: `r` for bytes, `w` for a write, `b` for a bus error.
fn letter_of(reply: &Reply) -> u8 {
    match reply {
        Reply::Bytes(_) => b'r',
        Reply::Done => b'w',
        Reply::Berr => b'b',
    }
}

/// Returns the letters of the replies of a board at address 0 to the data of a request, up to the
/// first bus error.
fn answers(rt: &impl Abort, memory: &mut ByteMemory, request: &Request) -> Datum {
    let mut letters = Datum::new();
    let plan = Plan::of(request).expect(rt, "refused");
    for i in 0..plan.len() {
        let at = plan
            .addr()
            .wrapping_add(u32::from(i).wrapping_mul(u32::from(plan.datum_len())));
        let letter = letter_of(&memory.cycle(&plan.signals(i), at, plan.modify()));
        assert!(rt; letters.try_push(letter).is_ok());
        if letter == b'b' {
            break;
        }
    }
    letters
}

/// Checks the letters of the replies of a board at address 0 to a request.
fn check_answers(rt: &impl Abort, memory: &mut ByteMemory, request: &Request, letters: &[u8]) {
    assert_eq!(rt; answers(rt, memory, request).as_slice(), letters);
}

/// Transfers in order to one narrow board of 16 bytes, each with the letters of the replies.
static TRANSFERS: [(Transfer, &[u8]); 7] = [
    (Transfer::Read(0, 4), b"b"),
    (Transfer::Read(1, 2), b"b"),
    (Transfer::Read(0, 3), b"b"),
    (Transfer::Write(2, &[1, 2]), b"w"),
    (Transfer::Read(3, 1), b"r"),
    (Transfer::BlockRead(0, 1, 4), b"b"),
    (Transfer::Read(16, 1), b"b"),
];

#[test]
fn a_narrow_board_lacks_cycles(rt: HostRuntime) {
    let mut memory = memory_of(&rt, rt.alloc(), 16, NARROW);
    for (transfer, letters) in &TRANSFERS {
        check_answers(&rt, &mut memory, &request_of(transfer), letters);
    }
    let bytes = (memory.byte(2), memory.byte(3), memory.byte(16));
    assert_eq!(&rt; bytes, (Some(1), Some(2), None));
}

/// Returns a block write of three data of two bytes from address 18 on.
fn block_write(rt: &impl Abort, alloc: Global) -> Request {
    let bytes = Block::from_slice(alloc, &[1u8, 2, 3, 4, 5, 6]);
    Request::BlockWrite {
        am: 0x0f,
        addr: 18,
        n: 2,
        bytes: bytes.expect(rt, "no memory"),
    }
}

#[test]
fn a_block_ends_at_the_end_of_a_board(rt: HostRuntime) {
    let mut memory = memory_of(&rt, rt.alloc(), 20, WHOLE);
    check_answers(&rt, &mut memory, &block_read(16, 4, 2), b"rb");
    check_answers(&rt, &mut memory, &block_read(15, 1, 9), b"rrrrrb");
    check_answers(&rt, &mut memory, &block_write(&rt, rt.alloc()), b"wb");
    assert_eq!(&rt; (memory.byte(18), memory.byte(19)), (Some(1), Some(2)));
}

static SIZES: [(u32, Option<MemoryFault>); 5] = [
    (0, Some(MemoryFault::BadSize)),
    (4, None),
    (18, Some(MemoryFault::BadSize)),
    (1_048_576, None),
    (1_048_580, Some(MemoryFault::BadSize)),
];

#[test]
fn sizes_of_boards(rt: HostRuntime) {
    for (size, wanted) in &SIZES {
        let fault = ByteMemory::new(rt.alloc(), *size, WHOLE).err();
        assert_eq!(&rt; fault, *wanted);
    }
}

/// Returns the bytes of the reply to a command, empty after a write, or `None` for a bus error.
fn answer(memory: &mut ByteMemory, command: &BoardCmd) -> Option<Datum> {
    match memory.local(command) {
        Reply::Bytes(datum) => Some(datum),
        Reply::Done => Some(Datum::new()),
        Reply::Berr => None,
    }
}

/// A command to the local port, with its bytes as a slice.
enum Local {
    Read(u8),
    Write(&'static [u8]),
    Add(u8, &'static [u8]),
    Exchange(u8, &'static [u8]),
}

fn command(offset: u32, local: &Local) -> BoardCmd {
    match local {
        Local::Read(n) => BoardCmd::LocalRead { offset, n: *n },
        Local::Write(bytes) => BoardCmd::LocalWrite {
            offset,
            bytes: datum(bytes),
        },
        Local::Add(n, bytes) => BoardCmd::LocalModify {
            offset,
            n: *n,
            f: Modify::Add(datum(bytes)),
        },
        Local::Exchange(n, bytes) => BoardCmd::LocalModify {
            offset,
            n: *n,
            f: Modify::Exchange(datum(bytes)),
        },
    }
}

/// Commands in order to one board of 16 bytes: offset, command, bytes of the reply (empty after a
/// write, `None` for a bus error), and the byte at the offset after it.
static LOCALS: [(u32, Local, Option<&[u8]>, u8); 5] = [
    (15, Local::Write(&[0xaa, 0xbb]), None, 0),
    (13, Local::Write(&[0xaa, 0xbb]), Some(&[]), 0xaa),
    (13, Local::Read(3), None, 0xaa),
    (13, Local::Add(2, &[0x55, 0x46]), Some(&[0xaa, 0xbb]), 0),
    (12, Local::Exchange(4, &[1, 2]), None, 0),
];

/// Checks the bytes of the reply to a command: empty after a write, `None` for a bus error.
fn check_answer(
    rt: &impl Abort,
    memory: &mut ByteMemory,
    command: &BoardCmd,
    wanted: Option<&[u8]>,
) {
    let answered = answer(memory, command);
    let bytes = match &answered {
        Some(bytes) => Some(bytes.as_slice()),
        None => None,
    };
    assert_eq!(rt; bytes, wanted);
}

#[test]
fn the_local_port_takes_any_offset(rt: HostRuntime) {
    let mut memory = memory_of(&rt, rt.alloc(), 16, NARROW);
    for (offset, local, wanted, byte) in &LOCALS {
        check_answer(&rt, &mut memory, &command(*offset, local), *wanted);
        assert_eq!(&rt; memory.byte(*offset), Some(*byte));
    }
}

/// Returns a read of four bytes over the bus.
fn read_quad(rt: &impl Abort, addr: u32) -> BoardCmd {
    BoardCmd::Cycle {
        signals: signals_of(rt, &read(addr, 4)),
        at: addr,
        f: None,
    }
}

/// Commands in order to one board of 16 bytes, whose bytes lie in two words: the offset; the
/// command to the local port, or `None` for a read of four bytes over the bus; and the bytes of the
/// reply, empty after a write.
static ACROSS: [(u32, Option<Local>, &[u8]); 5] = [
    (3, Some(Local::Write(&[0xa1, 0xa2, 0xa3, 0xa4])), &[]),
    (0, None, &[0, 0, 0, 0xa1]),
    (4, None, &[0xa2, 0xa3, 0xa4, 0]),
    (
        2,
        Some(Local::Add(4, &[0, 0, 0, 1])),
        &[0, 0xa1, 0xa2, 0xa3],
    ),
    (2, Some(Local::Read(4)), &[0, 0xa1, 0xa2, 0xa4]),
];

#[test]
fn bytes_lie_across_words(rt: HostRuntime) {
    let mut memory = memory_of(&rt, rt.alloc(), 16, WHOLE);
    for (offset, local, wanted) in &ACROSS {
        let command = match local {
            Some(local) => command(*offset, local),
            None => read_quad(&rt, *offset),
        };
        check_answer(&rt, &mut memory, &command, Some(*wanted));
    }
}

#[test]
fn functions_want_their_switch(rt: HostRuntime) {
    let request = Request::Modify {
        am: 0x0d,
        addr: 4,
        n: 1,
        f: Modify::Set,
    };
    for (class, letters) in [(NARROW, b"b".as_slice()), (WHOLE, b"r")] {
        let mut memory = memory_of(&rt, rt.alloc(), 16, class);
        check_answers(&rt, &mut memory, &request, letters);
    }
}

/// Returns the cycle of a request for one datum at offset 4, with a function.
fn modifying(rt: &impl Abort, request: &Request) -> BoardCmd {
    BoardCmd::Cycle {
        signals: signals_of(rt, request),
        at: 4,
        f: Some(Modify::Set),
    }
}

/// Transfers of one byte at address 4 that have no read half.
static NO_READ_HALF: [Transfer; 2] = [Transfer::Write(4, &[1]), Transfer::BlockRead(4, 1, 1)];

#[test]
fn a_function_comes_with_a_read_half_alone(rt: HostRuntime) {
    let mut memory = memory_of(&rt, rt.alloc(), 16, WHOLE);
    for transfer in &NO_READ_HALF {
        let cycle = modifying(&rt, &request_of(transfer));
        check_answer(&rt, &mut memory, &cycle, None);
        assert_eq!(&rt; memory.byte(4), Some(0));
    }
}
