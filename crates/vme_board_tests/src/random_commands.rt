//! Random commands to boards that are driven by signals, by commands and by the local port. The
//! replies and the memories are those of an array of bytes.
use crate::support::{WHOLE, datum, memory_of, reply};
use std::process::Abort;
use vme_cycle::{Modify, Plan, Request, Signals};
use vme_lanes::{Datum, copy_bytes};
use vme_memory::{BoardCmd, ByteMemory, Reply};

/// A generator of numbers: a linear congruence modulo 2^64, of which the upper bits are used.
#[derive(Drop)]
struct Random {
    state: u64,
}

impl Random {
    fn below(&mut self, count: u32) -> u32 {
        self.state = self
            .state
            .wrapping_mul(6_364_136_223_846_793_005)
            .wrapping_add(1_442_695_040_888_963_407);
        (self.state >> 33) as u32 % count.max(1)
    }

    /// Returns `n` bytes, at most four.
    fn bytes(&mut self, n: u8) -> Datum {
        let mut bytes = Datum::new();
        for _ in 0..n.min(4) {
            let _ = bytes.try_push((self.below(256) & 0xff) as u8);
        }
        bytes
    }

    /// Returns what a command with data of `n` bytes does.
    fn action(&mut self, n: u8) -> Action {
        match self.below(6) {
            0 | 1 => Action::Read,
            2 => Action::Write(self.bytes(n)),
            3 => Action::Modify(Modify::Set),
            4 => Action::Modify(Modify::Exchange(self.bytes(n))),
            _ => Action::Modify(Modify::Add(self.bytes(n))),
        }
    }

    fn way(&mut self) -> Way {
        match self.below(3) {
            0 => Way::Local,
            1 => Way::Single,
            _ => Way::Block,
        }
    }

    /// Returns the number of bytes of a datum: three only in a single transfer.
    fn datum_len(&mut self, way: Way) -> u8 {
        match (self.below(4), way) {
            (0, _) => 1,
            (1, _) => 2,
            (2, Way::Single) => 3,
            _ => 4,
        }
    }

    /// Returns the number of data: more than one only in a block.
    fn count(&mut self, way: Way) -> u16 {
        match way {
            Way::Block => 1 + (self.below(5) & 7) as u16,
            Way::Local | Way::Single => 1,
        }
    }
}

/// The way of a command to a board: by the local port, or over the bus.
#[derive(Clone, Copy)]
enum Way {
    Local,
    Single,
    Block,
}

/// What a command does with the bytes at its offset.
#[derive(Drop)]
enum Action {
    Read,
    Write(Datum),
    Modify(Modify),
}

/// Returns the number of which the bytes are the digits, the most significant first.
fn number(bytes: &[u8]) -> u32 {
    let mut number = 0u32;
    for byte in bytes {
        number = number.wrapping_mul(256).wrapping_add(u32::from(*byte));
    }
    number
}

/// Returns the bytes with bit 7 of the first one set.
fn with_top_bit(bytes: &[u8]) -> Datum {
    let mut new = datum(bytes);
    if let Some(first) = new.as_mut_slice().first_mut() {
        *first |= 0x80;
    }
    new
}

/// Returns the sum of two numbers, in as many digits as the first has.
fn sum_of(bytes: &[u8], by: &[u8]) -> Datum {
    let digits = number(bytes).wrapping_add(number(by)).to_be_bytes();
    datum(&digits[digits.len().saturating_sub(bytes.len())..])
}

/// Returns the bytes that a function writes in place of some bytes.
fn modified(old: &[u8], f: &Modify) -> Datum {
    match f {
        Modify::Set => with_top_bit(old),
        Modify::Exchange(put) => copy_bytes(put),
        Modify::Add(by) => sum_of(old, by.as_slice()),
        Modify::Compare { expect, put } => datum(if expect.as_slice() == old {
            put.as_slice()
        } else {
            old
        }),
    }
}

fn overwrite(place: &mut [u8], bytes: &[u8]) {
    for (byte, put) in place.iter_mut().zip(bytes) {
        *byte = *put;
    }
}

/// Changes bytes as a command says, and returns the reply.
fn changed(place: &mut [u8], action: &Action) -> Reply {
    match action {
        Action::Read => Reply::Bytes(datum(place)),
        Action::Write(put) => {
            overwrite(place, put.as_slice());
            Reply::Done
        }
        Action::Modify(f) => {
            let old = datum(place);
            overwrite(place, modified(old.as_slice(), f).as_slice());
            Reply::Bytes(old)
        }
    }
}

/// Changes an array as a command to `n` bytes at `at` says, and returns the reply.
fn answer(bytes: &mut [u8], at: u32, n: u8, action: &Action) -> Reply {
    let (first, len) = (at as usize, usize::from(n));
    if first > bytes.len() || len > bytes.len() - first {
        return Reply::Berr;
    }
    changed(&mut bytes[first..first + len], action)
}

/// Checks the replies of both boards.
fn check_replies(rt: &impl Abort, by_signals: &Reply, by_commands: &Reply, wanted: &Reply) {
    assert_eq!(rt; *by_signals, *wanted);
    assert_eq!(rt; *by_commands, *wanted);
}

/// The number of bytes of each board.
const SIZE: u32 = 32;

const COMMANDS: u32 = 2_000;

/// An array of bytes, and two boards that receive the same commands.
#[derive(Drop)]
struct Trio {
    bytes: [u8; SIZE as usize],
    by_signals: ByteMemory,
    by_commands: ByteMemory,
}

impl Trio {
    /// Gives a command to the local port of both boards.
    fn local(&mut self, rt: &impl Abort, offset: u32, n: u8, action: &Action) {
        let command = local_command(offset, n, action);
        let wanted = answer(&mut self.bytes, offset, n, action);
        let by_signals = self.by_signals.local(&command);
        let by_commands = reply(&mut self.by_commands, &command);
        check_replies(rt, &by_signals, &by_commands, &wanted);
    }

    /// Makes the cycle of one datum of a transfer with the function `f`. Returns whether it ends
    /// without a bus error.
    fn cycle(
        &mut self,
        rt: &impl Abort,
        (signals, at): (Signals, u32),
        f: Option<&Modify>,
        n: u8,
        action: &Action,
    ) -> bool {
        let wanted = answer(&mut self.bytes, at, n, action);
        let shown = shown_again(rt, &signals);
        let by_signals = self.by_signals.cycle(&shown, at, f);
        let f = function_of(action);
        let command = BoardCmd::Cycle { signals, at, f };
        let by_commands = reply(&mut self.by_commands, &command);
        check_replies(rt, &by_signals, &by_commands, &wanted);
        !matches!(wanted, Reply::Berr)
    }

    /// Makes the transfer of a request, whose data have `n` bytes, up to the first bus error.
    fn transfer(&mut self, rt: &impl Abort, request: &Request, n: u8, action: &Action) {
        if let Ok(plan) = Plan::of(request) {
            for i in 0..plan.len() {
                let at = plan
                    .addr()
                    .wrapping_add(u32::from(i).wrapping_mul(u32::from(n)));
                if !self.cycle(rt, (plan.signals(i), at), plan.modify(), n, action) {
                    break;
                }
            }
        }
    }

    /// Gives the next random command to both boards.
    fn step(&mut self, rt: &impl Abort, random: &mut Random) {
        let offset = random.below(SIZE + 4);
        let way = random.way();
        let n = random.datum_len(way);
        let action = random.action(n);
        let count = random.count(way);
        self.give(rt, way, offset, n, count, &action);
    }

    /// Gives a command to both boards.
    fn give(&mut self, rt: &impl Abort, way: Way, offset: u32, n: u8, count: u16, action: &Action) {
        match way {
            Way::Local => self.local(rt, offset, n, action),
            Way::Single => self.transfer(rt, &single(offset, n, action), n, action),
            Way::Block => {
                if let Some(request) = block(offset, n, count, action) {
                    self.transfer(rt, &request, n, action);
                }
            }
        }
    }

    /// Checks that both boards have the bytes of the array.
    fn check(&self, rt: &impl Abort) {
        for (offset, byte) in (0..SIZE).zip(&self.bytes) {
            let found = (self.by_signals.byte(offset), self.by_commands.byte(offset));
            assert_eq!(rt; found, (Some(*byte), Some(*byte)));
        }
    }
}

/// Returns the signals that a slave sees on the lines that other signals drive.
fn shown_again(rt: &impl Abort, signals: &Signals) -> Signals {
    let shown = Signals::from_lines(
        signals.am(),
        signals.addr(),
        signals.strobes(),
        signals.write(),
        signals.lines(),
    );
    shown.expect(rt, "the strobes select no bytes")
}

/// Returns a copy of the function of a read-modify-write, and `None` for every other command.
fn function_of(action: &Action) -> Option<Modify> {
    match action {
        Action::Modify(f) => Some(f.copy()),
        Action::Read | Action::Write(_) => None,
    }
}

/// Returns the command to the local port.
fn local_command(offset: u32, n: u8, action: &Action) -> BoardCmd {
    match action {
        Action::Read => BoardCmd::LocalRead { offset, n },
        Action::Write(bytes) => BoardCmd::LocalWrite {
            offset,
            bytes: copy_bytes(bytes),
        },
        Action::Modify(f) => BoardCmd::LocalModify {
            offset,
            n,
            f: f.copy(),
        },
    }
}

/// Returns a request for one datum.
fn single(addr: u32, n: u8, action: &Action) -> Request {
    match action {
        Action::Read => Request::Read { am: 0x09, addr, n },
        Action::Write(bytes) => Request::Write {
            am: 0x0d,
            addr,
            bytes: copy_bytes(bytes),
        },
        Action::Modify(f) => Request::Modify {
            am: 0x09,
            addr,
            n,
            f: f.copy(),
        },
    }
}

/// Returns a request for a block of equal data, or `None` if there is no such block.
fn block(addr: u32, n: u8, count: u16, action: &Action) -> Option<Request> {
    match action {
        Action::Read => Some(Request::BlockRead {
            am: 0x0b,
            addr,
            n,
            count,
        }),
        Action::Write(bytes) => Some(Request::BlockFill {
            am: 0x0f,
            addr,
            n,
            count,
            bytes: copy_bytes(bytes),
        }),
        Action::Modify(_) => None,
    }
}

#[test]
fn boards_agree_with_an_array_of_bytes(rt: HostRuntime) {
    let mut random = Random { state: 1014 };
    let mut trio = Trio {
        bytes: [0; SIZE as usize],
        by_signals: memory_of(&rt, rt.alloc(), SIZE, WHOLE),
        by_commands: memory_of(&rt, rt.alloc(), SIZE, WHOLE),
    };
    for _ in 0..COMMANDS {
        trio.step(&rt, &mut random);
        trio.check(&rt);
    }
}
