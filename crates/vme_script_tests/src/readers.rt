//! The values that a configuration returns: those of its file, or the defaults.
use crate::support::config_of;
use std::alloc::Global;
use std::process::Abort;
use vme_am::Am;
use vme_cycle::{Modify, Plan, Request};
use vme_memory::{BoardCmd, ByteMemory, Reply};
use vme_script::{Config, Line, Mailbox, Script};

/// Each key once, with a value other than its default.
static EACH_KEY: &str = "arbiter = \"priority\"
tries = 7
schedule = [[21, 5], [3, 2]]
rounds = 9
[[board]]
slot = 3
level = 1
space = \"a16\"
base = 0x20
size = 8
width = 16
uat = false
blt = false
rmw = false
supervisory = true
script = \"# the first word\\nlr 00000000 1\\n\\nr 2d 00000020 1\"
[[board]]
slot = 21
base = 0x40
size = 4096
[[mailbox]]
am = 9
addr = 0x48
slots = 2
[[mailbox]]
am = 0x0d
addr = 0x80
slots = 64
";

/// Returns the board that a code and an address select, and the offset from its base.
fn selected(config: &Config, code: u8, addr: u32) -> Option<(usize, u32)> {
    config.map().select_at(Am::from_code(code).ok()?, addr)
}

/// Returns whether a memory replies to the first cycle of a request without a bus error.
fn answers(rt: &impl Abort, memory: &mut ByteMemory, request: &Request) -> bool {
    let plan = Plan::of(request).expect(rt, "refused");
    assert!(rt; plan.len() != 0);
    let reply = memory.cycle(&plan.signals(0), plan.addr(), plan.modify());
    !matches!(reply, Reply::Berr)
}

/// A transfer at address 0.
enum Transfer {
    /// A read of so many bytes.
    Read(u8),
    /// A block of one datum of two bytes.
    Block,
    /// A read-modify-write of one byte.
    Modify,
}

fn request_of(transfer: &Transfer) -> Request {
    let (am, addr) = (0x0d, 0);
    match transfer {
        Transfer::Read(n) => Request::Read { am, addr, n: *n },
        Transfer::Block => Request::BlockRead {
            am: 0x0f,
            addr,
            n: 2,
            count: 1,
        },
        Transfer::Modify => Request::Modify {
            am,
            addr,
            n: 1,
            f: Modify::Set,
        },
    }
}

/// A double-byte, a quad-byte and a triple-byte transfer, a block and a read-modify-write, each
/// with whether a board with 16 data lines and all three kinds of transfers off responds to it.
static TRANSFERS: [(Transfer, bool); 5] = [
    (Transfer::Read(2), true),
    (Transfer::Read(4), false),
    (Transfer::Read(3), false),
    (Transfer::Block, false),
    (Transfer::Modify, false),
];

/// The mailboxes of the file.
static MAILBOXES: [Mailbox; 2] = [
    Mailbox {
        am: 9,
        addr: 0x48,
        slots: 2,
    },
    Mailbox {
        am: 0x0d,
        addr: 0x80,
        slots: 64,
    },
];

/// Checks the values of the file as a whole.
fn check_file(rt: &impl Abort, config: &Config) {
    assert_eq!(rt; (config.tries(), config.rounds()), (7, 9));
    assert_eq!(rt; config.schedule(), [(21, 5), (3, 2)].as_slice());
    assert_eq!(rt; config.mailboxes(), MAILBOXES.as_slice());
}

/// Checks the script of the first board.
fn check_script(rt: &impl Abort, script: &Script) {
    assert!(rt; script.len() == 2);
    assert_eq!(rt; (script.number(0), script.number(1)), (2, 4));
    assert!(rt;
        matches!(
            script.line(0),
            Line::Local(BoardCmd::LocalRead { offset: 0, n: 1 })
        )
    );
}

/// Checks the values of both boards.
fn check_boards(rt: &impl Abort, config: &Config) {
    assert!(rt; config.boards() == 2);
    assert_eq!(rt; (config.slot(0), config.level(0)), (3, 1));
    assert_eq!(rt; (config.slot(1), config.level(1)), (21, 3));
    check_script(rt, config.script(0));
    assert!(rt; config.script(1).len() == 0);
}

#[test]
fn gives_what_the_file_says(rt: HostRuntime) {
    let config = config_of(&rt, rt.alloc(), EACH_KEY);
    check_file(&rt, &config);
    check_boards(&rt, &config);
}

/// Checks the board that a code and an address select, and the offset from its base.
fn check_selected(
    rt: &impl Abort,
    config: &Config,
    code: u8,
    addr: u32,
    wanted: Option<(usize, u32)>,
) {
    assert_eq!(rt; selected(config, code, addr), wanted);
}

/// Returns the opening memory of a board.
fn memory_of(rt: &impl Abort, alloc: Global, config: &Config, board: usize) -> ByteMemory {
    assert!(rt; board < config.boards());
    config.memory(alloc, board).expect(rt, "no memory")
}

/// Checks the memories of both boards.
fn check_memories(rt: &impl Abort, first: &mut ByteMemory, second: &mut ByteMemory) {
    assert_eq!(rt; (first.size(), second.size()), (8, 4096));
    for (transfer, answered) in &TRANSFERS {
        let request = request_of(transfer);
        let answers = (answers(rt, first, &request), answers(rt, second, &request));
        assert_eq!(rt; answers, (*answered, true));
    }
}

#[test]
fn gives_ranges_and_memories(rt: HostRuntime) {
    let config = config_of(&rt, rt.alloc(), EACH_KEY);
    check_selected(&rt, &config, 0x2d, 0x24, Some((0, 4)));
    check_selected(&rt, &config, 0x29, 0x24, None);
    check_selected(&rt, &config, 0x09, 0x40, Some((1, 0)));
    let mut first = memory_of(&rt, rt.alloc(), &config, 0);
    let mut second = memory_of(&rt, rt.alloc(), &config, 1);
    check_memories(&rt, &mut first, &mut second);
}
