//! Files that declare mailboxes, each with its first refusal, or lawful.
use crate::support::{check, check_files};
use std::alloc::{AllocError, Global};
use std::process::Abort;

/// Boards of 32 bytes: one that responds to all transfers, one with 16 data lines, one without
/// read-modify-writes, one next to the first, and one each in the short and the standard space for
/// supervisory codes.
static BOARDS: &str = "[[board]]
slot = 1
base = 0
size = 32
[[board]]
slot = 2
base = 0x1000
size = 32
width = 16
[[board]]
slot = 3
base = 0x2000
size = 32
rmw = false
[[board]]
slot = 4
base = 32
size = 32
[[board]]
slot = 5
space = \"a16\"
base = 0xffe0
size = 32
supervisory = true
[[board]]
slot = 6
space = \"a24\"
base = 0xffffe0
size = 32
supervisory = true
";

/// Mailboxes on the boards of `BOARDS`, each list with the file's first refusal.
static MAILBOXES: [(&str, &str); 32] = [
    ("", "lawful"),
    ("{ am = 9, addr = 0, slots = 1 }", "lawful"),
    ("{ am = 9, addr = 12, slots = 1 }", "lawful"),
    ("{ am = 0x0d, addr = 0, slots = 4 }", "lawful"),
    ("{ am = 0x2d, addr = 0xffe0, slots = 4 }", "lawful"),
    ("{ am = 0x3d, addr = 0xfffff0, slots = 1 }", "C13"),
    ("{ am = 0x3d, addr = 0xffffec, slots = 1 }", "lawful"),
    // Codes of other accesses, and a code of no access.
    ("{ am = 0x0a, addr = 0, slots = 1 }", "C13"),
    ("{ am = 0x0b, addr = 0, slots = 1 }", "C13"),
    ("{ am = 0x3e, addr = 0xffffe0, slots = 1 }", "C13"),
    ("{ am = 0x10, addr = 0, slots = 1 }", "C13"),
    ("{ am = 0x109, addr = 0, slots = 1 }", "C13"),
    // Codes that no board there responds to.
    ("{ am = 0x29, addr = 0xffe0, slots = 1 }", "C13"),
    ("{ am = 0x39, addr = 0, slots = 1 }", "C13"),
    ("{ am = 0x2d, addr = 0x1ffe0, slots = 1 }", "C13"),
    // Addresses and numbers of slots.
    ("{ am = 9, addr = 2, slots = 1 }", "C13"),
    ("{ am = 9, addr = 0, slots = 0 }", "C13"),
    ("{ am = 9, addr = 0, slots = 65 }", "C13"),
    ("{ am = 9, addr = 0, slots = 257 }", "C13"),
    ("{ am = 9, addr = 0, slots = -1 }", "C7"),
    ("{ am = 9, addr = 4294967296, slots = 1 }", "C7"),
    // Bytes past the end of a board, on two boards, and on no board.
    ("{ am = 9, addr = 0, slots = 5 }", "C13"),
    ("{ am = 9, addr = 16, slots = 1 }", "C13"),
    ("{ am = 9, addr = 64, slots = 1 }", "C13"),
    ("{ am = 9, addr = 0xfffffffc, slots = 1 }", "C13"),
    // Boards that cannot contain a mailbox.
    ("{ am = 9, addr = 0x1000, slots = 1 }", "C13"),
    ("{ am = 9, addr = 0x2000, slots = 1 }", "C13"),
    // Two mailboxes.
    (
        "{ am = 9, addr = 0, slots = 1 }, { am = 9, addr = 32, slots = 1 }",
        "lawful",
    ),
    (
        "{ am = 9, addr = 0, slots = 1 }, { am = 0x0d, addr = 12, slots = 1 }",
        "C13",
    ),
    (
        "{ am = 9, addr = 12, slots = 1 }, { am = 9, addr = 0, slots = 1 }",
        "C13",
    ),
    // Keys.
    ("{ am = 9, addr = 0 }", "C7"),
    ("{ am = 9, addr = 0, slots = 1, words = 1 }", "C7"),
];

/// Returns a file of these boards whose key `mailbox` has these tables.
fn mailboxes(alloc: Global, tables: &str, boards: &str) -> Result<String, AllocError> {
    format!(in alloc; "mailbox = [{tables}]\n{boards}")
}

/// Checks the first refusal of a file of these boards whose key `mailbox` has these tables.
fn check_tables(rt: &impl Abort, alloc: Global, tables: &str, boards: &str, wanted: &str) {
    let file = mailboxes(alloc, tables, boards).expect(rt, "no memory");
    check(rt, alloc, file.as_bytes(), wanted);
}

#[test]
fn reports_of_mailboxes(rt: HostRuntime) {
    for (tables, wanted) in &MAILBOXES {
        check_tables(&rt, rt.alloc(), tables, BOARDS, wanted);
    }
}

/// The numbers of mailboxes on one board of 512 bytes, and the file's first refusal.
static COUNTS: [(u16, &str); 3] = [(1, "lawful"), (16, "lawful"), (17, "C13")];

/// Returns a file of one board with so many mailboxes.
fn with_mailboxes(alloc: Global, count: u16) -> Result<String, AllocError> {
    let mut file = String::new(alloc);
    file.push_str("board = [{ slot = 1, base = 0, size = 512 }]\n")?;
    for k in 0..count {
        let addr = 20 * u32::from(k);
        let mailbox = format!(in alloc; "[[mailbox]]\nam = 9\naddr = {addr}\nslots = 1\n")?;
        file.push_str(mailbox.as_str())?;
    }
    Ok(file)
}

#[test]
fn has_sixteen_mailboxes_at_most(rt: HostRuntime) {
    for (count, wanted) in &COUNTS {
        let file = with_mailboxes(rt.alloc(), *count).expect(&rt, "no memory");
        check(&rt, rt.alloc(), file.as_bytes(), wanted);
    }
}

/// Scripts of a board on which two mailboxes are declared, and the file's first refusal.
static SCRIPTS: [(&str, &str); 9] = [
    ("put 1 00000001\\ntake 2\\ntake 02", "lawful"),
    ("take 3", "C14 slot 1 line 1 S6"),
    ("put 3 00000001", "C14 slot 1 line 1 S6"),
    ("put 0 00000001", "C14 slot 1 line 1 S6"),
    ("take 00", "C14 slot 1 line 1 S6"),
    ("put 3 0000000", "C14 slot 1 line 1 S7"),
    ("put 3", "C14 slot 1 line 1 S3"),
    ("lock 09 0000003c\\ntake 99\\nx", "C14 slot 1 line 2 S6"),
    ("x\\ntake 3", "C14 slot 1 line 1 S2"),
];

/// Returns a board with a script.
fn board_of(alloc: Global, script: &str) -> Result<String, AllocError> {
    format!(in alloc; "board = [{{ slot = 1, base = 0, size = 64, script = \"{script}\" }}]")
}

#[test]
fn reports_of_a_mailbox_that_is_not_declared(rt: HostRuntime) {
    let tables = "{ am = 9, addr = 0, slots = 1 }, { am = 9, addr = 20, slots = 1 }";
    for (script, wanted) in &SCRIPTS {
        let board = board_of(rt.alloc(), script).expect(&rt, "no memory");
        check_tables(&rt, rt.alloc(), tables, board.as_str(), wanted);
    }
}

/// Files with a mailbox: a board that can hold none, and the order of refusals, a schedule's before a
/// mailbox's and that before a script's.
static FILES: [(&str, &str); 3] = [
    (
        "board = [{ slot = 1, base = 0, size = 32, rmw = false }]
mailbox = [{ am = 9, addr = 0, slots = 1 }]",
        "C13",
    ),
    (
        "tries = 0\nmailbox = [{ am = 1, addr = 0, slots = 1 }]
board = [{ slot = 1, base = 0, size = 32, script = \"x\" }]",
        "C12",
    ),
    (
        "mailbox = [{ am = 1, addr = 0, slots = 1 }]
board = [{ slot = 1, base = 0, size = 32, script = \"x\" }]",
        "C13",
    ),
];

#[test]
fn reports_mailboxes_between_schedule_and_scripts(rt: HostRuntime) {
    check_files(&rt, rt.alloc(), &FILES);
}
