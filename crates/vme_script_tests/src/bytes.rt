//! Lines that access bytes of a mailbox.
use crate::support::check;
use std::alloc::{AllocError, Global};
use std::process::Abort;
use vme_script::{Line, Script};

/// Extra lines of the first board's script, and the expected result of the file. The mailbox has
/// bytes 0 to 23 of that board's 32.
static OWN_LINES: [(&str, &str); 9] = [
    ("lr 0000000c 4", "C14 slot 1 line 4 S9"),
    ("lr 00000017 1", "C14 slot 1 line 4 S9"),
    ("lw 00000014 01020304", "C14 slot 1 line 4 S9"),
    ("lm 00000017 1 set", "C14 slot 1 line 4 S9"),
    ("lr 00000018 4", "lawful"),
    ("lr 0000001e 4", "lawful"),
    ("r 09 00000000 1", "C14 slot 1 line 4 S9"),
    ("lr 0000000c 4\\nx", "C14 slot 1 line 4 S9"),
    ("x\\nlr 0000000c 4", "C14 slot 1 line 4 S2"),
];

/// Extra lines of the second board's script, and the expected result of the file.
static OTHER_LINES: [(&str, &str); 28] = [
    ("r 09 00000017 1", "C14 slot 2 line 4 S9"),
    ("br 0b 00000010 4 3", "C14 slot 2 line 4 S9"),
    ("r 09 00000018 1", "lawful"),
    ("br 0b 00000018 4 2", "lawful"),
    ("br 0b 00000018 4 8", "lawful"),
    ("r 09 00000014 8", "lawful"),
    ("r 0d 00000014 4", "C14 slot 2 line 4 S9"),
    ("w 09 00000017 01", "C14 slot 2 line 4 S9"),
    ("w 09 00000018 01", "lawful"),
    ("bw 0b 00000017 1 01020304", "C14 slot 2 line 4 S9"),
    ("bf 0b 00000000 4 256 00000000", "lawful"),
    ("bf 0b 00000000 4 64 00000000", "C14 slot 2 line 4 S9"),
    ("m 09 00000014 4 add 00000001", "C14 slot 2 line 4 S9"),
    ("m 0a 00000014 4 add 00000001", "lawful"),
    ("await 09 00000014 00000000", "C14 slot 2 line 4 S9"),
    ("await 09 00000018 00000000", "lawful"),
    ("await 09 00000014 0000000000000000", "lawful"),
    ("lock 09 00000000", "C14 slot 2 line 4 S9"),
    ("lock 09 00000018", "lawful"),
    ("lock 0b 00000000", "lawful"),
    ("unlock 09 00000017", "C14 slot 2 line 4 S9"),
    ("unlock 09 00000018", "lawful"),
    ("r 39 00000000 1", "lawful"),
    ("r 08 00000000 1", "lawful"),
    ("r 09 00001000 1", "lawful"),
    ("lr 00000000 4", "lawful"),
    ("put 1 00000001", "lawful"),
    ("put 2 00000001", "C14 slot 2 line 4 S6"),
];

/// Returns a file with extra lines at the ends of the two scripts.
fn file_of(alloc: Global, own: &str, other: &str) -> Result<String, AllocError> {
    format!(in alloc;
        "tries = 1
[[board]]
slot = 1
base = 0
size = 32
script = \"put 1 0000000a\\nput 1 0000000b\\nput 1 0000000c\\n{own}\"
[[board]]
slot = 2
base = 0x1000
size = 16
script = \"take 1\\ntake 1\\ntake 1\\n{other}\"
[[mailbox]]
am = 9
addr = 0
slots = 2
"
    )
}

/// Checks the first refusal of a file with extra lines.
fn check_lines(rt: &impl Abort, alloc: Global, own: &str, other: &str, wanted: &str) {
    let file = file_of(alloc, own, other).expect(rt, "no memory");
    check(rt, alloc, file.as_bytes(), wanted);
}

#[test]
fn reports_of_bytes_of_a_mailbox(rt: HostRuntime) {
    check_lines(&rt, rt.alloc(), "", "", "lawful");
    for (line, wanted) in &OWN_LINES {
        check_lines(&rt, rt.alloc(), line, "", wanted);
    }
    for (line, wanted) in &OTHER_LINES {
        check_lines(&rt, rt.alloc(), "", line, wanted);
    }
}

/// Checks a script of two lines, of which the first takes a lock.
fn check_lock(rt: &impl Abort, script: &Script) {
    assert!(rt; script.len() == 2);
    assert!(rt; matches!(script.line(0), Line::Lock { am: 9, addr: 0 }));
}

/// A script by itself may access any byte.
#[test]
fn names_any_byte_by_itself(rt: HostRuntime) {
    let script = Script::read(rt.alloc(), b"lock 09 00000000\nlr 00000000 4\n");
    check_lock(&rt, &script.expect(&rt, "refused"));
}
