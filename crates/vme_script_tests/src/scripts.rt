//! Scripts read by themselves.
use std::alloc::{AllocError, Global};
use std::process::Abort;
use vme_script::{Line, LineFault, Script, ScriptFault, ScriptRefusal};

/// Reads a script that is lawful.
fn script_of(rt: &impl Abort, alloc: Global, text: &[u8]) -> Script {
    Script::read(alloc, text).expect(rt, "refused")
}

/// Checks a script whose lines with the numbers 3 and 5 ask for something.
fn check_kept(rt: &impl Abort, script: &Script) {
    assert!(rt; script.len() == 2);
    assert_eq!(rt; (script.number(0), script.number(1)), (3, 5));
    assert!(rt; matches!(script.line(0), Line::Bus(_)));
    assert!(rt; matches!(script.line(1), Line::Await { am: 9, addr: 1, .. }));
}

#[test]
fn keeps_the_lines_that_ask_for_something(rt: HostRuntime) {
    let text = b"# first\r\n\nr 09 00000000 1\n   \nawait 09 00000001 01";
    check_kept(&rt, &script_of(&rt, rt.alloc(), text));
}

/// Returns a text with `count` line ends after its first word.
fn text_of(alloc: Global, word: &str, count: usize) -> Result<String, AllocError> {
    let mut text = String::new(alloc);
    text.push_str(word)?;
    for _ in 0..count {
        text.push('\n')?;
    }
    Ok(text)
}

/// Returns the number of lines of a script that ask for something, or the script's fault.
fn len_of(alloc: Global, text: &str) -> Result<usize, ScriptFault> {
    match Script::read(alloc, text.as_bytes()) {
        Ok(script) => Ok(script.len()),
        Err(fault) => Err(fault),
    }
}

/// The only word of a text, the number of line ends after it, and what is read.
static LIMITS: [(&str, usize, Result<usize, ScriptFault>); 3] = [
    ("", 1000, Ok(0)),
    (
        "x",
        1000,
        Err(ScriptFault::Refused(ScriptRefusal::BadLine {
            number: 1,
            fault: LineFault::UnknownWord,
        })),
    ),
    (
        "x",
        1001,
        Err(ScriptFault::Refused(ScriptRefusal::TooManyLines)),
    ),
];

/// A text with too many lines is refused for that before any of its lines is.
#[test]
fn has_a_thousand_lines_at_most(rt: HostRuntime) {
    for (word, count, wanted) in &LIMITS {
        let text = text_of(rt.alloc(), word, *count).expect(&rt, "no memory");
        assert_eq!(rt; len_of(rt.alloc(), text.as_str()), *wanted);
    }
}

/// Checks a script that puts into one mailbox and takes from another.
fn check_mailboxes(rt: &impl Abort, script: &Script) {
    assert!(rt; script.len() == 2);
    assert!(rt;
        matches!(
            script.line(0),
            Line::Put {
                mailbox: 99,
                word: 1
            }
        )
    );
    assert!(rt; matches!(script.line(1), Line::Take { mailbox: 0 }));
}

/// A script by itself may name any mailbox.
#[test]
fn names_any_mailbox_by_itself(rt: HostRuntime) {
    let text = b"put 99 00000001\ntake 0\n";
    check_mailboxes(&rt, &script_of(&rt, rt.alloc(), text));
}
