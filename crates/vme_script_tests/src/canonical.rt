//! Lines that are parsed in one pass, and other lines that are parsed too.
use std::process::Abort;
use vme_grammar::{Line, LineFault, parse_canonical, parse_line};

/// Each form of the bus and of the local port, and each function of a read-modify-write, as scripts
/// are commonly written.
static CANONICAL: [&str; 14] = [
    "r 09 000011dc 4",
    "w 0d 0000d580 965666A6",
    "br 0b 00011e20 4 16",
    "bw 0f 00007474 4 7526765975267659",
    "bf 0f 000107f4 4 256 0175a816",
    "await 09 000011dc 6c",
    "lr 00013c4c 4",
    "lw 000145cc 7d33d906",
    "m 09 00000000 1 set",
    "m 09 00000000 2 xchg 0102",
    "m 09 00000000 4 add 3f8f4239",
    "m 09 00000000 4 cas f91f875e 00000001",
    "lm 00000000 1 set",
    "lm 00000000 4 cas f91f875e 00000001",
];

/// Returns whether a line is parsed in one pass.
fn is_canonical(line: &str) -> bool {
    parse_canonical(line.as_bytes()).is_some()
}

#[test]
fn takes_canonical_lines(rt: HostRuntime) {
    for line in &CANONICAL {
        assert!(rt; is_canonical(line), "{line}");
    }
}

/// Returns what a line asks for.
fn kind_of(line: &Line) -> &'static str {
    match line {
        Line::Bus(_) => "bus",
        Line::Local(_) => "local",
        Line::Take { mailbox: 2 } => "take 2",
        _ => "other",
    }
}

/// Returns what a line asks for, or its fault.
fn parsed(text: &str) -> Result<&'static str, LineFault> {
    match parse_line(text.as_bytes()) {
        Ok(Some(line)) => Ok(kind_of(&line)),
        Ok(None) => Ok("nothing"),
        Err(fault) => Err(fault),
    }
}

/// Lines that are parsed word by word, each with what it asks for.
static OTHERS: [(&str, Result<&str, LineFault>); 5] = [
    ("lr  00013c4c 4", Ok("local")),
    (" r 09 000011dc 4 ", Ok("bus")),
    ("take 2", Ok("take 2")),
    ("# r 09 000011dc 4", Ok("nothing")),
    ("r 09 000011dc 9", Err(LineFault::BadNumber)),
];

/// Lines with more spaces are parsed word by word.
#[test]
fn reads_other_lines(rt: HostRuntime) {
    assert!(rt; !is_canonical("lr  00013c4c 4"));
    for (line, wanted) in &OTHERS {
        assert_eq!(rt; parsed(line), *wanted, "{line}");
    }
}
