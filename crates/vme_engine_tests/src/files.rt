//! Files with each byte replaced, and files that are not a configuration, with the engine of `vme
//! step`.
use crate::support::{Engine, Parts, run_on, text_of, torn_block};
use std::alloc::Global;
use std::process::Abort;
use std::sync::Wait;
use std::thread::Threads;
use vme_engines::{ProgramFault, exit_status};

/// Runs a damaged file, and checks that it is run or is refused with nothing written.
fn expect_report_or_refusal<T: Threads + Wait + Abort + Sync>(rt: &T, alloc: Global, file: &[u8]) {
    let (end, sink) = run_on(rt, alloc, Engine::Step, file).expect(rt, "no memory");
    assert!(rt; matches!(end, Ok(_) | Err(ProgramFault::Config(_))));
    assert_eq!(rt; sink.bytes().is_empty(), end.is_err());
}

/// Each prefix of a file, and the file with each byte in turn replaced.
#[test]
fn a_damaged_file_is_run_or_refused(rt: HostRuntime) {
    let whole = torn_block().input.as_bytes();
    for end in 0..=whole.len() {
        expect_report_or_refusal(&rt, rt.alloc(), &whole[..end]);
    }
    let mut file = Vec::from_slice(rt.alloc(), whole).expect(&rt, "no memory");
    for byte in [0x00, 0x0a, 0x22, 0xff] {
        for at in 0..file.len() {
            let kept = file[at];
            file[at] = byte;
            expect_report_or_refusal(&rt, rt.alloc(), file.as_slice());
            file[at] = kept;
        }
    }
}

/// Runs a file, and checks that it is refused with this text, and that nothing is written.
fn expect_refusal<T: Threads + Wait + Abort + Sync>(
    rt: &T,
    alloc: Global,
    file: &[u8],
    reported: &str,
) {
    let (end, sink) = run_on(rt, alloc, Engine::Step, file).expect(rt, "no memory");
    assert_eq!(rt; exit_status(&end), 2, "{reported}");
    assert!(rt; sink.bytes().is_empty());
    let Err(fault) = end else {
        panic!(rt; "{reported} is run")
    };
    let text = fault.to_string(alloc).expect(rt, "no memory");
    assert_eq!(rt; text.as_str(), reported);
}

/// Files that are refused, each with the text of the fault.
static REFUSED: [(&str, &str); 18] = [
    ("", "C11"),
    (
        "tries = 0\n[[board]]\nslot = 1\nbase = 0\nsize = 16\n",
        "C12",
    ),
    (
        "schedule = [[3, 1]]\n[[board]]\nslot = 1\nbase = 0\nsize = 16\n",
        "C12",
    ),
    (
        "schedule = [[1]]\n[[board]]\nslot = 1\nbase = 0\nsize = 16\n",
        "C7",
    ),
    (
        "schedule = [[1, 1000001]]\n[[board]]\nslot = 1\nbase = 0\nsize = 16\n",
        "C12",
    ),
    ("[[board]]\nslot = 22\nbase = 0\nsize = 16\n", "C8"),
    (
        "[[board]]\nslot = 1\nbase = 0\nsize = 16\nlevel = 4\n",
        "C9",
    ),
    (
        "[[board]]\nslot = 1\nbase = 0\nsize = 16\nwidth = 16\nuat = true\n",
        "C10",
    ),
    ("[[board]]\nslot = 1\nbase = 0\nsize = -4\n", "C7"),
    ("[[board]]\nslot = 1\nbase = 4294967296\nsize = 16\n", "C7"),
    ("[[board]]\nslot = 1\nbase = 0xfffffffc\nsize = 8\n", "C2"),
    ("[[board]]\nslot = 1\nbase = 2\nsize = 16\n", "C3"),
    ("[[board]]\nslot = 1\nbase = 0\nsize = 18\n", "C5"),
    (
        "[[board]]\nslot = 1\nbase = 0\nsize = 16\nscript = 'r 09",
        "C6",
    ),
    (
        "colour = 1\n[[board]]\nslot = 1\nbase = 0\nsize = 16\n",
        "C7",
    ),
    (
        "[[board]]\nslot = 1\nbase = 0\nsize = 4096\n[[board]]\nslot = 2\nbase = 4092\nsize = 16\n",
        "C1",
    ),
    (
        "[[mailbox]]\nam = 9\naddr = 0\nslots = 1\n[[board]]\nslot = 1\nbase = 0\nsize = 32\nrmw = false\n",
        "C13",
    ),
    (
        "[[board]]\nslot = 2\nbase = 0\nsize = 16\nscript = '''\n\n# none\nr 0g 00000000 1'''\n",
        "C14 slot 2 line 3 S4",
    ),
];

/// A script with one line too many, and a line of a script with one byte too many, each with the
/// text of the fault.
static LONG: [(Parts<'static>, &str); 2] = [
    (
        &[(SCRIPT, 1), ("\n", 1001), ("'''\n", 1)],
        "C14 slot 1 line 1001 S8",
    ),
    (
        &[(SCRIPT, 1), ("\n", 1), ("#", 81), ("'''\n", 1)],
        "C14 slot 1 line 2 S1",
    ),
];

/// The beginning of a file of one board, up to its script.
const SCRIPT: &str = "[[board]]\nslot = 1\nbase = 0\nsize = 16\nscript = '''\n";

#[test]
fn refuses_what_is_no_configuration(rt: HostRuntime) {
    for (file, reported) in &REFUSED {
        expect_refusal(&rt, rt.alloc(), file.as_bytes(), reported);
    }
    expect_refusal(&rt, rt.alloc(), b"# \xff\n", "C6");
    for (parts, reported) in &LONG {
        let file = text_of(rt.alloc(), parts).expect(&rt, "no memory");
        expect_refusal(&rt, rt.alloc(), file.as_bytes(), reported);
    }
}
