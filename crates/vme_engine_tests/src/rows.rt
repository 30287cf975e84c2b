//! Each worked row of the three engines: the text that its run writes, and its status.
use crate::long_rows::{self, LongRow};
use crate::support::{Engine, check, run_on, text_of};
use crate::{cycles_rows, cycles_wide, step_rows, step_shared, step_wide};
use std::alloc::Global;
use std::process::Abort;
use std::sync::Wait;
use std::thread::Threads;
use vme_engines::Status;

/// Checks each input of a table.
fn check_rows<T: Threads + Wait + Abort + Sync>(
    rt: &T,
    alloc: Global,
    engine: Engine,
    rows: &[(&str, &str, Status)],
) {
    for (input, text, status) in rows {
        check(rt, alloc, engine, input, text, *status);
    }
}

#[test]
fn each_row_has_its_text(rt: HostRuntime) {
    check_rows(&rt, rt.alloc(), Engine::Cycles, &cycles_rows::ANSWERED);
    check_rows(&rt, rt.alloc(), Engine::Cycles, &cycles_wide::ANSWERED);
    check_rows(&rt, rt.alloc(), Engine::Step, &step_rows::ROWS);
    check_rows(&rt, rt.alloc(), Engine::Step, &step_shared::ROWS);
    check_rows(&rt, rt.alloc(), Engine::Step, &step_wide::ROWS);
}

/// Checks that a line is refused by a text of one line.
fn check_refused<T: Threads + Wait + Abort + Sync>(
    rt: &T,
    alloc: Global,
    line: &str,
    answer: &str,
) {
    let (end, sink) = run_on(rt, alloc, Engine::Cycles, line.as_bytes()).expect(rt, "no memory");
    assert_eq!(rt; end, Ok(Status::Marked), "{line}");
    let Some((last, text)) = sink.bytes().split_last() else {
        panic!(rt; "{line} has no answer")
    };
    assert_eq!(rt; (*last, text), (b'\n', answer.as_bytes()), "{line}");
}

#[test]
fn refuses_requests_and_lines(rt: HostRuntime) {
    for rows in [cycles_rows::REFUSED, cycles_wide::REFUSED] {
        for row in rows.lines() {
            let (line, answer) = row.split_once('|').expect(&rt, "no answer");
            check_refused(&rt, rt.alloc(), line, answer);
        }
    }
}

/// Checks what the text of an input begins and ends with.
fn check_long<T: Threads + Wait + Abort + Sync>(rt: &T, alloc: Global, row: &LongRow) {
    let input = text_of(alloc, row.input).expect(rt, "no memory");
    let first = text_of(alloc, row.first).expect(rt, "no memory");
    let (end, sink) = run_on(rt, alloc, row.engine, input.as_bytes()).expect(rt, "no memory");
    assert_eq!(rt; end, Ok(Status::Clean));
    assert!(rt; sink.bytes().starts_with(first.as_bytes()));
    match row.last {
        Some(last) => assert!(rt; sink.bytes().ends_with(last.as_bytes())),
        None => assert_eq!(rt; sink.bytes().len(), first.len()),
    }
}

#[test]
fn each_long_row_has_its_text(rt: HostRuntime) {
    for row in &long_rows::ROWS {
        check_long(&rt, rt.alloc(), row);
    }
}

/// Ranges of codes, each with the digits that a read of one byte shows on D07-D00, none if it is
/// refused, and the outcome.
static CODES: [(u8, u8, &str, &str); 18] = [
    (0x00, 0x07, "", "refused K1"),
    (0x08, 0x08, "", "refused K5"),
    (0x09, 0x0a, "00", "read 00"),
    (0x0b, 0x0c, "", "refused K5"),
    (0x0d, 0x0e, "00", "read 00"),
    (0x0f, 0x0f, "", "refused K5"),
    (0x10, 0x1f, "", "refused K2"),
    (0x20, 0x28, "", "refused K1"),
    (0x29, 0x29, "--", "berr 0"),
    (0x2a, 0x2c, "", "refused K1"),
    (0x2d, 0x2d, "--", "berr 0"),
    (0x2e, 0x37, "", "refused K1"),
    (0x38, 0x38, "", "refused K5"),
    (0x39, 0x3a, "--", "berr 0"),
    (0x3b, 0x3c, "", "refused K5"),
    (0x3d, 0x3e, "--", "berr 0"),
    (0x3f, 0x3f, "", "refused K5"),
    (0x40, 0xff, "", "refused K9"),
];

/// Checks the outcome of a read of one byte with a code.
fn check_code<T: Threads + Wait + Abort + Sync>(
    rt: &T,
    alloc: Global,
    code: u8,
    digits: &str,
    outcome: &str,
) {
    let input = format!(in alloc; "r {code:02x} 00000001 1\n").expect(rt, "no memory");
    if digits.is_empty() {
        check_refused(rt, alloc, input.as_str(), outcome);
        return;
    }
    let text = format!(in alloc;
        "am={code:02x} a=00000000 ds1=1 ds0=0 a01=0 lword=1 write=1 data=------{digits}\n{outcome}\n"
    );
    let status = if digits == "00" {
        Status::Clean
    } else {
        Status::Marked
    };
    let text = text.expect(rt, "no memory");
    check(
        rt,
        alloc,
        Engine::Cycles,
        input.as_str(),
        text.as_str(),
        status,
    );
}

#[test]
fn knows_eighteen_codes(rt: HostRuntime) {
    for (first, last, digits, outcome) in &CODES {
        for code in *first..=*last {
            check_code(&rt, rt.alloc(), code, digits, outcome);
        }
    }
}
