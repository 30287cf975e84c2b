//! Lines that are read and texts that are printed, with values of this project's profile.
use std::alloc::AllocError;
use vme_cycle::Request;
use vme_grammar::{Line, parse_line, print_berr};
use vme_lexer::Lines;

#[test]
fn cuts_lines(rt: HostRuntime) {
    let lines: Result<Vec<&[u8]>, AllocError> = Lines::new(b"r\r\n\n  w ").collect(rt.alloc());
    assert_eq!(rt;
        lines.expect(&rt, "no memory").as_slice(),
        [b"r".as_slice(), b"", b"  w "].as_slice()
    );
    assert!(rt; Lines::new(b"").next().is_none());
}

/// Lines, each with its `Debug` text as a request, as a line of a script, or as a fault.
static LINES: &str = "\
r 0d 00000FFe 2|Ok(Some(Bus(Read { am: 13, addr: 4094, n: 2 })))
w 0d 00000004 5aA5|Ok(Some(Bus(Write { am: 13, addr: 4, bytes: [90, 165] })))
# r 0d 00000000 1|Ok(None)
lr 0000000C 4|Ok(Some(Local(LocalRead { offset: 12, n: 4 })))
lw 0000000f aabb|Ok(Some(Local(LocalWrite { offset: 15, bytes: [170, 187] })))
lm 00000008 1 cas 01 02|Ok(Some(Local(LocalModify { offset: 8, n: 1, f: Compare { expect: [1], put: [2] } })))
await 09 00001000 0102030405060708|Ok(Some(Await { am: 9, addr: 4096, bytes: [1, 2, 3, 4, 5, 6, 7, 8] }))
lock 09 0000100F|Ok(Some(Lock { am: 9, addr: 4111 }))
unlock 2d 00000003|Ok(Some(Unlock { am: 45, addr: 3 }))
put 16 0102fffE|Ok(Some(Put { mailbox: 16, word: 16973822 }))
take 07|Ok(Some(Take { mailbox: 7 }))
take 0|Ok(Some(Take { mailbox: 0 }))
x|Err(UnknownWord)
lr|Err(WordCount)
lm 00000008 1|Err(WordCount)
lm 00000008 3 swap|Err(UnknownWord)
lm 00000008 1 set 01|Err(WordCount)
await 09 00000000|Err(WordCount)
Lr 00000000 1|Err(UnknownWord)
lr 0000000 1|Err(BadAddress)
lr 00000000 3|Err(BadNumber)
lr 00000000 8|Err(BadNumber)
lw 00000000 010203|Err(BadBytes)
lw 00000000 0102030405060708|Err(BadBytes)
lm 00000000 2 add 01|Err(BadBytes)
await 9 0 0|Err(BadCode)
await 09 00000000 010203040506070809|Err(BadBytes)
lock 09|Err(WordCount)
lock 09 00000000 1|Err(WordCount)
lock 9 00000000|Err(BadCode)
unlock 09 000000000|Err(BadAddress)
Unlock 09 00000000|Err(UnknownWord)
unlocks 09 00000000|Err(UnknownWord)
put 1|Err(WordCount)
put 1 00000000 1|Err(WordCount)
put x 0|Err(BadNumber)
put 001 00000000|Err(BadNumber)
put 1 000000|Err(BadBytes)
put 1 0000000000|Err(BadBytes)
put 1 0000000g|Err(BadBytes)
take|Err(WordCount)
take 1 1|Err(WordCount)
take -1|Err(BadNumber)
";

#[test]
fn reads_lines_or_refuses_them(rt: HostRuntime) {
    for row in LINES.lines() {
        let (line, wanted) = row.split_once('|').expect(&rt, "no text");
        let read = parse_line(line.as_bytes());
        let text = format!(in rt.alloc(); "{read:?}").expect(&rt, "no memory");
        assert_eq!(rt; text.as_str(), wanted, "{line}");
    }
}

#[test]
fn reads_the_bytes_of_a_block(rt: HostRuntime) {
    let read = parse_line(b"bw 0b 00000009 1 070809");
    let Ok(Some(Line::Bus(Request::BlockWrite { n, bytes, .. }))) = &read else {
        panic!(&rt; "{read:?}")
    };
    assert_eq!(rt; (*n, bytes.as_slice()), (1, [7, 8, 9].as_slice()));
}

/// Bus errors, by the number of data and the bytes that were read before, each with its line.
static BUS_ERRORS: [(u16, &[u8], &str); 3] = [
    (0, &[], "berr 0\n"),
    (1, &[0, 0, 0, 0], "berr 1 00000000\n"),
    (255, &[0xa5], "berr 255 a5\n"),
];

#[test]
fn reports_what_was_read_before_a_bus_error(rt: HostRuntime) {
    for (count, bytes, line) in &BUS_ERRORS {
        let mut text = Vec::new(rt.alloc());
        assert!(rt; print_berr(&mut text, *count, bytes).is_ok());
        assert_eq!(rt; text.as_slice(), line.as_bytes());
    }
}
