//! Two processors that write and read blocks of each other's boards. Each block is longer than the
//! inline capacity of a `BlockBuffer`.
use crate::runs::{Meeting, configured, report_of};
use std::process::Abort;
use std::sync::atomic::Ordering;
use std::test::Fail;
use vme_master::Outcome;
use vme_shared::LineReply;

/// Each processor writes 64 words of four bytes to the other's board, and reads them back.
static TWO_BOARDS: &str = "arbiter = \"rotating\"
[[board]]
slot = 1
base = 0
size = 256
level = 0
script = \"\"\"
bf 0b 00001000 4 64 01020304
br 0b 00001000 4 64
\"\"\"
[[board]]
slot = 2
base = 0x1000
size = 256
level = 1
script = \"\"\"
bf 0b 00000000 4 64 05060708
br 0b 00000000 4 64
\"\"\"
";

/// Checks that the block was written and that 64 words were read as they were written.
fn expect_block(rt: &impl Abort, lines: &[(u16, LineReply)], word: [u8; 4]) {
    let [(_, filled), (_, read)] = lines else {
        panic!(rt; "two lines")
    };
    assert_eq!(rt; *filled, LineReply::Transfer(Outcome::Done));
    let LineReply::Transfer(Outcome::Read(bytes)) = read else {
        panic!(rt; "nothing was read")
    };
    assert_eq!(rt; bytes.as_slice().len(), 256);
    for part in bytes.as_slice().chunks(4) {
        assert_eq!(rt; part, word.as_slice());
    }
}

#[test]
fn blocks_are_read_on_threads(rt: HostRuntime) -> Result<(), Fail> {
    let config = configured(&rt, rt.alloc(), TWO_BOARDS);
    let gate = Meeting::new();
    let report = report_of(&rt, rt.alloc(), &config, &gate);
    assert!(&rt; !gate.missed.load(Ordering::SeqCst));
    let words = [[1, 2, 3, 4], [5, 6, 7, 8]];
    assert_eq!(&rt; report.lines.len(), words.len());
    for (lines, word) in report.lines.iter().zip(words.iter()) {
        expect_block(&rt, lines.as_slice(), *word);
    }
    Ok(())
}
