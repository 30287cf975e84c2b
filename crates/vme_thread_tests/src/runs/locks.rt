//! Processors that take one lock in alternation. While one has the lock, no other writes.
use crate::runs::{Open, configured, push_board, report_of};
use std::alloc::{AllocError, Global};
use std::process::Abort;
use std::test::Fail;
use vme_master::Outcome;
use vme_shared::{LineReply, SharedOutcome};

/// The head of the file. A rotating arbiter starves no level.
static HEAD: &str = "arbiter = \"rotating\"\ntries = 1000000\n";

/// Four processors, each with its mark.
static BOARDS: [(&str, u8); 4] = [
    ("slot = 1\nbase = 0x0000\nlevel = 0\nsize = 16\n", 1),
    ("slot = 2\nbase = 0x1000\nlevel = 1\nsize = 16\n", 2),
    ("slot = 3\nbase = 0x2000\nlevel = 2\nsize = 16\n", 3),
    ("slot = 4\nbase = 0x3000\nlevel = 3\nsize = 16\n", 4),
];

/// The number of times that each processor takes the lock.
const TIMES: usize = 50;

/// Returns a file in which each processor, while it has the lock, writes its mark to one byte and
/// reads it back.
fn file(alloc: Global) -> Result<String, AllocError> {
    let mut text = String::new(alloc);
    text.push_str(HEAD)?;
    for (board, mark) in &BOARDS {
        let marked = format!(in alloc;
            "lock 09 00000000\nw 09 00000008 {mark:02x}\nr 09 00000008 1\nunlock 09 00000000\n"
        )?;
        push_board(&mut text, board, marked.as_str(), TIMES)?;
    }
    Ok(text)
}

/// Checks that each lock was taken, that the mark was read as it was written, and that each lock
/// was released.
fn expect_marks(rt: &impl Abort, lines: &[(u16, LineReply)], mark: u8) {
    assert_eq!(rt; lines.len(), 4 * TIMES);
    for turn in lines.chunks(4) {
        let [(_, taken), (_, written), (_, read), (_, freed)] = turn else {
            panic!(rt; "four lines a time")
        };
        assert_eq!(rt; *taken, LineReply::Shared(SharedOutcome::Taken));
        assert_eq!(rt; *written, LineReply::Transfer(Outcome::Done));
        let LineReply::Transfer(Outcome::Read(bytes)) = read else {
            panic!(rt; "nothing was read")
        };
        assert_eq!(rt; bytes.as_slice(), [mark].as_slice());
        assert_eq!(rt; *freed, LineReply::Shared(SharedOutcome::Unlocked));
    }
}

#[test]
fn a_lock_keeps_the_others_out(rt: HostRuntime) -> Result<(), Fail> {
    let text = file(rt.alloc())?;
    let config = configured(&rt, rt.alloc(), text.as_str());
    let report = report_of(&rt, rt.alloc(), &config, &Open);
    for (lines, (_, mark)) in report.lines.iter().zip(BOARDS.iter()) {
        expect_marks(&rt, lines.as_slice(), *mark);
    }
    Ok(())
}
