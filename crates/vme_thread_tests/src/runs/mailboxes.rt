//! Two processors put words into one mailbox, and a third takes them.
use crate::runs::{Open, configured, expect_bytes, push_board, report_of};
use std::alloc::{AllocError, Global};
use std::process::Abort;
use std::sync::Wait;
use std::test::Fail;
use std::thread::{Threads, map_indices};
use vme_script::Config;
use vme_shared::{LineReply, SharedOutcome};
use vme_threads::Report;

/// A mailbox of four words, on a board that all processors can address. A rotating arbiter serves
/// every level.
static HEAD: &str = "arbiter = \"rotating\"
tries = 1000000
[[mailbox]]
am = 9
addr = 0
slots = 4
[[board]]
slot = 1
base = 0
size = 64
";

/// The processors that put, each with its first word.
static PUTTERS: [(&str, u32); 2] = [
    ("slot = 2\nbase = 0x1000\nlevel = 2\nsize = 16\n", 0x200),
    ("slot = 3\nbase = 0x2000\nlevel = 1\nsize = 16\n", 0x300),
];

static TAKER: &str = "slot = 4\nbase = 0x3000\nlevel = 0\nsize = 16\n";

/// The number of words that each putting processor puts in the long run.
const MANY: u32 = 100;

/// The number of words that each putting processor puts in each of a thousand short runs.
const FEW: u32 = 5;

/// The number of threads that run the short file at the same time. Each of them starts the threads
/// of its processors. A waiting processor yields to others, so a single run would be slow on a busy
/// machine.
const AT_ONCE: usize = 20;

/// The number of runs that each of these threads makes.
const TIMES: usize = 50;

/// The put count and the take count of the mailbox after a long run.
const MANY_COUNTED: [u8; 8] = [0, 0, 0, 0xc8, 0, 0, 0, 0xc8];

const FEW_COUNTED: [u8; 8] = [0, 0, 0, 0x0a, 0, 0, 0, 0x0a];

/// The offset of the counts in the mailbox's board.
const COUNTS_AT: u32 = 4;

/// Returns a file in which each putting processor puts `words` words, and the third processor takes
/// all of them.
fn file(alloc: Global, words: u32) -> Result<String, AllocError> {
    let mut text = String::new(alloc);
    text.push_str(HEAD)?;
    for (board, first) in &PUTTERS {
        let mut puts = String::new(alloc);
        for word in *first..first.wrapping_add(words) {
            puts.push_str(format!(in alloc; "put 1 {word:08x}\n")?.as_str())?;
        }
        push_board(&mut text, board, puts.as_str(), 1)?;
    }
    push_board(&mut text, TAKER, "take 1\n", words.wrapping_mul(2) as usize)?;
    Ok(text)
}

/// Checks that each line put its word.
fn expect_put(rt: &impl Abort, lines: &[(u16, LineReply)], words: u32) {
    assert_eq!(rt; lines.len(), words as usize);
    for (_, reply) in lines {
        assert_eq!(rt; *reply, LineReply::Shared(SharedOutcome::Put));
    }
}

/// Checks that the lines took every word once, and the words of one processor in the order in which
/// it put them.
fn expect_taken(rt: &impl Abort, lines: &[(u16, LineReply)], words: u32) {
    let [(_, first), (_, second)] = PUTTERS;
    let mut firsts = first;
    let mut seconds = second;
    for (_, reply) in lines {
        let LineReply::Shared(SharedOutcome::Took(word)) = reply else {
            panic!(rt; "nothing was taken")
        };
        if *word == firsts {
            firsts = firsts.wrapping_add(1);
        } else {
            assert_eq!(rt; *word, seconds);
            seconds = seconds.wrapping_add(1);
        }
    }
    assert_eq!(rt; firsts, first.wrapping_add(words));
    assert_eq!(rt; seconds, second.wrapping_add(words));
}

/// Checks the lines and the counts of a report in which each putting processor puts `words` words.
fn expect_queue(rt: &impl Abort, report: &Report, words: u32, counts: &[u8]) {
    let [_, first, second, taker] = report.lines.as_slice() else {
        panic!(rt; "four processors")
    };
    expect_put(rt, first.as_slice(), words);
    expect_put(rt, second.as_slice(), words);
    expect_taken(rt, taker.as_slice(), words);
    expect_bytes(rt, report, COUNTS_AT, counts);
}

/// Returns the configuration in which each putting processor puts `words` words.
fn passing(rt: &impl Abort, alloc: Global, words: u32) -> Result<Config, AllocError> {
    let text = file(alloc, words)?;
    Ok(configured(rt, alloc, text.as_str()))
}

/// Runs the configuration and checks its report.
fn pass_on<R: Threads + Wait + Abort + Sync>(
    rt: &R,
    alloc: Global,
    config: &Config,
    words: u32,
    counts: &[u8],
) {
    let report = report_of(rt, alloc, config, &Open);
    expect_queue(rt, &report, words, counts);
}

/// Runs the short file `TIMES` times.
fn pass_on_again<R: Threads + Wait + Abort + Sync>(rt: &R, alloc: Global, config: &Config) {
    for _ in 0..TIMES {
        pass_on(rt, alloc, config, FEW, FEW_COUNTED.as_slice());
    }
}

#[test]
fn each_word_is_taken_once_and_in_order(rt: HostRuntime) -> Result<(), Fail> {
    let config = passing(&rt, rt.alloc(), MANY)?;
    pass_on(&rt, rt.alloc(), &config, MANY, MANY_COUNTED.as_slice());
    Ok(())
}

#[test]
fn a_thousand_runs_take_each_word_once(rt: HostRuntime) -> Result<(), Fail> {
    let alloc = rt.alloc();
    let config = passing(&rt, alloc, FEW)?;
    map_indices(&rt, alloc, AT_ONCE, &|_| pass_on_again(&rt, alloc, &config))?;
    Ok(())
}
