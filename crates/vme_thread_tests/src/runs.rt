//! Tests of scripts on threads, and what they share: gates, runs, and the replies of a report.
mod blocks;
mod locks;
mod mailboxes;
mod meetings;
mod sums;
mod workers;

use crate::flags::seen;
use std::alloc::{AllocError, Global};
use std::process::Abort;
use std::sync::Wait;
use std::sync::atomic::{AtomicBool, Ordering};
use std::thread::Threads;
use vme_script::{Config, reply_line};
use vme_threads::{Gate, Report, run_threads};

/// A gate that never waits.
pub(crate) struct Open;

impl Gate for Open {
    fn before(&self, _slot: u16, _line: u16) {}

    fn after(&self, _slot: u16, _line: u16) {}
}

/// A gate at which each processor waits before its first line until the other has reached it too.
#[derive(Drop)]
pub(crate) struct Meeting {
    first: AtomicBool,
    second: AtomicBool,
    pub(crate) missed: AtomicBool,
}

impl Meeting {
    pub(crate) fn new() -> Meeting {
        Meeting {
            first: AtomicBool::new(false),
            second: AtomicBool::new(false),
            missed: AtomicBool::new(false),
        }
    }
}

impl Gate for Meeting {
    fn before(&self, slot: u16, line: u16) {
        if line != 1 {
            return;
        }
        let (mine, other) = if slot == 1 {
            (&self.first, &self.second)
        } else {
            (&self.second, &self.first)
        };
        mine.store(true, Ordering::SeqCst);
        if !seen(other) {
            self.missed.store(true, Ordering::SeqCst);
        }
    }

    fn after(&self, _slot: u16, _line: u16) {}
}

/// Appends to a file a board with these keys, whose script has some lines as many times.
pub(crate) fn push_board(
    file: &mut String,
    keys: &str,
    lines: &str,
    times: usize,
) -> Result<(), AllocError> {
    file.push_str("[[board]]\n")?;
    file.push_str(keys)?;
    file.push_str("script = \"\"\"\n")?;
    for _ in 0..times {
        file.push_str(lines)?;
    }
    file.push_str("\"\"\"\n")
}

/// Returns the configuration of a file.
pub(crate) fn configured(rt: &impl Abort, alloc: Global, file: &str) -> Config {
    match Config::read(alloc, file.as_bytes()) {
        Ok(config) => config,
        Err(_) => panic!(rt; "refused"),
    }
}

/// Returns the report of a run on threads.
pub(crate) fn report_of<R: Threads + Wait + Abort + Sync, G: Gate + Sync>(
    rt: &R,
    alloc: Global,
    config: &Config,
    gate: &G,
) -> Report {
    match run_threads(rt, alloc, config, gate) {
        Ok(report) => report,
        Err(_) => panic!(rt; "no report"),
    }
}

/// Checks the bytes of the first board from an offset on.
pub(crate) fn expect_bytes(rt: &impl Abort, report: &Report, from: u32, bytes: &[u8]) {
    let Some(board) = report.boards.first() else {
        panic!(rt; "no board")
    };
    for (offset, byte) in (from..).zip(bytes.iter()) {
        assert_eq!(rt; board.memory.byte(offset), Some(*byte));
    }
}

/// Returns the replies of a report, one line of text for each.
pub(crate) fn replies_of(alloc: Global, report: &Report) -> Result<Vec<u8>, AllocError> {
    let mut text = Vec::new(alloc);
    for (board, lines) in report.boards.iter().zip(report.lines.iter()) {
        for (number, reply) in lines {
            reply_line(board.slot, *number, reply, &mut text)?;
        }
    }
    Ok(text)
}
