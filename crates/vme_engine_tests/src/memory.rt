//! Runs in which an allocation fails.
use crate::support::{Row, run_on, torn_block, two_writers};
use std::alloc::Global;
use std::process::Abort;
use std::sync::Wait;
use std::thread::Threads;
use vme_engines::{ProgramFault, Status};

/// Runs a row, and checks that the run writes all of the text or ends with `Memory` or `Thread` and
/// writes a prefix of it.
fn expect_text_or_refusal<T: Threads + Wait + Abort + Sync>(rt: &T, alloc: Global, row: &Row) {
    let Ok((end, sink)) = run_on(rt, alloc, row.engine, row.input.as_bytes()) else {
        return;
    };
    match end {
        Ok(status) => {
            assert_eq!(rt; status, Status::Clean);
            assert_eq!(rt; sink.bytes(), row.text.as_bytes());
        }
        Err(fault) => {
            assert!(rt; matches!(fault, ProgramFault::Memory | ProgramFault::Thread));
            assert!(rt; row.text.as_bytes().starts_with(sink.bytes()));
        }
    }
}

#[test]
fn steps_or_lacks_memory(rt: HostRuntime) {
    expect_text_or_refusal(&rt, rt.alloc(), torn_block());
}

#[test]
fn runs_or_lacks_memory(rt: HostRuntime) {
    expect_text_or_refusal(&rt, rt.alloc(), two_writers());
}
