//! Devices that fail after any number of bytes, or that move one byte a call.
use crate::support::{ROWS, Row, run};
use std::alloc::Global;
use std::io;
use std::process::Abort;
use std::sync::Wait;
use std::thread::Threads;
use vme_engines::{ProgramFault, Status};
use vme_io::{Io, RoomSink, SliceSource};

/// A writer of std that accepts no byte once its capacity is full.
#[derive(Drop)]
struct Narrow {
    taken: Vec<u8>,
    capacity: usize,
}

impl io::Write for Narrow {
    fn write(&mut self, bytes: &[u8]) -> io::Result<usize> {
        let count = bytes.len().min(self.capacity);
        self.taken.extend_from_slice(&bytes[..count])?;
        self.capacity -= count;
        Ok(count)
    }

    fn flush(&mut self) -> io::Result<()> {
        Ok(())
    }
}

/// Reads the input of a row, a byte a call, from a reader that fails after a number of bytes, and
/// checks that the run ends with `Read` and writes nothing.
fn expect_read_fault<T: Threads + Wait + Abort + Sync>(
    rt: &T,
    alloc: Global,
    row: &Row,
    bytes: usize,
) {
    let mut source = SliceSource::new(row.input.as_bytes(), 1, bytes);
    let mut sink = RoomSink::new(alloc, usize::MAX, 4096).expect(rt, "no memory");
    let end = run(rt, alloc, row.engine, &mut source, &mut sink);
    assert_eq!(rt; end, Err(ProgramFault::Read), "{bytes}");
    assert!(rt; sink.bytes().is_empty());
}

/// Runs a row with two writers that take only `capacity` bytes: one takes a byte a call and then
/// fails, the other then accepts no byte. Checks the end of each run, and that exactly these bytes
/// of its text were written.
fn expect_prefix<T: Threads + Wait + Abort + Sync>(
    rt: &T,
    alloc: Global,
    row: &Row,
    capacity: usize,
) {
    let wanted = if capacity < row.text.len() {
        Err(ProgramFault::Write)
    } else {
        Ok(Status::Clean)
    };
    let prefix = row.text.as_bytes().get(..capacity);
    let mut source = SliceSource::new(row.input.as_bytes(), 1, usize::MAX);
    let mut sink = RoomSink::new(alloc, 1, capacity).expect(rt, "no memory");
    assert_eq!(rt;
        run(rt, alloc, row.engine, &mut source, &mut sink),
        wanted,
        "{capacity}"
    );
    assert_eq!(rt; Some(sink.bytes()), prefix);
    let mut narrow = Narrow {
        taken: Vec::new(alloc),
        capacity,
    };
    let mut reader = Io::new(row.input.as_bytes());
    let mut writer = Io::new(&mut narrow);
    assert_eq!(rt;
        run(rt, alloc, row.engine, &mut reader, &mut writer),
        wanted,
        "{capacity}"
    );
    assert_eq!(rt; Some(narrow.taken.as_slice()), prefix);
}

#[test]
fn a_device_fails_after_any_byte(rt: HostRuntime) {
    for row in &ROWS {
        for bytes in 0..=row.input.len() {
            expect_read_fault(&rt, rt.alloc(), row, bytes);
        }
        for capacity in 0..=row.text.len() {
            expect_prefix(&rt, rt.alloc(), row, capacity);
        }
    }
}
