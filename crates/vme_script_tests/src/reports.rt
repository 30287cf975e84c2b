//! Reports of two boards, whole and truncated by a sink that fails.
ghost use Rattle.std.specs.Prelude.{◌≡◌, false};
ghost use Rattle.vme_io.specs.Devices.{is_marked_sink};

use crate::support::{expect_prefix, expect_text, expect_text_or_refusal};
use std::alloc::{AllocError, Global};
use std::test::Fail;
use vme_io::RoomSink;
use vme_lanes::Datum;
use vme_master::Outcome;
use vme_memory::{BoardCmd, ByteMemory, Class, Width8To32};
use vme_report::{BoardReportRef, RunFault, write_report};
use vme_shared::{LineReply, Status};

const CLASS: Class = Class {
    width: Width8To32::D32,
    uat: true,
    blt: true,
    rmw: true,
};

/// The first board's second row is all zero, and its last row is short. The second board's last row
/// is sixteen zero bytes.
static TEXT: &str = "1:1 done
1:3 met
2:2 done
board 1 steps 18446744073709551615 made 3 0
board 2 steps 0 made 0 0
mem 1 00000000 00000000000000000000000000000001
mem 1 00000020 aa000000
mem 2 00000000 aa000000000000000000000000000000
";

/// Returns a memory of `size` bytes, all zero but one.
fn memory(alloc: Global, size: u32, offset: u32, byte: u8) -> Result<ByteMemory, AllocError> {
    let Ok(mut memory) = ByteMemory::new(alloc, size, CLASS) else {
        return Err(AllocError);
    };
    set(&mut memory, offset, byte);
    Ok(memory)
}

fn set(memory: &mut ByteMemory, offset: u32, byte: u8) {
    let bytes = Datum::try_from(&[byte][..]).unwrap_or_default();
    let _ = memory.local(&BoardCmd::LocalWrite { offset, bytes });
}

fn board<'a>(
    slot: u16,
    lines: &'a [(u16, LineReply)],
    memory: &'a ByteMemory,
    steps: u64,
    made: &'a [u64],
) -> BoardReportRef<'a> {
    BoardReportRef {
        slot,
        lines,
        memory,
        steps,
        made,
    }
}

/// Writes the report of the two boards into `sink`. `last` is the reply to the last line.
fn report(
    alloc: Global,
    last: LineReply,
    sink: &mut RoomSink,
) -> Result<Result<Status, RunFault>, AllocError>
    requires { is_marked_sink sink.old ≡ false }
{
    let mut first = memory(alloc, 36, 15, 1)?;
    set(&mut first, 32, 0xaa);
    let second = memory(alloc, 32, 0, 0xaa)?;
    let lines = [(1, LineReply::Transfer(Outcome::Done)), (3, LineReply::Met)];
    let more = [(2, last)];
    let mut boards = Vec::new(alloc);
    boards.push(board(1, &lines, &first, u64::MAX, &[3, 0]))?;
    boards.push(board(2, &more, &second, 0, &[0, 0]))?;
    Ok(write_report(alloc, boards.as_slice(), sink).map_err(RunFault::from))
}

/// The report where the last line has not ended.
static UNFINISHED: &str = "1:1 done
1:3 met
2:2 unfinished
board 1 steps 18446744073709551615 made 3 0
board 2 steps 0 made 0 0
mem 1 00000000 00000000000000000000000000000001
mem 1 00000020 aa000000
mem 2 00000000 aa000000000000000000000000000000
";

#[test]
fn reports_two_boards(rt: HostRuntime) -> Result<(), Fail> {
    for (last, status, text) in [
        (LineReply::Transfer(Outcome::Done), Status::Clean, TEXT),
        (LineReply::Unfinished, Status::Marked, UNFINISHED),
    ] {
        let mut sink = RoomSink::new(rt.alloc(), usize::MAX, 4096)?;
        let end = report(rt.alloc(), last, &mut sink)?;
        expect_text(&rt, end, status, &sink, text);
    }
    Ok(())
}

#[test]
fn stops_where_the_sink_fails(rt: HostRuntime) -> Result<(), Fail> {
    for capacity in 0..TEXT.len() {
        let mut sink = RoomSink::new(rt.alloc(), 1, capacity)?;
        let end = report(rt.alloc(), LineReply::Transfer(Outcome::Done), &mut sink)?;
        expect_prefix(&rt, end, &sink, TEXT, capacity);
    }
    Ok(())
}

#[test]
fn is_written_or_lacks_memory(rt: HostRuntime) {
    let Ok(mut sink) = RoomSink::new(rt.alloc(), usize::MAX, 4096) else {
        return;
    };
    let done = LineReply::Transfer(Outcome::Done);
    if let Ok(end) = report(rt.alloc(), done, &mut sink) {
        expect_text_or_refusal(&rt, end, Status::Clean, &sink, TEXT);
    }
}
