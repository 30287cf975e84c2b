//! The parts of a report, line by line: the text is gathered and written to a sink in large pieces.
ghost use Rattle.std.specs.Prelude.{◌≡◌, ◌≤◌, ◌*◌, ◌%◌, ◌++◌, [], false, length, take, drop, flat_map, OnOk, OnErr, IfErr};
ghost use Rattle.vme_io.specs.Prefixes.{GathersOrStops};
ghost use Rattle.vme_script.specs.ReplyTexts.{line_text};
ghost use Rattle.vme_report.specs.Ends.{IsReportFault, is_write_end};
ghost use Rattle.vme_report.specs.Boards.{BoardText};
ghost use Rattle.vme_report.specs.Texts.{counts_text, row_text, dump_row, replies_text, memory_text};
ghost use Rattle.vme_report.specs.Reports.{part_text};

use crate::board::BoardReportRef;
use crate::fault::RunFault;
use crate::part::Part;
use crate::print::{print_counts, print_row};
use vme_io::{Sink, flush_if_full};
use vme_memory::ByteMemory;
use vme_script::reply_line;
use vme_shared::LineReply;

/// The number of bytes in a row of memory.
const ROW_SIZE: u32 = 16;

/// Gathers one part of a report, for all boards.
pub(crate) fn gather_boards<W: Sink>(
    part: Part,
    boards: &[BoardReportRef<'_>],
    text: &mut Vec<u8>,
    writer: &mut W,
) -> Result<(), RunFault>
    requires { W.is_marked writer.old ≡ false }
    ensures gathers { GathersOrStops result (W.contents writer.old) (W.contents writer.new)
        text.old.items text.new.items (flat_map (part_text part) boards.now) }
    ensures write { W.is_marked writer.new ≡ is_write_end result }
    ensures faults { IfErr result IsReportFault }
{
    for board in boards {
        gather_board(part, board, text, writer)?;
    }
    Ok(())
}

/// Gathers one part of a report, for one board.
fn gather_board<W: Sink>(
    part: Part,
    board: &BoardReportRef<'_>,
    text: &mut Vec<u8>,
    writer: &mut W,
) -> Result<(), RunFault>
    requires { W.is_marked writer.old ≡ false }
    ensures gathers { GathersOrStops result (W.contents writer.old) (W.contents writer.new)
        text.old.items text.new.items (part_text part board.now) }
    ensures write { W.is_marked writer.new ≡ is_write_end result }
    ensures faults { IfErr result IsReportFault }
{
    match part {
        Part::Replies => gather_replies(board.slot, board.lines, text, writer),
        Part::Counts => gather_counts(board.slot, board.steps, board.made, text, writer),
        Part::Memory => gather_memory(board.slot, board.memory, text, writer),
    }
}

/// Gathers the lines of the replies to a script.
fn gather_replies<W: Sink>(
    slot: u16,
    lines: &[(u16, LineReply)],
    text: &mut Vec<u8>,
    writer: &mut W,
) -> Result<(), RunFault>
    requires { W.is_marked writer.old ≡ false }
    ensures gathers { GathersOrStops result (W.contents writer.old) (W.contents writer.new)
        text.old.items text.new.items (replies_text slot lines.now) }
    ensures write { W.is_marked writer.new ≡ is_write_end result }
    ensures faults { IfErr result IsReportFault }
{
    for line in lines {
        gather_reply(slot, line.0, &line.1, text, writer)?;
    }
    Ok(())
}

/// Gathers the line of one reply.
#[tactic(auto, using(vme_io::proofs::lemmas::Gathering::printed_gathers, vme_io::proofs::lemmas::Gathering::printed_prefix, vme_io::proofs::lemmas::Gathering::nothing_prefix))]
fn gather_reply<W: Sink>(
    slot: u16,
    line: u16,
    reply: &LineReply,
    text: &mut Vec<u8>,
    writer: &mut W,
) -> Result<(), RunFault>
    requires { W.is_marked writer.old ≡ false }
    ensures gathers { GathersOrStops result (W.contents writer.old) (W.contents writer.new)
        text.old.items text.new.items (line_text slot line reply.now) }
    ensures write { W.is_marked writer.new ≡ is_write_end result }
    ensures faults { IfErr result IsReportFault }
{
    reply_line(slot, line, reply, text)?;
    flush_if_full(text, writer)?;
    Ok(())
}

/// Gathers the line of a board's counts.
#[tactic(auto, using(vme_io::proofs::lemmas::Gathering::printed_gathers, vme_io::proofs::lemmas::Gathering::printed_prefix, vme_io::proofs::lemmas::Gathering::nothing_prefix))]
fn gather_counts<W: Sink>(
    slot: u16,
    steps: u64,
    made: &[u64],
    text: &mut Vec<u8>,
    writer: &mut W,
) -> Result<(), RunFault>
    requires { W.is_marked writer.old ≡ false }
    ensures gathers { GathersOrStops result (W.contents writer.old) (W.contents writer.new)
        text.old.items text.new.items (counts_text slot steps made.now) }
    ensures write { W.is_marked writer.new ≡ is_write_end result }
    ensures faults { IfErr result IsReportFault }
{
    print_counts(slot, steps, made, text)?;
    flush_if_full(text, writer)?;
    Ok(())
}

/// Gathers the rows of a memory.
fn gather_memory<W: Sink>(
    slot: u16,
    memory: &ByteMemory,
    text: &mut Vec<u8>,
    writer: &mut W,
) -> Result<(), RunFault>
    requires { W.is_marked writer.old ≡ false }
    ensures gathers { GathersOrStops result (W.contents writer.old) (W.contents writer.new)
        text.old.items text.new.items (memory_text slot memory.now.bytes) }
    ensures write { W.is_marked writer.new ≡ is_write_end result }
    ensures faults { IfErr result IsReportFault }
{
    for i in 0..memory.size().div_ceil(ROW_SIZE) {
        gather_row(slot, ROW_SIZE * i, memory, text, writer)?;
    }
    Ok(())
}

/// Gathers the line of the row of a memory that begins at `offset`, unless the row is all zero.
#[tactic(auto, using(vme_io::proofs::lemmas::Gathering::printed_gathers, vme_io::proofs::lemmas::Gathering::printed_prefix, vme_io::proofs::lemmas::Gathering::nothing_prefix))]
fn gather_row<W: Sink>(
    slot: u16,
    offset: u32,
    memory: &ByteMemory,
    text: &mut Vec<u8>,
    writer: &mut W,
) -> Result<(), RunFault>
    requires mark { W.is_marked writer.old ≡ false }
    requires aligned { offset % 4 ≡ 0 }
    requires within { offset ≤ length memory.now.bytes }
    ensures gathers { GathersOrStops result (W.contents writer.old) (W.contents writer.new)
        text.old.items text.new.items (row_text slot offset (take 16 (drop offset memory.now.bytes))) }
    ensures write { W.is_marked writer.new ≡ is_write_end result }
    ensures faults { IfErr result IsReportFault }
{
    if memory.is_blank_row(offset) {
        return Ok(());
    }
    print_row(slot, offset, memory.row(offset).as_slice(), text)?;
    flush_if_full(text, writer)?;
    Ok(())
}
