//! The engine of `vme cycles`: from the bytes of its input to the bytes of its output.
ghost use Rattle.std.specs.Prelude.{◌≡◌, ◌≤◌, Err, false, true, length, vec_len, IfOk, IfErr, IfSome, OnOk, OnErr};
ghost use Rattle.std.specs.Io.KnownBytes.{Appends};
ghost use Rattle.vme_io.specs.Prefixes.{AppendsPrefix, GathersOrStops};
ghost use Rattle.vme_report.specs.Ends.{IsReportFault, is_write_end};
ghost use Rattle.vme_cycle.specs.BlockBuffers.{block_limit};
ghost use Rattle.vme_engines.specs.Answers.{answer};
ghost use Rattle.vme_engines.specs.Cycles.{cycles_text, cycles_status};
ghost use Rattle.vme_engines.specs.Faults.{EndsUnwritten, IsCyclesFault, ReadsWithin, is_read_failure, is_write_failure};

use crate::answer::answer_line;
use crate::bus::Bus;
use crate::fault::ProgramFault;
use crate::input::read_input;
use std::alloc::Global;
use vme_cycle::{BLOCK_LIMIT, BlockBuffer};
use vme_io::{Sink, Source, WRITE_SIZE, flush_if_full, write_all};
use vme_lexer::Lines;
use vme_report::RunFault;
use vme_shared::Status;

/// The greatest number of bytes of an input.
pub const INPUT_LIMIT: usize = 1_048_576;

/// Processes each line of the input in order, on one board of 4,096 bytes at address 0 of the
/// extended space.
///
/// For each line, the output contains the signals of its cycles and the outcome, or its refusal.
/// Returns `Clean` if every outcome is a success, otherwise `Marked`.
///
/// The engine first reads the input, to its end or to one byte past `INPUT_LIMIT`; it writes
/// nothing before that. If the reader has no byte model, only the fault clauses hold; if the writer
/// has none, what is written is not stated.
///
/// # Errors
///
/// `Read` or `Write`: the reader or the writer failed. `TooLong`: the input has more than
/// `INPUT_LIMIT` bytes. `Memory`: an allocation failed. After a fault, a prefix of the output was
/// written.
pub fn cycles_engine<R: Source, W: Sink>(
    alloc: Global,
    reader: &mut R,
    writer: &mut W,
) -> Result<Status, ProgramFault>
    requires reader_unmarked { R.is_marked reader.old ≡ false }
    requires writer_unmarked { W.is_marked writer.old ≡ false }

    // What is written is the text of the input, or a prefix of it before a fault.
    ensures text { IfSome (R.remaining reader.old) (λ input.
        OnOk result (Appends (W.contents writer.old) (W.contents writer.new) (cycles_text input))) }
    ensures prefix { IfSome (R.remaining reader.old) (λ input.
        OnErr result
        (AppendsPrefix (W.contents writer.old) (W.contents writer.new) (cycles_text input))) }
    ensures nothing { EndsUnwritten result → writer.new ≡ writer.old }
    ensures status { IfSome (R.remaining reader.old) (λ input.
        IfOk result (λ status. status ≡ cycles_status input)) }

    // When each fault is returned. No clause states when `Memory` is.
    ensures read { R.is_marked reader.new ≡ is_read_failure result }
    ensures limit { ReadsWithin INPUT_LIMIT
        (R.remaining reader.old) (R.remaining reader.new) result }
    ensures write { W.is_marked writer.new ≡ is_write_failure result }
    ensures faults { IfErr result IsCyclesFault }
{
    let input = read_input(alloc, reader, INPUT_LIMIT)?;
    let status = answer_all(alloc, input.as_slice(), writer)?;
    Ok(status)
}

/// Processes each line of a text. The output is gathered in a buffer, which is written when it
/// is full and after the last line.
fn answer_all<W: Sink>(alloc: Global, input: &[u8], writer: &mut W) -> Result<Status, RunFault>
    requires { W.is_marked writer.old ≡ false }
    ensures text { OnOk result
        (Appends (W.contents writer.old) (W.contents writer.new) (cycles_text input.now)) }
    ensures prefix { OnErr result
        (AppendsPrefix (W.contents writer.old) (W.contents writer.new) (cycles_text input.now)) }
    ensures status { IfOk result (λ status. status ≡ cycles_status input.now) }
    ensures write { W.is_marked writer.new ≡ is_write_end result }
    ensures faults { IfErr result IsReportFault }
{
    let mut bus = Bus::new(alloc)?;
    let mut replied = BlockBuffer::with_capacity(alloc, BLOCK_LIMIT)?;
    let mut text = Vec::with_capacity(alloc, WRITE_SIZE)?;
    let mut status = Status::Clean;
    for line in Lines::new(input) {
        status = status.worse(gather_answer(&mut bus, line, &mut replied, &mut text, writer)?);
    }
    write_all(writer, text.as_slice())?;
    Ok(status)
}

/// Processes one line, and gathers its output in `text`, which is written when it is full.
#[tactic(auto, using(vme_io::proofs::lemmas::Gathering::printed_gathers, vme_io::proofs::lemmas::Gathering::printed_prefix, vme_io::proofs::lemmas::Gathering::nothing_prefix))]
fn gather_answer<W: Sink>(
    bus: &mut Bus,
    line: &[u8],
    replied: &mut BlockBuffer,
    text: &mut Vec<u8>,
    writer: &mut W,
) -> Result<Status, RunFault>
    requires unmarked { W.is_marked writer.old ≡ false }
    requires enough { block_limit ≤ replied.old.capacity }
    ensures capacity { replied.new.capacity ≡ replied.old.capacity }
    ensures gathers { GathersOrStops result (W.contents writer.old) (W.contents writer.new)
        text.old.items text.new.items (answer bus.old line.now).text }
    ensures board { OnOk result (bus.new ≡ (answer bus.old line.now).board) }
    ensures status { IfOk result (λ status. status ≡ (answer bus.old line.now).status) }
    ensures write { W.is_marked writer.new ≡ is_write_end result }
    ensures faults { IfErr result IsReportFault }
{
    let status = answer_line(bus, line, replied, text)?;
    flush_if_full(text, writer)?;
    Ok(status)
}
