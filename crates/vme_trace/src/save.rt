//! A save file of GTKWave, which groups the signals of a dump.
ghost use Rattle.std.specs.Prelude.{◌≡◌, false, IfErr};
ghost use Rattle.vme_report.specs.Ends.{IsReportFault, is_write_end};
ghost use Rattle.vme_engines.specs.Faults.{IsStepFault, is_read_failure, is_write_failure};

use std::alloc::{AllocError, Global};
use vme_engines::{ProgramFault, read_config};
use vme_grammar::print_number;
use vme_io::{Sink, Source, write_all};
use vme_report::RunFault;
use vme_script::Config;

/// The greatest number of boards whose signals are shown at first; those of more are folded.
const OPEN_BOARDS: usize = 4;

/// The begin: the scale, and the event, the slot and the holder.
static BEGIN: &[u8] = b"[timestart] 0
[size] 1400 900
[pos] -1 -1
*-10.300000 -1 -1 -1
[treeopen] vme.
[sst_expanded] 0
[signals_width] 170
@800200
-arbitration
@24
vme.bus.event
vme.bus.slot
vme.bus.holder
@28
vme.bus.bbsy_n
vme.bus.br3_n
vme.bus.br2_n
vme.bus.br1_n
vme.bus.br0_n
@1000200
-arbitration
";

/// The lines of a cycle.
static BUS: &[u8] = b"@800200
-bus
@28
vme.bus.as_n
@22
vme.bus.am[5:0]
vme.bus.a[31:0]
@28
vme.bus.lword_n
vme.bus.write_n
vme.bus.ds1_n
vme.bus.ds0_n
@22
vme.bus.d31_24[7:0]
vme.bus.d23_16[7:0]
vme.bus.d15_08[7:0]
vme.bus.d07_00[7:0]
@28
vme.bus.dtack_n
vme.bus.berr_n
@1000200
-bus
";

/// The data lanes of the address lines.
static UPPER_DATA: &[u8] = b"@c00200
-eight-byte data
@22
vme.bus.dh63_56[7:0]
vme.bus.dh55_48[7:0]
vme.bus.dh47_40[7:0]
vme.bus.dh39_32[7:0]
@1401200
-eight-byte data
";

/// A signal of a slot: its format, and its name after that of the slot.
type Signal = (&'static [u8], &'static [u8]);

/// The signals of a slot.
static SIGNALS: [Signal; 17] = [
    (b"@24\n", b"line\n"),
    (b"@28\n", b"br_n\n"),
    (b"@28\n", b"bg3in_n\n"),
    (b"@28\n", b"bg2in_n\n"),
    (b"@28\n", b"bg1in_n\n"),
    (b"@28\n", b"bg0in_n\n"),
    (b"@28\n", b"bbsy_n\n"),
    (b"@28\n", b"sel\n"),
    (b"@28\n", b"lp_cs\n"),
    (b"@28\n", b"lp_we\n"),
    (b"@22\n", b"lp_a[31:0]\n"),
    (b"@22\n", b"lp_d31_24[7:0]\n"),
    (b"@22\n", b"lp_d23_16[7:0]\n"),
    (b"@22\n", b"lp_d15_08[7:0]\n"),
    (b"@22\n", b"lp_d07_00[7:0]\n"),
    (b"@28\n", b"lp_ack\n"),
    (b"@28\n", b"lp_err\n"),
];

/// Reads a configuration file, and writes a save file of GTKWave for its dump.
///
/// No clause states the text.
///
/// # Errors
///
/// `Config`: the input is not a configuration. `Read` or `Write`: the reader or the writer failed.
/// `TooLong`: the input has more than `FILE_LIMIT` bytes. `Memory`: an allocation failed.
pub fn save_engine<R: Source, W: Sink>(
    alloc: Global,
    reader: &mut R,
    writer: &mut W,
) -> Result<(), ProgramFault>
    requires reader_unmarked { R.is_marked reader.old ≡ false }
    requires writer_unmarked { W.is_marked writer.old ≡ false }
    ensures write { W.is_marked writer.new ≡ is_write_failure result }
    ensures read_fault { R.is_marked reader.new ≡ is_read_failure result }
    ensures faults { IfErr result IsStepFault }
{
    let config = read_config(alloc, reader)?;
    write_save(alloc, &config, writer)?;
    Ok(())
}

/// Writes the save file of a configuration.
fn write_save<W: Sink>(alloc: Global, config: &Config, writer: &mut W) -> Result<(), RunFault>
    requires { W.is_marked writer.old ≡ false }
    ensures write { W.is_marked writer.new ≡ is_write_end result }
    ensures faults { IfErr result IsReportFault }
{
    let text = save_text(alloc, config)?;
    write_all(writer, text.as_slice())?;
    Ok(())
}

/// Returns the save file of a configuration.
fn save_text(alloc: Global, config: &Config) -> Result<Vec<u8>, AllocError> {
    let mut text = Vec::new(alloc);
    text.extend_from_slice(BEGIN)?;
    text.extend_from_slice(BUS)?;
    text.extend_from_slice(UPPER_DATA)?;
    let open = config.boards() <= OPEN_BOARDS;
    for board in 0..config.boards() {
        print_slot(&mut text, config.slot(board), open)?;
    }
    Ok(text)
}

/// Appends the group of a slot.
fn print_slot(text: &mut Vec<u8>, slot: u16, open: bool) -> Result<(), AllocError> {
    print_group(text, if open { b"@800200\n" } else { b"@c00200\n" }, slot)?;
    for signal in SIGNALS.iter() {
        print_signal(text, slot, *signal)?;
    }
    print_group(text, if open { b"@1000200\n" } else { b"@1401200\n" }, slot)
}

/// Appends the begin or the end of a slot's group.
fn print_group(text: &mut Vec<u8>, flags: &[u8], slot: u16) -> Result<(), AllocError> {
    text.extend_from_slice(flags)?;
    text.extend_from_slice(b"-slot ")?;
    print_number(text, u64::from(slot))?;
    text.extend_from_slice(b"\n")
}

/// Appends a signal of a slot.
fn print_signal(text: &mut Vec<u8>, slot: u16, signal: Signal) -> Result<(), AllocError> {
    text.extend_from_slice(signal.0)?;
    text.extend_from_slice(b"vme.slot")?;
    print_number(text, u64::from(slot))?;
    text.extend_from_slice(b".s")?;
    print_number(text, u64::from(slot))?;
    text.extend_from_slice(b"_")?;
    text.extend_from_slice(signal.1)
}
