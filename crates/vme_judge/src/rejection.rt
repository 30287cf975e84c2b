//! Why a text is not judged.
ghost use Rattle.std.specs.Prelude.{◌≡◌, ◌++◌, codes, string_bytes, OnOk};
ghost use Rattle.std.specs.Option.{option_map};
ghost use Rattle.vme_bus_log.specs.FaultTexts as logs;
ghost use Rattle.vme_line_map.specs.Variables.{shown};
ghost use Rattle.vme_vcd_reader.specs.FaultTexts.{fault_text, wanted_of};
ghost use Rattle.vme_judge.specs.RejectionTexts.{break_text, line_text, rejected_text, variable_name, variable_text, wanted_text, why_text};

use crate::json::write_rejection;
use crate::log::LogBreak;
use std::alloc::{AllocError, Global};
use std::fmt::Write;
use vme_bus_log::LogFault;
use vme_line_map::{LineMap, Wanted};
use vme_vcd_reader::VcdFault;

/// Why a text is not judged.
#[derive(Clone, Copy, Debug, PartialEq, Eq)]
pub(crate) enum Why {
    Dump(VcdFault),
    Log(LogFault),
    Break(LogBreak),
    /// A dump has no sample at rest, or neither data nor local accesses.
    Nothing,
}

/// Why a text is not judged, and the number of the line.
#[derive(Clone, Copy, Debug, PartialEq, Eq)]
pub(crate) struct Rejection {
    pub(crate) why: Why,
    pub(crate) line: Option<u64>,
}

impl Rejection {
    /// Appends it as text or as a JSON object.
    ///
    /// # Errors
    ///
    /// An allocation failed.
    #[tactic(auto, unfolding(crate::specs::RejectionTexts::rejection_text))]
    pub(crate) fn write(
        &self,
        alloc: Global,
        name: &str,
        map: &LineMap,
        json: bool,
        to: &mut String,
    ) -> Result<(), AllocError>
        ensures { OnOk result (
            string_bytes to.new ≡ string_bytes to.old ++ rejected_text json name.now map.now self.now) }
    {
        let mut text = String::new(alloc);
        write_why(self.why, map, &mut text)?;
        if json {
            write_rejection(name, self.line, &text, to)
        } else {
            write_plain(name, self.line, &text, to)
        }
    }
}

/// Appends the name of a file, the number of a line and what is wrong.
fn write_plain(name: &str, line: Option<u64>, text: &str, to: &mut String) -> Result<(), AllocError>
    ensures { OnOk result (string_bytes to.new
        ≡ string_bytes to.old ++ (name.now ++ line_text line ++ codes ": error: " ++ text.now ++ codes "\n")) }
{
    to.push_str(name)?;
    write_line(line, to)?;
    write!(to, ": error: {text}\n")
}

/// Appends the number of a line, if it is known.
fn write_line(line: Option<u64>, to: &mut String) -> Result<(), AllocError>
    ensures { OnOk result (string_bytes to.new ≡ string_bytes to.old ++ line_text line) }
{
    match line {
        Some(line) => write!(to, ":{line}"),
        None => Ok(()),
    }
}

/// Appends what is wrong.
fn write_why(why: Why, map: &LineMap, to: &mut String) -> Result<(), AllocError>
    ensures { OnOk result (string_bytes to.new ≡ string_bytes to.old ++ why_text map.now why) }
{
    match why {
        Why::Dump(fault) => write_dump_fault(fault, map, to),
        Why::Log(fault) => write_log_fault(fault, to),
        Why::Break(broken) => to.push_str(break_text(broken)),
        Why::Nothing => to.push_str("no handshake and no local access: nothing is judged"),
    }
}

/// Appends what is wrong with a dump.
fn write_dump_fault(fault: VcdFault, map: &LineMap, to: &mut String) -> Result<(), AllocError>
    ensures { OnOk result (
        string_bytes to.new ≡ string_bytes to.old ++ (fault_text fault ++ wanted_text map.now (wanted_of fault))) }
{
    to.push_str(fault.text())?;
    write_wanted(map, fault.wanted(), to)
}

/// Appends the text of a line that is none of a log.
fn write_log_fault(fault: LogFault, to: &mut String) -> Result<(), AllocError>
    ensures { OnOk result (string_bytes to.new ≡ string_bytes to.old ++ logs.fault_text fault) }
{
    write!(to, "{fault}")
}

/// Why a line of a log does not go on from the line before.
fn break_text(broken: LogBreak) -> &'static str
    ensures { result.now ≡ break_text broken }
{
    match broken {
        LogBreak::Number => "`n=` is neither 0 nor the number of data before it",
        LogBreak::Address => "`am=` and `a=` are not those of the transfer's first datum",
    }
}

/// Appends the name of the variable at an index and its lines, if it is one.
fn write_wanted(map: &LineMap, index: Option<u16>, to: &mut String) -> Result<(), AllocError>
    ensures { OnOk result (string_bytes to.new ≡ string_bytes to.old ++ wanted_text map.now index) }
{
    match index {
        Some(index) => write_variable(map.get(usize::from(index)), to),
        None => Ok(()),
    }
}

/// Appends the name of a variable and its lines, if the map has it.
fn write_variable(wanted: Option<Wanted<'_>>, to: &mut String) -> Result<(), AllocError>
    ensures { OnOk result (
        string_bytes to.new ≡ string_bytes to.old ++ variable_text (option_map shown wanted.entry)) }
{
    let Some(wanted) = wanted else {
        return Ok(());
    };
    to.push_str(": `")?;
    write_name(wanted.name, to)?;
    let lines = wanted.group.name();
    write!(to, "` ({lines})")
}

/// Appends the name of a variable, if it is text.
fn write_name(name: &[u8], to: &mut String) -> Result<(), AllocError>
    ensures { OnOk result (string_bytes to.new ≡ string_bytes to.old ++ variable_name name.now) }
{
    match std::str::from_utf8(name) {
        Ok(name) => to.push_str(name),
        Err(_) => to.push_str("?"),
    }
}
