//! The findings of an input, printed in pieces.
ghost use Rattle.std.specs.Prelude.{◌≡◌, false, IfErr};
ghost use Rattle.vme_report.specs.Ends.{IsReportFault, is_write_end};

use crate::check::CheckEnd;
use crate::findings::{finding_from, line_after};
use crate::report::{Counts, Form, Input, Located, Report};
use std::alloc::{AllocError, Global};
use vme_faults::Finding;
use vme_io::{Sink, WRITE_SIZE, flush_if_full, write_all};
use vme_lexer::Lines;
use vme_positions::Outline;
use vme_report::RunFault;
use vme_script::ConfigFault;

/// Prints the findings of a configuration file as the form says, and then its refusal.
pub(crate) fn print_file<W: Sink>(
    alloc: Global,
    name: &str,
    text: &[u8],
    findings: &[Finding],
    end: &CheckEnd,
    form: &Form,
    writer: &mut W,
) -> Result<(), RunFault>
    requires unmarked { W.is_marked writer.old ≡ false }
    ensures write { W.is_marked writer.new ≡ is_write_end result }
    ensures faults { IfErr result IsReportFault }
{
    let outline = Outline::of(alloc, text)?;
    let input = Input::of_file(text, &outline);
    let located = input.locate(alloc, findings, form)?;
    let mut printer = Printer::new(alloc, name, input, form)?;
    for one in located.as_slice() {
        printer.print(one, writer)?;
    }
    printer.end(end.counts, end.refusal, writer)
}

/// Prints the findings of request lines as the form says, one by one.
pub(crate) fn print_lines<W: Sink>(
    alloc: Global,
    name: &str,
    text: &[u8],
    counts: Counts,
    form: &Form,
    writer: &mut W,
) -> Result<(), RunFault>
    requires unmarked { W.is_marked writer.old ≡ false }
    ensures write { W.is_marked writer.new ≡ is_write_end result }
    ensures faults { IfErr result IsReportFault }
{
    let input = Input::of_lines(text);
    let mut printer = Printer::new(alloc, name, input, form)?;
    let mut left = form.most();
    let mut start = 0usize;
    for line in Lines::new(text) {
        if left == 0 {
            break;
        }
        if let Some(finding) = finding_from(start, line)
            && form.shows(finding.cause)
        {
            printer.print(&input.located(finding, false), writer)?;
            left -= 1;
        }
        start = line_after(text, start);
    }
    printer.end(counts, None, writer)
}

/// The report of an input, which is collected in a buffer and written in large pieces.
#[derive(Drop)]
struct Printer<'a> {
    report: Report<'a>,
    text: Vec<u8>,
}

impl<'a> Printer<'a> {
    /// A printer of the findings of an input with this name.
    fn new(
        alloc: Global,
        name: &'a str,
        input: Input<'a>,
        form: &Form,
    ) -> Result<Printer<'a>, AllocError> {
        Ok(Printer {
            report: Report::new(alloc, name, input, form)?,
            text: Vec::with_capacity(alloc, WRITE_SIZE)?,
        })
    }

    /// Appends the text of a finding to the buffer, and writes the buffer if it is full.
    fn print<W: Sink>(&mut self, one: &Located, writer: &mut W) -> Result<(), RunFault>
        requires unmarked { W.is_marked writer.old ≡ false }
        ensures write { W.is_marked writer.new ≡ is_write_end result }
        ensures faults { IfErr result IsReportFault }
    {
        let printed = self.report.finding(one)?;
        self.text.extend_from_slice(printed.as_bytes())?;
        flush_if_full(&mut self.text, writer)?;
        Ok(())
    }

    /// Writes the rest of the buffer, and what follows the findings.
    fn end<W: Sink>(
        &mut self,
        counts: Counts,
        refusal: Option<ConfigFault>,
        writer: &mut W,
    ) -> Result<(), RunFault>
        requires unmarked { W.is_marked writer.old ≡ false }
        ensures write { W.is_marked writer.new ≡ is_write_end result }
        ensures faults { IfErr result IsReportFault }
    {
        let tail = self.report.tail(counts, refusal)?;
        self.text.extend_from_slice(tail.as_bytes())?;
        write_all(writer, self.text.as_slice())?;
        Ok(())
    }
}
