//! The engine of `bendrika check`: from the bytes of a configuration file to its findings.
ghost use Rattle.std.specs.Prelude.{◌≡◌, ◌==◌, false, is_none, IsTrue, IfOk, IfErr, IfSome};
ghost use Rattle.vme_report.specs.Ends.{IsReportFault, is_write_end};
ghost use Rattle.vme_check.specs.Verdicts.{first_refusal};
ghost use Rattle.vme_check.specs.Answers.{IsAnswer};
ghost use Rattle.vme_engines.specs.Faults.{IsCyclesFault, ReadsWithin, is_read_failure, is_write_failure};

use crate::findings::{counts_of, findings_of};
use crate::report::{Counts, Form, print_file};
use std::alloc::Global;
use vme_engines::{FILE_LIMIT, ProgramFault, read_input};
use vme_faults::Finding;
use vme_io::{Sink, Source};
use vme_report::RunFault;
use vme_script::ConfigFault;

/// How a check of a configuration file ended.
#[derive(Clone, Copy, Debug, PartialEq, Eq)]
pub struct CheckEnd {
    /// How many findings there are.
    pub counts: Counts,
    /// The refusal of the file; `None` if it is a configuration.
    pub refusal: Option<ConfigFault>,
}

/// Finds the faults and warnings of a configuration file, and prints them as the form says. Returns
/// how many there are, and the refusal of the file.
///
/// The engine first reads the input, to its end or to one byte past `FILE_LIMIT`; it prints nothing
/// before that. The contract does not state the text of the findings.
///
/// # Errors
///
/// `Read` or `Write`: the reader or the writer failed. `TooLong`: the input has more than
/// `FILE_LIMIT` bytes. `Memory`: an allocation failed.
pub fn check_engine<R: Source, W: Sink>(
    alloc: Global,
    name: &str,
    form: &Form,
    reader: &mut R,
    writer: &mut W,
) -> Result<CheckEnd, ProgramFault>
    requires reader_unmarked { R.is_marked reader.old ≡ false }
    requires writer_unmarked { W.is_marked writer.old ≡ false }
    ensures answer { IfSome (R.remaining reader.old) (λ input.
        IfOk result (λ end. IsAnswer input end.refusal)) }
    ensures counts { IfOk result (λ end. is_none end.refusal ≡ (end.counts.errors == 0)) }
    ensures quiet { IsTrue form.now.quiet → writer.new ≡ writer.old }
    ensures read { R.is_marked reader.new ≡ is_read_failure result }
    ensures limit { ReadsWithin FILE_LIMIT (R.remaining reader.old) (R.remaining reader.new) result }
    ensures write { W.is_marked writer.new ≡ is_write_failure result }
    ensures faults { IfErr result IsCyclesFault }
{
    let input = read_input(alloc, reader, FILE_LIMIT)?;
    let end = check_text(alloc, name, form, input.as_slice(), writer)?;
    Ok(end)
}

/// Finds the faults and warnings of a configuration file's text, and prints them.
#[tactic(auto, using(crate::proofs::Refusals::answered, crate::proofs::Refusals::counted))]
fn check_text<W: Sink>(
    alloc: Global,
    name: &str,
    form: &Form,
    text: &[u8],
    writer: &mut W,
) -> Result<CheckEnd, RunFault>
    requires unmarked { W.is_marked writer.old ≡ false }
    ensures answer { IfOk result (λ end. IsAnswer text.now end.refusal) }
    ensures counts { IfOk result (λ end. is_none end.refusal ≡ (end.counts.errors == 0)) }
    ensures quiet { IsTrue form.now.quiet → writer.new ≡ writer.old }
    ensures write { W.is_marked writer.new ≡ is_write_end result }
    ensures faults { IfErr result IsReportFault }
{
    let findings = findings_of(alloc, text)?;
    let findings = findings.as_slice();
    let end = CheckEnd {
        counts: counts_of(findings),
        refusal: refusal_of(findings),
    };
    if !form.quiet {
        print_file(alloc, name, text, findings, &end, form, writer)?;
    }
    Ok(end)
}

/// Returns the refusal of a file with these findings, or `None` if the file is a configuration.
fn refusal_of(findings: &[Finding]) -> Option<ConfigFault>
    ensures { result ≡ first_refusal findings.now }
{
    findings.first()?.cause.refusal()
}
