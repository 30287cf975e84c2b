//! The findings of a file, its refusal first, and of request lines.
ghost use Rattle.std.specs.Prelude.{◌≡◌, Some, IfOk, IsUtf8};
ghost use Rattle.std.specs.List.{count_by};
ghost use Rattle.toml.specs.Errors.{IsMemory};
ghost use Rattle.toml.specs.Parse.{parse_document};
ghost use Rattle.toml.specs.View.{table_view};
ghost use Rattle.vme_faults.specs.Causes.{refusal_of};
ghost use Rattle.vme_check.specs.Verdicts.{first_refusal, is_error, AreFindingsOf};

mod laws;
mod lines;
mod request_line;

use crate::report::Counts;
pub use laws::no_file_is_both;
pub(crate) use lines::{counts_of_lines, finding_from, line_after};
pub use request_line::{RequestRefusal, request_finding};
use std::alloc::{AllocError, Global};
use toml::Table;
use toml::de::Error;
use vme_faults::{
    Cause, DocumentCause, Finding, Severity, TomlError, faults_of, find, warnings_of,
};
use vme_positions::Place;
use vme_script::{Config, ConfigFault};

/// Returns all faults of a file that can be distinguished, or the warnings of a configuration.
///
/// A file that `vme` refuses has errors only, and the first of them is that refusal. A test is made
/// only where all values that it needs are known and not refused themselves, so a fault that only
/// follows from another one is not found.
///
/// # Errors
///
/// An allocation failed.
#[tactic(auto, using(crate::proofs::Verdicts::not_a_document))]
pub fn findings_of(alloc: Global, text: &[u8]) -> Result<Vec<Finding>, AllocError>
    ensures { IfOk result (λ findings. AreFindingsOf text.now findings.items) }
{
    match toml::table_from_slice(alloc, text) {
        Ok(table) => findings_in(alloc, text, &table),
        Err(error) => {
            let findings = not_toml(alloc, error)?;
            Ok(findings)
        }
    }
}

/// Returns how many errors and warnings there are among findings.
pub(crate) fn counts_of(findings: &[Finding]) -> Counts
    ensures { result.errors ≡ count_by is_error findings.now }
{
    Counts {
        errors: findings.iter().filter(|finding| is_fault(*finding)).count(),
        warnings: findings
            .iter()
            .filter(|finding| !is_fault(*finding))
            .count(),
    }
}

/// Whether a finding is an error.
fn is_fault(finding: &Finding) -> bool
    ensures { result ≡ is_error finding.now }
{
    match finding.cause.severity() {
        Severity::Error => true,
        Severity::Warning => false,
    }
}

/// The findings of a text that has been parsed.
fn findings_in(alloc: Global, text: &[u8], table: &Table) -> Result<Vec<Finding>, AllocError>
    requires text { IsUtf8 text.now }
    requires document { parse_document text.now ≡ Some (table_view table.now) }
    ensures { IfOk result (λ findings. AreFindingsOf text.now findings.items) }
{
    match Config::of_document(alloc, table) {
        Ok(config) => warnings_of(alloc, text, table, &config),
        Err(ConfigFault::OutOfMemory) => Err(AllocError),
        Err(fault) => errors_of(alloc, table, fault),
    }
}

/// The finding of a text that is not TOML.
fn not_toml(alloc: Global, error: Error) -> Result<Vec<Finding>, AllocError>
    ensures { IfOk result (λ findings. (IsMemory error → ⊥)
        × (first_refusal findings.items ≡ Some ConfigFault.NotToml)) }
{
    let Some(span) = error.span() else {
        return Err(AllocError);
    };
    let place = Place::Bytes {
        from: span.start,
        to: span.end,
    };
    let mut findings = Vec::new(alloc);
    let cause = Cause::Document(DocumentCause::NotToml {
        error: TomlError::of(&error),
    });
    find(&mut findings, cause, place)?;
    Ok(findings)
}

/// The faults of a document with a refusal, which is the first of them.
fn errors_of(alloc: Global, table: &Table, fault: ConfigFault) -> Result<Vec<Finding>, AllocError>
    ensures { IfOk result (λ findings. first_refusal findings.items ≡ Some fault) }
{
    let mut findings = faults_of(alloc, table)?;
    let first = first_finding(findings.as_slice(), fault);
    findings.retain(|finding| *finding != first);
    findings.insert(0, first)?;
    Ok(findings)
}

/// The first finding with this refusal, or one without values if there is none.
fn first_finding(found: &[Finding], fault: ConfigFault) -> Finding
    ensures { refusal_of result.cause ≡ Some fault }
{
    for finding in found {
        if finding.cause.refusal() == Some(fault) {
            return *finding;
        }
    }
    Finding {
        cause: Cause::Refused(fault),
        place: Place::File,
    }
}
