//! The form in which findings are printed, and their counts.
ghost use Rattle.std.specs.Prelude.{◌≡◌, ◌+◌, ◌<◌, ◌^◌, if◌then◌else◌};
ghost use Rattle.vme_faults.specs.Causes.{severity_of};
ghost use Rattle.vme_faults.specs.Severities.{is_of_warning};

use std::alloc::{AllocError, Global};
use std::fmt::Write;
use vme_faults::{Cause, Severity};

/// Which findings are printed, and in which form.
#[derive(Clone, Copy, Debug, PartialEq, Eq)]
pub struct Form {
    /// A line with a JSON object for each finding, in place of text.
    pub json: bool,
    /// Nothing is printed.
    pub quiet: bool,
    /// Warnings are left out.
    pub no_warnings: bool,
    /// The greatest number of findings of an input that are printed; 0 is no limit.
    pub limit: usize,
}

impl Form {
    /// Whether findings with a cause are printed.
    pub(crate) fn shows(&self, cause: Cause) -> bool {
        !self.no_warnings || cause.severity() == Severity::Error
    }

    /// The greatest number of findings that are printed.
    pub(crate) fn most(&self) -> usize {
        if self.limit == 0 {
            usize::MAX
        } else {
            self.limit
        }
    }

    /// How many of an input's findings are past the limit.
    pub(crate) fn left_out(&self, counts: Counts) -> usize {
        let warnings = if self.no_warnings { 0 } else { counts.warnings };
        counts
            .errors
            .saturating_add(warnings)
            .saturating_sub(self.most())
    }
}

/// The numbers of errors and of warnings among findings.
#[derive(Clone, Copy, Debug, PartialEq, Eq)]
pub struct Counts {
    pub errors: usize,
    pub warnings: usize,
}

impl Counts {
    /// No finding.
    pub const NONE: Counts = Counts {
        errors: 0,
        warnings: 0,
    };

    /// The counts of one finding with this cause.
    pub(crate) fn of(cause: Cause) -> Counts
        ensures errors { result.errors ≡ (if is_of_warning (severity_of cause) then 0 else 1) }
        ensures warnings { result.warnings ≡ (if is_of_warning (severity_of cause) then 1 else 0) }
    {
        match cause.severity() {
            Severity::Error => Counts {
                errors: 1,
                warnings: 0,
            },
            Severity::Warning => Counts {
                errors: 0,
                warnings: 1,
            },
        }
    }

    /// Returns the counts of two inputs together. A sum stops at `usize::MAX`.
    pub fn and(self, other: Counts) -> Counts
        ensures errors { self.errors + other.errors < 2 ^ 64 →
            result.errors ≡ self.errors + other.errors }
        ensures warnings { self.warnings + other.warnings < 2 ^ 64 →
            result.warnings ≡ self.warnings + other.warnings }
    {
        Counts {
            errors: self.errors.saturating_add(other.errors),
            warnings: self.warnings.saturating_add(other.warnings),
        }
    }
}

/// Returns the last line of a report: how many errors there are, and how many warnings if the form
/// has them.
///
/// # Errors
///
/// An allocation failed.
pub fn summary(alloc: Global, counts: Counts, form: &Form) -> Result<String, AllocError> {
    let mut to = String::new(alloc);
    push_count(counts.errors as u64, "error", &mut to)?;
    if !form.no_warnings {
        to.push_str(", ")?;
        push_count(counts.warnings as u64, "warning", &mut to)?;
    }
    to.push('\n')?;
    Ok(to)
}

/// Appends a count and the word for what is counted, in the plural unless the count is 1.
///
/// # Errors
///
/// An allocation failed.
pub(crate) fn push_count(count: u64, thing: &str, to: &mut String) -> Result<(), AllocError> {
    let plural = if count == 1 { "" } else { "s" };
    write!(to, "{count} {thing}{plural}")
}
