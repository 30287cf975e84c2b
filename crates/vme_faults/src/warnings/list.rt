//! Lists of warnings.
ghost use Rattle.std.specs.Prelude.{◌≡◌, true};
ghost use Rattle.std.specs.List.{list_all};
ghost use Rattle.vme_faults.specs.declared.cause.Severity.TheVariants.{Warning};
ghost use Rattle.vme_faults.specs.Causes.{severity_of};
ghost use Rattle.vme_faults.specs.Severities.{is_warning};

use crate::cause::{Cause, FileWarning, LineWarning};
use crate::finding::{Finding, find};
use std::alloc::{AllocError, Global};
use vme_positions::Place;

/// Findings that are warnings.
#[derive(Drop)]
pub(crate) struct Warnings {
    found: Vec<Finding>,
    ghost all: { list_all is_warning found.items ≡ true },
}

impl Warnings {
    /// No warnings.
    pub(crate) fn new(alloc: Global) -> Warnings {
        Warnings {
            found: Vec::new(alloc),
        }
    }

    /// Appends a warning of the file.
    pub(crate) fn file(&mut self, warning: FileWarning, place: Place) -> Result<(), AllocError> {
        self.push(Cause::File(warning), place)
    }

    /// Appends a warning of a line of the script of the board in `slot`.
    pub(crate) fn line(
        &mut self,
        slot: u16,
        line: u16,
        warning: LineWarning,
        place: Place,
    ) -> Result<(), AllocError> {
        let cause = Cause::Line {
            slot,
            line,
            warning,
        };
        self.push(cause, place)
    }

    /// Appends a warning.
    #[tactic(auto, using(crate::proofs::Severities::still_warnings))]
    fn push(&mut self, cause: Cause, place: Place) -> Result<(), AllocError>
        requires { severity_of cause ≡ Warning }
    {
        find(&mut self.found, cause, place)
    }

    /// The findings.
    pub(crate) fn into_findings(self) -> Vec<Finding>
        ensures { list_all is_warning result.items ≡ true }
    {
        self.found
    }
}
