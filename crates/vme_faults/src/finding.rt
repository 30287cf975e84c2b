//! Findings: what is wrong, and where.
ghost use Rattle.std.specs.Prelude.{◌≡◌, ◌∷◌, ◌++◌, [], if◌then◌else◌, is_ok};

use crate::cause::Cause;
use std::alloc::AllocError;
use vme_positions::Place;

/// A fault of a file, or a warning, and its place.
#[derive(Clone, Copy, Debug, PartialEq, Eq)]
pub struct Finding {
    /// What is wrong, with the values that its text names.
    pub cause: Cause,
    /// Where it is.
    pub place: Place,
}

/// Appends a finding.
pub fn find(found: &mut Vec<Finding>, cause: Cause, place: Place) -> Result<(), AllocError>
    ensures { found.new.items ≡ (if is_ok result then
        found.old.items ++ record { cause = cause; place = place } ∷ [] else found.old.items) }
{
    found.push(Finding { cause, place })?;
    Ok(())
}
