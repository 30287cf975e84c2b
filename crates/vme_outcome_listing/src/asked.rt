//! What the engine is asked for.
ghost use Rattle.std.specs.Prelude.{◌≡◌, option_map, is_some};
ghost use Rattle.vme_outcome_listing.specs.Outputs.{output_of};

use crate::condition::Condition;
use crate::kept::Kept;
use std::marker::Model;

/// How an outcome is printed.
#[derive(Clone, Copy, Debug, PartialEq, Eq)]
pub enum Form {
    /// As the line of its schedule, its text and an empty line.
    Paragraphs,
    /// As one line, with its schedule at the end.
    Table,
}

/// What the engine is asked for.
#[derive(Drop)]
pub struct Asked<'a> {
    /// The greatest number of states.
    pub limit: usize,
    /// How an outcome is printed.
    pub form: Form,
    /// Whether the outcomes are left out.
    pub quiet: bool,
    /// The lines that are kept of an outcome; all lines, if there is none.
    pub kept: Option<&'a Kept>,
    /// The conditions, in the order of their lines.
    pub conditions: &'a [Condition<'a>],
}

impl<'a> Model for Asked<'a> {
    ghost use Rattle.std.specs.Prelude.{option_map};
    ghost use Rattle.vme_outcome_listing.specs.Outputs.{AskedView};

    ghost Value = { AskedView };

    ghost view = { λ a. record {
      form = a.form;
      quiet = a.quiet;
      kept = option_map (λ k. k.now) a.kept;
      conditions = a.conditions.now;
    } };
}

/// What is asked of the output.
#[derive(Clone, Copy)]
pub(crate) struct Output {
    /// How an outcome is printed.
    pub(crate) form: Form,
    /// Whether the outcomes are left out.
    pub(crate) quiet: bool,
    /// Whether the outcomes are those of some lines.
    pub(crate) some: bool,
}

impl<'a> Asked<'a> {
    /// Returns the same questions, with another limit.
    pub fn within(&self, limit: usize) -> Asked<'a>
        ensures { result ≡ self.now }
    {
        Asked {
            limit,
            form: self.form,
            quiet: self.quiet,
            kept: self.kept,
            conditions: self.conditions,
        }
    }

    /// Returns what is asked of the output.
    pub(crate) fn output(&self) -> Output
        ensures { result ≡ output_of self.now }
    {
        Output {
            form: self.form,
            quiet: self.quiet,
            some: self.kept.is_some(),
        }
    }
}
