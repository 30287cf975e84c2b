//! The variables that are wanted of a dump.
ghost use Rattle.std.specs.Prelude.{◌≡◌, ◌≤◌, [], ◌∷◌, ◌==◌, length, Ok, Err, OnErr, slice_get};
ghost use Rattle.std.specs.Option.{option_map};
ghost use Rattle.vme_line_map.specs.Variables.{shown, added, most_wanted, Leaves};
ghost use Rattle.vme_line_map.specs.declared.fault.LinesProblem.TheVariants.{TooMany};

use crate::fault::LinesProblem;
use crate::group::Group;
use std::alloc::{AllocError, Global};
use std::marker::Model;

/// The greatest number of variables that are wanted.
pub const MOST_WANTED: usize = 500;

/// Which bits of a variable are lines, and which lines they are.
#[derive(Clone, Copy, Debug, PartialEq, Eq)]
pub enum Place {
    /// All bits, from the lowest line on that the variable's own range names, and this many more.
    Ranged(u8),
    /// All bits, from this line on.
    From(u8),
    /// The bits between two indices, from this line on.
    Bits { high: u16, low: u16, first: u8 },
}

/// A variable that is wanted of a dump.
#[derive(Clone, Copy, Debug)]
pub struct Wanted<'a> {
    /// Its whole path, or the end of it, with dots between scopes.
    pub name: &'a [u8],
    /// The lines that it has.
    pub group: Group,
    pub place: Place,
    /// Whether the lines are high where the variable is 0.
    pub is_inverted: bool,
}

/// A variable that is wanted, with the place of its name among all names.
#[derive(Clone, Copy, Debug)]
struct Row {
    from: usize,
    to: usize,
    group: Group,
    place: Place,
    is_inverted: bool,
}

/// The variables that are wanted of a dump.
#[derive(Drop)]
pub struct LineMap {
    names: Vec<u8>,
    rows: Vec<Row>,
    is_named: bool,
}

impl Model for LineMap {
    ghost use Rattle.vme_line_map.specs.Variables.{Map};

    ghost Value = { Map };

    ghost use Rattle.vme_line_map.specs.Rows.{variables_of, IsStored};

    ghost view = { λ m. record {
      variables = variables_of m.names.items m.rows.items;
      is_named = m.is_named;
    } };

    ghost invariant = { λ m. IsStored m.names.items m.rows.items };
}

impl LineMap {
    /// Returns a map of no variables. `is_named` says that somebody named them, so that a dump must
    /// have each.
    pub fn new(alloc: Global, is_named: bool) -> LineMap
        ensures { result ≡ record { variables = []; is_named = is_named } }
    {
        LineMap {
            names: Vec::new(alloc),
            rows: Vec::new(alloc),
            is_named,
        }
    }

    /// Returns whether a dump must have each variable.
    pub fn is_named(&self) -> bool
        ensures { result ≡ self.now.is_named }
    {
        self.is_named
    }

    /// Returns the number of variables.
    pub fn len(&self) -> usize
        ensures len { result ≡ length self.now.variables }
        ensures most { result ≤ most_wanted }
    {
        self.rows.len()
    }

    /// Returns whether there are no variables.
    pub fn is_empty(&self) -> bool
        ensures { result ≡ (length self.now.variables == 0) }
    {
        self.rows.is_empty()
    }

    /// Returns the variable at an index, if there is one.
    pub fn get(&self, index: usize) -> Option<Wanted<'_>>
        ensures { option_map shown result ≡ slice_get self.now.variables index }
    {
        let row = self.rows.as_slice().get(index)?;
        let name = self.names.as_slice().get(row.from..row.to)?;
        Some(Wanted {
            name,
            group: row.group,
            place: row.place,
            is_inverted: row.is_inverted,
        })
    }

    /// Adds a variable.
    ///
    /// # Errors
    ///
    /// An allocation failed, or the map is full.
    pub(crate) fn add(
        &mut self,
        wanted: &Wanted<'_>,
    ) -> Result<Result<(), LinesProblem>, AllocError>
        ensures added { Leaves result self.new (added self.old (shown wanted.now ∷ [])) }
        ensures full { result ≡ Ok (Err TooMany) → self.new ≡ self.old }
        ensures err { OnErr result (self.new ≡ self.old) }
    {
        if MOST_WANTED <= self.rows.len() {
            return Ok(Err(LinesProblem::TooMany));
        }
        let from = self.names.len();
        self.names.extend_from_slice(wanted.name)?;
        self.rows.push(Row {
            from,
            to: self.names.len(),
            group: wanted.group,
            place: wanted.place,
            is_inverted: wanted.is_inverted,
        })?;
        Ok(Ok(()))
    }
}
