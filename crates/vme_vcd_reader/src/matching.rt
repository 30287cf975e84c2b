//! Which variables of the header are those that the map wants.
ghost use Rattle.std.specs.Prelude.{◌≡◌, ◌∷◌, ◌++◌, [], List, false, not, IfOk, IfErr, OnOk};
ghost use Rattle.std.specs.List.{list_any};
ghost use Rattle.vme_line_map.specs.Variables.{shown};
ghost use Rattle.vme_vcd_reader.specs.declared.fault.VcdFault.TheVariants.{Memory, TooManyMapped};
ghost use Rattle.vme_vcd_reader.specs.declared.matching.Fit.TheVariants as fits;
ghost use Rattle.vme_vcd_reader.specs.Found.{Holds, IsFound, IsMatching, fit_of};
ghost use Rattle.vme_vcd_reader.specs.Mapping.{Declaration, declaration_of};
ghost use Rattle.vme_vcd_reader.specs.Matches.{clashes, ends_with_name, is_same};

use crate::fault::VcdFault;
use crate::variable::{Declared, Mapped};
use std::alloc::{AllocError, Global};
use vme_line_map::{LineMap, Wanted};

/// How well a name fits the path of a variable.
#[derive(Clone, Copy, Debug, PartialEq, Eq)]
pub(crate) enum Fit {
    None,
    /// The name is the end of the path.
    End,
    /// The name is the whole path.
    Whole,
}

/// A variable of the dump that is a wanted one, or some bits of it.
#[derive(Clone, Copy, Debug)]
pub(crate) struct Part {
    pub(crate) scope: u64,
    pub(crate) identifier: u64,
    pub(crate) mapped: Mapped,
}

/// What was found of a wanted variable.
#[derive(Drop)]
pub(crate) struct Found {
    /// The best fit so far. The rest is of the variables that fit so.
    pub(crate) fit: Fit,
    /// Whether they cannot be one variable.
    pub(crate) is_ambiguous: bool,
    /// Whether one has other bits than the map says.
    pub(crate) is_wrong: bool,
    /// Each of them once, unless they are ambiguous.
    pub(crate) parts: Vec<Part>,
}

/// The variables that fit so far.
#[derive(Drop)]
pub(crate) struct Matching {
    /// What was found of each wanted variable.
    pub(crate) found: Vec<Found>,
}

/// Whether a path ends with a name, after a dot.
fn is_end(path: &[u8], name: &[u8]) -> bool
    ensures { result ≡ ends_with_name path.now name.now }
{
    let Some(start) = path.len().checked_sub(name.len() + 1) else {
        return false;
    };
    path[start] == b'.' && &path[start + 1..] == name
}

/// How a name fits the path of a variable.
fn fit_of(declared: &Declared<'_>, name: &[u8]) -> Fit
    ensures { result ≡ fit_of name.now (declaration_of declared.now) }
{
    if declared.path == name {
        return Fit::Whole;
    }
    if is_end(declared.path, name) {
        return Fit::End;
    }
    Fit::None
}

/// Whether two variables are the same bits of one identifier, as the same lines.
fn is_same(part: &Part, other: &Part) -> bool
    ensures { result ≡ is_same part.now other.now }
{
    let (one, two) = (&part.mapped, &other.mapped);
    part.identifier == other.identifier
        && one.right == two.right
        && one.first == two.first
        && one.mask == two.mask
        && one.size == two.size
}

/// Whether two different variables cannot be one together.
fn clashes(part: &Part, other: &Part) -> bool
    ensures { result ≡ clashes part.now other.now }
{
    part.scope != other.scope || part.mapped.mask & other.mapped.mask != 0
}

/// Whether a variable is the same as one before.
fn has_same(parts: &[Part], part: &Part) -> bool
    ensures { result ≡ list_any (λ p. is_same p part.now) parts.now }
{
    for other in parts {
        if is_same(other, part) {
            return true;
        }
    }
    false
}

/// Whether a variable clashes with one before.
fn has_clash(parts: &[Part], part: &Part) -> bool
    ensures { result ≡ list_any (λ p. clashes p part.now) parts.now }
{
    for other in parts {
        if clashes(other, part) {
            return true;
        }
    }
    false
}

impl Found {
    /// Takes a variable of the header.
    fn take(&mut self, wanted: &Wanted<'_>, declared: &Declared<'_>) -> Result<(), AllocError>
        ensures { (ds : List Declaration) → IsFound ds (shown wanted.now) self.old →
            OnOk result (IsFound (ds ++ declaration_of declared.now ∷ []) (shown wanted.now) self.new) }
    {
        match fit_of(declared, wanted.name) {
            Fit::None => Ok(()),
            Fit::End => self.take_end(wanted, declared),
            Fit::Whole => self.take_whole(wanted, declared),
        }
    }

    /// Takes a variable whose path ends with the name.
    fn take_end(&mut self, wanted: &Wanted<'_>, declared: &Declared<'_>) -> Result<(), AllocError>
        ensures { (ds : List Declaration) → fit_of wanted.now.name.now (declaration_of declared.now) ≡ fits.End →
            IsFound ds (shown wanted.now) self.old →
            OnOk result (IsFound (ds ++ declaration_of declared.now ∷ []) (shown wanted.now) self.new) }
    {
        match self.fit {
            Fit::Whole => return Ok(()),
            Fit::End => self.add(wanted, declared)?,
            Fit::None => {
                self.begin(Fit::End);
                self.add(wanted, declared)?;
            }
        }
        Ok(())
    }

    /// Takes a variable whose whole path is the name.
    fn take_whole(&mut self, wanted: &Wanted<'_>, declared: &Declared<'_>) -> Result<(), AllocError>
        ensures { (ds : List Declaration) → fit_of wanted.now.name.now (declaration_of declared.now) ≡ fits.Whole →
            IsFound ds (shown wanted.now) self.old →
            OnOk result (IsFound (ds ++ declaration_of declared.now ∷ []) (shown wanted.now) self.new) }
    {
        match self.fit {
            Fit::Whole => self.add(wanted, declared)?,
            _ => {
                self.begin(Fit::Whole);
                self.add(wanted, declared)?;
            }
        }
        Ok(())
    }

    /// Begins with the variables of a better fit.
    fn begin(&mut self, fit: Fit)
        ensures fit { self.new.fit ≡ fit }
        ensures ambiguous { self.new.is_ambiguous ≡ false }
        ensures wrong { self.new.is_wrong ≡ false }
        ensures parts { self.new.parts.items ≡ [] }
    {
        self.fit = fit;
        self.is_ambiguous = false;
        self.is_wrong = false;
        self.parts.clear();
    }

    /// Adds a variable that fits as well as those before.
    fn add(&mut self, wanted: &Wanted<'_>, declared: &Declared<'_>) -> Result<(), AllocError>
        ensures fit { self.new.fit ≡ self.old.fit }
        ensures holds { (named : List Declaration) → Holds named (shown wanted.now) self.old →
            OnOk result (Holds (named ++ declaration_of declared.now ∷ []) (shown wanted.now) self.new) }
    {
        let Some(mapped) = declared.mapped(wanted) else {
            self.is_wrong = true;
            return Ok(());
        };
        let part = Part {
            scope: declared.scope,
            identifier: declared.identifier,
            mapped,
        };
        if has_same(self.parts.as_slice(), &part) {
            return Ok(());
        }
        if has_clash(self.parts.as_slice(), &part) {
            self.is_ambiguous = true;
            return Ok(());
        }
        self.parts.push(part)?;
        Ok(())
    }
}

impl Matching {
    /// Returns what is found before the first variable.
    ///
    /// # Errors
    ///
    /// An allocation failed.
    pub(crate) fn new(alloc: Global, map: &LineMap) -> Result<Matching, AllocError>
        ensures { IfOk result (IsMatching map.now []) }
    {
        let mut found = Vec::new(alloc);
        for _ in 0..map.len() {
            found.push(Found {
                fit: Fit::None,
                is_ambiguous: false,
                is_wrong: false,
                parts: Vec::new(alloc),
            })?;
        }
        Ok(Matching { found })
    }

    /// Takes a variable of the header.
    ///
    /// # Errors
    ///
    /// An allocation failed.
    pub(crate) fn take(&mut self, map: &LineMap, declared: &Declared<'_>) -> Result<(), AllocError>
        ensures { (ds : List Declaration) → IsMatching map.now ds self.old →
            OnOk result (IsMatching map.now (ds ++ declaration_of declared.now ∷ []) self.new) }
    {
        for index in 0..map.len() {
            let Some(wanted) = map.get(index) else {
                break;
            };
            if self.found.len() <= index {
                break;
            }
            self.found[index].take(&wanted, declared)?;
        }
        Ok(())
    }
}
