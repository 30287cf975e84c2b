//! The variables that are lines of the bus, once the header is read.
ghost use Rattle.std.specs.Prelude.{◌≡◌, ◌&&◌, ◌∷◌, ◌++◌, ◌⊎◌, [], List, true, false, map, Bool, Ok, Err, Some, None, IfOk, IfErr, slice_get, length, ◌≤◌};
ghost use Rattle.vme_line_map.specs.Variables.{Map, Variable, shown};
ghost use Rattle.vme_vcd_reader.specs.declared.fault.VcdFault.TheVariants.{Memory};
ghost use Rattle.vme_vcd_reader.specs.Found.{AreClear, IsFound, IsFull, IsMapFault, IsMatching};
ghost use Rattle.vme_vcd_reader.specs.Mapping.{Declaration};
ghost use Rattle.vme_vcd_reader.specs.Matches.{absent_fault, fault_at, first_fault, has_a01, has_group, is_a01, is_there, line_of, lines_in, lines_of, needed_number, own_lines};
ghost use Rattle.vme_vcd_reader.specs.Tables.{IsLinked, variables_of};

use crate::fault::VcdFault;
use crate::matching::{Fit, Found, Matching, Part};
use crate::table::Table;
use crate::variable::Mapped;
use vme_line_map::{Group, LineMap, Place, Wanted};

/// The number of a group without whose lines nothing is judged, or 0 for another one.
fn needed_number(group: Group) -> u8
    ensures { result ≡ needed_number group }
{
    match group {
        Group::AddressStrobe => 1,
        Group::UpperStrobe => 2,
        Group::LowerStrobe => 3,
        Group::Acknowledge => 4,
        Group::Write => 5,
        Group::LongWord => 6,
        Group::Modifier => 7,
        Group::Address => 8,
        Group::Data => 9,
        _ => 0,
    }
}

/// Whether a wanted variable is A01.
fn is_a01(wanted: &Wanted<'_>) -> bool
    ensures { result ≡ is_a01 (shown wanted.now) }
{
    matches!(
        (wanted.group, wanted.place),
        (Group::Address, Place::From(1))
    )
}

/// The lines of a variable: another one of the address has no A01 if that has one of its own.
fn own_lines(a01: bool, wanted: &Wanted<'_>, mapped: Mapped) -> Mapped
    ensures { result ≡ own_lines a01 (shown wanted.now) mapped }
{
    let is_address = matches!(wanted.group, Group::Address);
    if a01 && is_address && !is_a01(wanted) {
        Mapped {
            mask: mapped.mask & !2,
            ..mapped
        }
    } else {
        mapped
    }
}

/// Adds the variables that are lines of a wanted one to the table.
fn add_parts(
    parts: &[Part],
    a01: bool,
    wanted: &Wanted<'_>,
    table: &mut Table,
) -> Result<(), VcdFault>
    ensures linked { IfOk result (λ _. IsLinked table.old.rows.items table.old.heads.items →
        IsLinked table.new.rows.items table.new.heads.items) }
    ensures few { length table.old.rows.items ≤ 1000 → IfOk result (λ _. length table.new.rows.items ≤ 1000) }
    ensures added { IfOk result (λ _. variables_of table.new.rows.items
        ≡ variables_of table.old.rows.items ++ map (line_of a01 (shown wanted.now)) parts.now) }
    ensures fault { IfErr result (λ fault. IsLinked table.old.rows.items table.old.heads.items →
        IsFull fault (variables_of table.old.rows.items ++ map (line_of a01 (shown wanted.now)) parts.now)) }
{
    for part in parts {
        let mapped = own_lines(a01, wanted, part.mapped);
        if !table.add(part.identifier, mapped)? {
            return Err(VcdFault::TooManyMapped);
        }
    }
    Ok(())
}

impl Found {
    /// Whether the wanted variable is there.
    fn is_there(&self) -> bool
        ensures { (ds : List Declaration) (w : Variable) → IsFound ds w self.now → result ≡ is_there ds w }
    {
        match self.fit {
            Fit::Whole | Fit::End => true,
            Fit::None => false,
        }
    }
}

impl Matching {
    /// Whether the wanted variable at an index is asked for and there.
    fn has(&self, index: usize, is_asked: bool) -> bool
        ensures { (map : Map) (ds : List Declaration) (w : Variable) → IsMatching map ds self.now →
            slice_get map.variables index ≡ Some w → result ≡ (is_asked && is_there ds w) }
    {
        match self.found.as_slice().get(index) {
            Some(found) => is_asked && found.is_there(),
            None => false,
        }
    }

    /// Whether lines of a group are there.
    fn has_group(&self, map: &LineMap, group: Group) -> bool
        ensures { (ds : List Declaration) → IsMatching map.now ds self.now →
            result ≡ has_group ds map.now.variables group }
    {
        for index in 0..map.len() {
            let Some(wanted) = map.get(index) else {
                break;
            };
            if self.has(index, needed_number(wanted.group) == needed_number(group)) {
                return true;
            }
        }
        false
    }

    /// Whether A01 has a variable of its own.
    fn has_a01(&self, map: &LineMap) -> bool
        ensures { (ds : List Declaration) → IsMatching map.now ds self.now → result ≡ has_a01 ds map.now.variables }
    {
        for index in 0..map.len() {
            let Some(wanted) = map.get(index) else {
                break;
            };
            if self.has(index, is_a01(&wanted)) {
                return true;
            }
        }
        false
    }

    /// Why no line is read of a variable that is not there, if one has to be.
    fn absent_fault(&self, map: &LineMap, index: u16, wanted: &Wanted<'_>) -> Option<VcdFault>
        ensures { (ds : List Declaration) → IsMatching map.now ds self.now →
            result ≡ absent_fault map.now ds index (shown wanted.now) }
    {
        if map.is_named() {
            return Some(VcdFault::Absent(index));
        }
        if wanted.group.is_needed() && !self.has_group(map, wanted.group) {
            return Some(VcdFault::LacksLines(index));
        }
        None
    }

    /// What is wrong with the wanted variable at an index.
    fn fault_at(
        &self,
        map: &LineMap,
        index: u16,
        wanted: &Wanted<'_>,
        found: &Found,
    ) -> Option<VcdFault>
        ensures { (ds : List Declaration) → IsMatching map.now ds self.now → IsFound ds (shown wanted.now) found.now →
            result ≡ fault_at map.now ds index (shown wanted.now) }
    {
        if found.is_ambiguous {
            return Some(VcdFault::Ambiguous(index));
        }
        if found.is_wrong {
            return Some(VcdFault::BadWidth(index));
        }
        if found.is_there() {
            return None;
        }
        self.absent_fault(map, index, wanted)
    }

    /// The first fault of the wanted variables.
    fn first_fault(&self, map: &LineMap) -> Option<VcdFault>
        ensures { (ds : List Declaration) → IsMatching map.now ds self.now →
            result ≡ first_fault map.now ds 0 map.now.variables }
    {
        for index in 0..map.len() {
            let Some(wanted) = map.get(index) else {
                break;
            };
            let Some(found) = self.found.as_slice().get(index) else {
                break;
            };
            if let Some(fault) = self.fault_at(map, index as u16, &wanted, found) {
                return Some(fault);
            }
        }
        None
    }

    /// Adds all variables that are lines of the bus to the table.
    fn add_lines(&self, map: &LineMap, table: &mut Table) -> Result<(), VcdFault>
        ensures linked { IfOk result (λ _. IsLinked table.old.rows.items table.old.heads.items →
            IsLinked table.new.rows.items table.new.heads.items) }
        ensures few { length table.old.rows.items ≤ 1000 → IfOk result (λ _. length table.new.rows.items ≤ 1000) }
        ensures added { (ds : List Declaration) → IsMatching map.now ds self.now → AreClear ds map.now.variables →
            IfOk result (λ _. variables_of table.new.rows.items
            ≡ variables_of table.old.rows.items ++ lines_in map.now ds) }
        ensures fault { (ds : List Declaration) → IsMatching map.now ds self.now → AreClear ds map.now.variables →
            IsLinked table.old.rows.items table.old.heads.items →
            IfErr result (λ fault. IsFull fault (variables_of table.old.rows.items ++ lines_in map.now ds)) }
    {
        let a01 = self.has_a01(map);
        for index in 0..map.len() {
            let Some(wanted) = map.get(index) else {
                break;
            };
            let Some(found) = self.found.as_slice().get(index) else {
                break;
            };
            if let Err(fault) = add_parts(found.parts.as_slice(), a01, &wanted, table) {
                return Err(fault);
            }
        }
        Ok(())
    }

    /// Fills the table with the variables that are lines of the bus.
    pub(crate) fn end(&self, map: &LineMap, table: &mut Table) -> Result<(), VcdFault>
        ensures linked { table.old.rows.items ≡ [] → table.old.heads.items ≡ [] →
            IfOk result (λ _. IsLinked table.new.rows.items table.new.heads.items) }
        ensures lines { (ds : List Declaration) → IsMatching map.now ds self.now →
            table.old.rows.items ≡ [] → table.old.heads.items ≡ [] →
            IfOk result (λ _. lines_of map.now ds ≡ Ok (variables_of table.new.rows.items)) }
        ensures fault { (ds : List Declaration) → IsMatching map.now ds self.now →
            table.old.rows.items ≡ [] → table.old.heads.items ≡ [] →
            IfErr result (λ fault. IsMapFault (lines_of map.now ds) fault) }
    {
        if let Some(fault) = self.first_fault(map) {
            return Err(fault);
        }
        table.begin()?;
        if let Err(fault) = self.add_lines(map, table) {
            return Err(fault);
        }
        Ok(())
    }
}
