//! The variables that are mapped, by their identifiers.
ghost use Rattle.std.specs.Prelude.{◌≡◌, ◌≤◌, ◌<◌, [], ◌∷◌, ◌++◌, length, nat_lt, IfOk, IsTrue, IsFalse};
ghost use Rattle.vme_vcd_reader.specs.Presences.{presence_of};
ghost use Rattle.vme_vcd_reader.specs.Tables.{IsLinked, IsLink, has_variable, place_of, variables_after, variables_of};

use crate::bits::Bits;
use crate::bus::BusLines;
use crate::presence::Presence;
use crate::variable::Mapped;
use std::alloc::{AllocError, Global};

/// The greatest number of mapped variables.
pub(crate) const MOST_MAPPED: usize = 1_000;

/// The number of lists of variables.
const PLACES: usize = 2_048;

/// A variable that is mapped, with the number of the one before it in its list: from 1, or 0 if there
/// is none.
#[derive(Clone, Copy, Debug)]
struct Row {
    identifier: u64,
    mapped: Mapped,
    next: u16,
}

/// The variables that are mapped, in lists by their identifiers.
#[derive(Drop)]
pub(crate) struct Table {
    rows: Vec<Row>,
    /// The number of the last variable of each list, from 1.
    heads: Vec<u16>,
}

/// The list in which an identifier is sought.
#[inline]
fn place_of(identifier: u64) -> usize
    ensures place { result ≡ place_of identifier }
    ensures within { result < 2048 }
{
    (identifier.wrapping_mul(0x9e37_79b9_7f4a_7c15) >> 53) as usize
}

impl Table {
    /// Returns the empty table.
    pub(crate) fn new(alloc: Global) -> Table
        ensures rows { result.rows.items ≡ [] }
        ensures heads { result.heads.items ≡ [] }
    {
        Table {
            rows: Vec::new(alloc),
            heads: Vec::new(alloc),
        }
    }

    /// Allocates the lists.
    pub(crate) fn begin(&mut self) -> Result<(), AllocError>
        ensures rows { self.new.rows.items ≡ self.old.rows.items }
        ensures linked { self.old.rows.items ≡ [] → self.old.heads.items ≡ [] →
            IfOk result (λ _. IsLinked self.new.rows.items self.new.heads.items) }
    {
        for _place in 0..PLACES {
            self.heads.push(0)?;
        }
        Ok(())
    }

    /// Adds a variable, unless the table is full.
    pub(crate) fn add(&mut self, identifier: u64, mapped: Mapped) -> Result<bool, AllocError>
        ensures linked { IfOk result (λ _. IsLinked self.old.rows.items self.old.heads.items →
            IsLinked self.new.rows.items self.new.heads.items) }
        ensures added { IfOk result (λ added. IsTrue added →
            variables_of self.new.rows.items ≡ variables_of self.old.rows.items ++ (identifier, mapped) ∷ []) }
        ensures few { IfOk result (λ added. IsTrue added → length self.new.rows.items ≤ 1000) }
        ensures full { IfOk result (λ added. IsLinked self.old.rows.items self.old.heads.items →
            added ≡ nat_lt (length self.old.rows.items) 1000) }
    {
        if MOST_MAPPED <= self.rows.len() {
            return Ok(false);
        }
        let number = self.rows.len() as u16 + 1;
        let place = place_of(identifier);
        let Some(head) = self.heads.as_slice().get(place) else {
            return Ok(false);
        };
        let next = *head;
        self.rows.push(Row {
            identifier,
            mapped,
            next,
        })?;
        self.heads[place] = number;
        Ok(true)
    }

    /// Returns which lines the dump has.
    pub(crate) fn presence(&self) -> Presence
        ensures { result ≡ presence_of (variables_of self.now.rows.items) }
    {
        let mut presence = Presence::NONE;
        for row in self.rows.iter() {
            presence = presence.with_lines(row.mapped.group);
        }
        presence
    }

    /// Returns the number of the last variable in the list of an identifier, from 1, or 0.
    #[inline]
    fn first(&self, identifier: u64) -> u16
        ensures { IsLinked self.now.rows.items self.now.heads.items →
            IsLink self.now.rows.items result (length self.now.rows.items) (place_of identifier) }
    {
        match self.heads.as_slice().get(place_of(identifier)) {
            Some(head) => *head,
            None => 0,
        }
    }

    /// Changes the lines of the variables with an identifier, and returns whether there is one.
    #[inline]
    pub(crate) fn change(&self, identifier: u64, bits: &Bits, bus: &mut BusLines) -> bool
        ensures bus { IsLinked self.now.rows.items self.now.heads.items →
            bus.new ≡ variables_after self.now.rows.items identifier bits.now bus.old }
        ensures some { IsLinked self.now.rows.items self.now.heads.items →
            result ≡ has_variable self.now.rows.items identifier }
    {
        let mut has_variable = false;
        let mut link = self.first(identifier);
        while link != 0 {
            let Some(row) = self.rows.as_slice().get(usize::from(link - 1)) else {
                break;
            };
            if row.identifier == identifier {
                bus.change(&row.mapped, bits);
                has_variable = true;
            }
            // Each list goes back.
            if link <= row.next {
                break;
            }
            link = row.next;
        }
        has_variable
    }
}
