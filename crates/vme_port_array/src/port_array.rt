ghost use Rattle.std.specs.Prelude.{◌≡◌, ◌+◌, ◌*◌, ◌<◌, ◌≤◌, ◌⊎◌, [], length, vec_len, vec_capacity, All, IfOk};
ghost use mathlib.Core.Logic.{◌↔◌};
ghost use Rattle.vme_object.specs.Each.{Each, AllAt};
ghost use Rattle.vme_port.specs.Passes.{IsUnused};
ghost use Rattle.vme_port_array.specs.Views.{Represents};

use crate::fault::ArrayFault;
use crate::indexed::Indexed;
use crate::opening::Opening;
use crate::pass::Pass;
use crate::rule::{ArrayRule, ArrayView, SplitStep};
use crate::seats::STRIDE;
use atomic_table::{Seat, Table};
use std::alloc::{AllocError, Global};
use std::snapshot::Snapshot;
use vme_object::Object;
use vme_port::{FREE, Home, WANTED};

/// The greatest number of passes of an array. A backplane has as many slots, but an array knows no
/// slots, so this constant is separate.
const MOST_PASSES: usize = 21;

/// The greatest number of objects of an array, so that the index of a word can't overflow.
const MOST_OBJECTS: usize = 64;

/// Several objects that callers on any threads share. Each caller has one pass for all of them.
#[derive(Drop)]
pub struct PortArray<O: Object> {
    pub(crate) table: Table<
        Home<O>,
        ArrayView<Indexed<O::Cmd>, O::Reply>,
        Opening<O>,
        ArrayRule<O>,
        Global,
    >,
    pub(crate) objects: usize,
    pub(crate) passes: usize,
    ghost words: { table.shared.table_id.words ≡ objects * 16 },
    ghost slots: { table.shared.table_id.slots ≡ objects },
    ghost count: { length table.shared.key.starts.value.items ≡ objects },
    ghost all: { passes ≡ table.shared.key.passes },
    ghost some: { 0 < passes },
    ghost some_objects: { 0 < objects },
    ghost most: { objects ≤ 64 },
}

/// A new array, together with one seat that stands for all its passes.
struct Opened<O: Object> {
    array: PortArray<O>,
    seat: Seat<Home<O>, ArrayView<Indexed<O::Cmd>, O::Reply>>,
}

impl<O: Object> PortArray<O> {
    ghost use Rattle.vme_port_array.specs.Arrays.{IsPassOf, array_id, opening, passes_of, objects_of};
    ghost use Rattle.vme_port_array.specs.Calls.{IsBadCount};

    /// Opens an array of 1 to 64 objects for `count` passes, which is 1 to 21. The passes have the
    /// numbers from 0 on, in order; none of them has seen or made an entry.
    ///
    /// # Errors
    /// `BadCount` if `count` is not 1 to 21 or the number of objects is not 1 to 64, and
    /// `OutOfMemory` if an allocation fails. The objects are dropped.
    pub fn new(
        alloc: Global,
        objects: Vec<O>,
        count: usize,
    ) -> Result<(PortArray<O>, Vec<Pass<O>>), ArrayFault>
    where
        O: Drop,
        ensures bad_count { IsBadCount result ↔ (((count ≡ 0) ⊎ (21 < count))
            ⊎ ((vec_len objects ≡ 0) ⊎ (64 < vec_len objects))) }
        ensures opening { IfOk result (λ r. opening r.0 ≡ objects.items) }
        ensures objects { IfOk result (λ r. objects_of r.0 ≡ vec_len objects) }
        ensures passes { IfOk result (λ r. passes_of r.0 ≡ count) }
        ensures count { IfOk result (λ r. vec_len r.1 ≡ count) }
        ensures unused { IfOk result (λ r. Each (λ i p. IsUnused (array_id r.0) i p) r.1.items) }
        ensures array { IfOk result (λ r. All (IsPassOf r.0) r.1.items) }
    {
        if count == 0 {
            return Err(ArrayFault::BadCount);
        }
        if count > MOST_PASSES {
            return Err(ArrayFault::BadCount);
        }
        if objects.is_empty() {
            return Err(ArrayFault::BadCount);
        }
        if objects.len() > MOST_OBJECTS {
            return Err(ArrayFault::BadCount);
        }
        let Ok(mut passes) = Vec::with_capacity(alloc, count) else {
            return Err(ArrayFault::OutOfMemory);
        };
        let Ok(opened) = PortArray::open(alloc, objects, count) else {
            return Err(ArrayFault::OutOfMemory);
        };
        let Opened { array, seat } = opened;
        array.make_passes(seat, &mut passes);
        Ok((array, passes))
    }

    /// Returns the number of objects.
    pub fn len(&self) -> usize
        ensures { result ≡ objects_of self.now }
    {
        self.objects
    }

    /// Returns whether the object at an index is marked as wanted: a pass holds it, and its put
    /// wakes one call, if any waits. Other threads may change this at any time, so no clause
    /// describes the result.
    pub fn is_wanted(&self, index: usize) -> bool
        requires { index < objects_of self.now }
    {
        self.table.shared.peek(index * STRIDE) == WANTED
    }

    /// Opens the table of an array, and returns the array with one seat that stands for all its
    /// passes.
    ///
    /// # Errors
    /// `AllocError` if an allocation fails. The objects are dropped.
    fn open(alloc: Global, objects: Vec<O>, passes: usize) -> Result<Opened<O>, AllocError>
    where
        O: Drop,
        requires passes { 0 < passes }
        requires objects { 0 < vec_len objects }
        requires most { vec_len objects ≤ 64 }
        ensures opening { IfOk result (λ o. opening o.array ≡ objects.items) }
        ensures objects { IfOk result (λ o. objects_of o.array ≡ vec_len objects) }
        ensures passes { IfOk result (λ o. passes_of o.array ≡ passes) }
        ensures seat { IfOk result (λ o. o.seat.table_id ≡ array_id o.array) }
        ensures all { IfOk result (λ o. Represents passes 0 o.seat.me) }
    {
        let key = Opening {
            starts: Snapshot::of(&objects),
            passes,
        };
        let count = objects.len();
        let words = vec![in alloc; FREE; count * STRIDE]?;
        let slots = homes(alloc, objects)?;
        let Ok((table, seat)) = Table::new(alloc, words.as_slice(), slots, &key) else {
            return Err(AllocError);
        };
        Ok(Opened {
            array: PortArray {
                table,
                objects: count,
                passes,
            },
            seat,
        })
    }

    /// Splits the seat's first account off, and returns a pass for it.
    fn split_pass(
        &self,
        seat: &mut Seat<Home<O>, ArrayView<Indexed<O::Cmd>, O::Reply>>,
        who: usize,
    ) -> Pass<O>
        requires array { seat.old.table_id ≡ array_id self.now }
        requires below { who < passes_of self.now }
        requires all { Represents (passes_of self.now) who seat.old.me }
        ensures array { seat.new.table_id ≡ seat.old.table_id }
        ensures all { Represents (passes_of self.now) (who + 1) seat.new.me }
        ensures unused { IsUnused (array_id self.now) who result }
    {
        let seat = self.table.shared.split_seat::<SplitStep>(seat);
        Pass { seat, who }
    }

    /// Pushes a pass for each account of the seat, in the order of their numbers.
    fn make_passes(
        &self,
        mut seat: Seat<Home<O>, ArrayView<Indexed<O::Cmd>, O::Reply>>,
        passes: &mut Vec<Pass<O>>,
    )
        requires array { seat.table_id ≡ array_id self.now }
        requires all { Represents (passes_of self.now) 0 seat.me }
        requires empty { passes.old.items ≡ [] }
        requires capacity { passes_of self.now ≤ vec_capacity passes.old }
        ensures count { vec_len passes.new ≡ passes_of self.now }
        ensures unused { Each (λ i p. IsUnused (array_id self.now) i p) passes.new.items }
    {
        for who in 0..self.passes {
            let pass = self.split_pass(&mut seat, who);
            passes.push_reserved(pass);
        }
    }
}

/// Returns the slot contents for objects whose histories are empty.
///
/// # Errors
/// `AllocError` if the allocation fails. The objects are dropped.
fn homes<O: Drop>(alloc: Global, objects: Vec<O>) -> Result<Vec<Home<O>>, AllocError>
    ensures { IfOk result (λ homes.
        AllAt (λ i (o : O) (h : Home O). (h.object ≡ o) × (h.count ≡ 0)) objects.items
        homes.items) }
{
    let mut homes = Vec::with_capacity(alloc, objects.len())?;
    for object in objects {
        homes.push_reserved(Home::unused(object));
    }
    Ok(homes)
}
