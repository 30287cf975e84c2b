ghost use Rattle.std.specs.Prelude.{◌≡◌, ◌+◌, ◌<◌, ◌≤◌, ◌⊎◌, [], vec_len, vec_capacity, All, IfOk};
ghost use mathlib.Core.Logic.{◌↔◌};
ghost use Rattle.vme_object.specs.Each.{Each};
ghost use Rattle.vme_port.specs.Views.{Represents};
ghost use Rattle.vme_port.specs.Passes.{IsUnused};

use crate::fault::PortFault;
use crate::home::{Home, Opening};
use crate::pass::Pass;
use crate::rule::{PortRule, SeatView, SplitStep};
use crate::word::{FREE, WANTED};
use atomic_table::{Seat, Table};
use std::alloc::{AllocError, Global};
use std::snapshot::Snapshot;
use vme_object::Object;

/// The greatest number of passes of a port. A backplane has as many slots, but a port knows no
/// slots, so this constant is separate.
const MOST_PASSES: usize = 21;

/// One object that callers on any threads share, each through a pass of its own.
#[derive(Drop)]
pub struct Port<O: Object> {
    pub(crate) table: Table<Home<O>, SeatView<O::Cmd, O::Reply>, Opening<O>, PortRule<O>, Global>,
    pub(crate) passes: usize,
    ghost words: { table.shared.table_id.words ≡ 1 },
    ghost slots: { table.shared.table_id.slots ≡ 1 },
    ghost all: { passes ≡ table.shared.key.passes },
    ghost some: { 0 < passes },
}

/// A new port, together with one seat that represents all its passes.
struct Opened<O: Object> {
    port: Port<O>,
    seat: Seat<Home<O>, SeatView<O::Cmd, O::Reply>>,
}

impl<O: Object> Port<O> {
    ghost use Rattle.vme_port.specs.Ports.{IsPassOf, port_id, opening, passes_of};
    ghost use Rattle.vme_port.specs.Calls.{IsBadCount};

    /// Opens a port of an object for `count` passes, which is 1 to 21. The passes have the numbers
    /// from 0 on, in order; none of them has seen or made an entry.
    ///
    /// # Errors
    /// `BadCount` if `count` is not 1 to 21, and `OutOfMemory` if an allocation fails. The object
    /// is dropped.
    pub fn new(alloc: Global, object: O, count: usize) -> Result<(Port<O>, Vec<Pass<O>>), PortFault>
    where
        O: Drop,
        ensures bad_count { IsBadCount result ↔ ((count ≡ 0) ⊎ (21 < count)) }
        ensures opening { IfOk result (λ r. opening r.0 ≡ object) }
        ensures passes { IfOk result (λ r. passes_of r.0 ≡ count) }
        ensures count { IfOk result (λ r. vec_len r.1 ≡ count) }
        ensures unused { IfOk result (λ r. Each (λ i p. IsUnused (port_id r.0) i p) r.1.items) }
        ensures port { IfOk result (λ r. All (IsPassOf r.0) r.1.items) }
    {
        if count == 0 {
            return Err(PortFault::BadCount);
        }
        if count > MOST_PASSES {
            return Err(PortFault::BadCount);
        }
        let Ok(mut passes) = Vec::with_capacity(alloc, count) else {
            return Err(PortFault::OutOfMemory);
        };
        let Ok(opened) = Port::open(alloc, object, count) else {
            return Err(PortFault::OutOfMemory);
        };
        let Opened { port, seat } = opened;
        port.make_passes(seat, &mut passes);
        Ok((port, passes))
    }

    /// Returns whether the object is marked as wanted: a pass holds it, and its put wakes one call,
    /// if any waits. Other threads may change this at any time, so no clause describes the result.
    pub fn is_wanted(&self) -> bool {
        self.table.shared.peek(0) == WANTED
    }

    /// Opens the table of a port, and returns the port with one seat that represents all its
    /// passes.
    fn open(alloc: Global, object: O, passes: usize) -> Result<Opened<O>, AllocError>
    where
        O: Drop,
        requires { 0 < passes }
        ensures opening { IfOk result (λ o. opening o.port ≡ object) }
        ensures passes { IfOk result (λ o. passes_of o.port ≡ passes) }
        ensures seat { IfOk result (λ o. o.seat.table_id ≡ port_id o.port) }
        ensures all { IfOk result (λ o. Represents passes 0 o.seat.me) }
    {
        let key = Opening {
            start: Snapshot::of(&object),
            passes,
        };
        let mut slots = Vec::with_capacity(alloc, 1)?;
        slots.push_reserved(Home::unused(object));
        let Ok((table, seat)) = Table::new(alloc, &[FREE], slots, &key) else {
            return Err(AllocError);
        };
        Ok(Opened {
            port: Port { table, passes },
            seat,
        })
    }

    /// Splits the seat's first account off, and returns a pass for it.
    fn split_pass(
        &self,
        seat: &mut Seat<Home<O>, SeatView<O::Cmd, O::Reply>>,
        who: usize,
    ) -> Pass<O>
        requires port { seat.old.table_id ≡ port_id self.now }
        requires below { who < passes_of self.now }
        requires all { Represents (passes_of self.now) who seat.old.me }
        ensures port { seat.new.table_id ≡ seat.old.table_id }
        ensures all { Represents (passes_of self.now) (who + 1) seat.new.me }
        ensures unused { IsUnused (port_id self.now) who result }
    {
        let seat = self.table.shared.split_seat::<SplitStep>(seat);
        Pass { seat, who, made: 0 }
    }

    /// Makes a pass for each account of the seat.
    fn make_passes(
        &self,
        mut seat: Seat<Home<O>, SeatView<O::Cmd, O::Reply>>,
        passes: &mut Vec<Pass<O>>,
    )
        requires port { seat.table_id ≡ port_id self.now }
        requires all { Represents (passes_of self.now) 0 seat.me }
        requires empty { passes.old.items ≡ [] }
        requires capacity { passes_of self.now ≤ vec_capacity passes.old }
        ensures count { vec_len passes.new ≡ passes_of self.now }
        ensures unused { Each (λ i p. IsUnused (port_id self.now) i p) passes.new.items }
    {
        for who in 0..self.passes {
            let pass = self.split_pass(&mut seat, who);
            passes.push_reserved(pass);
        }
    }
}
