//! Closes an array with all its passes, and returns its objects.
ghost use Rattle.std.specs.Prelude.{◌≡◌, ◌<◌, ◌≤◌, ◌∷◌, [], None, length, map, vec_len, vec_capacity, All, IfOk, IfErr};
ghost use Rattle.vme_port.specs.Passes.{account_of};
ghost use Rattle.vme_port_array.specs.Views.{view};
ghost use Rattle.vme_port_array.specs.Settlements.{Closes, Settles};
ghost use Rattle.vme_port_array.specs.Arrays.{IsPassOf, array_id, opening, passes_of, objects_of};

use crate::indexed::Indexed;
use crate::pass::Pass;
use crate::port_array::PortArray;
use crate::rule::{ArrayView, JoinStep};
use atomic_table::Seat;
use vme_object::Object;
use vme_port::Home;

/// The fault of a settlement with too few passes: the array and the passes, unchanged.
#[derive(Drop)]
pub struct Unsettled<O: Object> {
    /// The array.
    pub array: PortArray<O>,
    /// The passes that were given.
    pub passes: Vec<Pass<O>>,
}

impl<O: Object> PortArray<O> {
    /// Closes the array with all its passes. It pushes the objects as the one history left them
    /// onto `homes`, in the order of their indexes, each with the number of its entries. `homes`
    /// must be empty and have capacity for all objects, so that nothing is allocated.
    ///
    /// # Errors
    /// `Unsettled` if fewer passes are given than the array has. It holds the array and the passes,
    /// unchanged.
    pub fn settle(self, passes: Vec<Pass<O>>, homes: &mut Vec<Home<O>>) -> Result<(), Unsettled<O>>
        requires array { All (IsPassOf self) passes.items }
        requires empty { vec_len homes.old ≡ 0 }
        requires capacity { objects_of self ≤ vec_capacity homes.old }
        ensures settled { IfOk result (λ _.
            Settles O.step (opening self) (passes_of self) passes.items homes.new.items) }
        ensures not_all { IfErr result (λ u. vec_len passes < passes_of self) }
        ensures array { IfErr result (λ u. u.array ≡ self) }
        ensures passes { IfErr result (λ u. u.passes ≡ passes) }
        ensures same_homes { IfErr result (λ _. homes.new ≡ homes.old) }
    {
        if passes.len() < self.passes {
            return Err(Unsettled {
                array: self,
                passes,
            });
        }
        let seat = self.gather(passes);
        self.close(seat, homes);
        Ok(())
    }

    /// Returns one seat that stands for all these passes, in their order.
    fn gather(
        &self,
        mut passes: Vec<Pass<O>>,
    ) -> Seat<Home<O>, ArrayView<Indexed<O::Cmd>, O::Reply>>
        requires array { All (IsPassOf self.now) passes.items }
        requires some { 0 < vec_len passes }
        ensures array { result.table_id ≡ array_id self.now }
        ensures all { result.me ≡ (view (map account_of passes.items) None, []) }
    {
        let Some(last) = passes.pop() else {
            unreachable!()
        };
        let mut joined = last.into_seat();
        while let Some(pass) = passes.pop() {
            let seat = pass.into_seat();
            self.table.shared.join_seat::<JoinStep>(&mut joined, seat);
        }
        passes.destroy_empty();
        joined
    }

    /// Closes the array with a seat that stands for all its passes, and pushes its objects onto
    /// `homes`, in the order of their indexes.
    fn close(
        self,
        seat: Seat<Home<O>, ArrayView<Indexed<O::Cmd>, O::Reply>>,
        homes: &mut Vec<Home<O>>,
    )
        requires array { seat.table_id ≡ array_id self }
        requires idle { seat.me ≡ (view seat.me.0.accounts None, []) }
        requires all { passes_of self ≤ length seat.me.0.accounts }
        requires empty { vec_len homes.old ≡ 0 }
        requires capacity { objects_of self ≤ vec_capacity homes.old }
        ensures { Closes O.step (opening self) (passes_of self) seat.me.0.accounts homes.new.items }
    {
        let PortArray {
            table,
            objects,
            passes: _,
        } = self;
        let mut closed = table.close_with(seat);
        for index in 0..objects {
            homes.push_reserved(closed.take(index));
        }
        closed.free();
    }
}
