//! The end of a port: all its passes come together, and the port returns the object.
ghost use Rattle.std.specs.Prelude.{◌≡◌, ◌<◌, ◌≤◌, ◌∷◌, [], false, length, map, vec_len, All, IfOk, IfErr};
ghost use Rattle.vme_port.specs.Views.{view};
ghost use Rattle.vme_port.specs.Passes.{account_of, IsCounted};
ghost use Rattle.vme_port.specs.Settlements.{Closes, Settles};
ghost use Rattle.vme_port.specs.Ports.{IsPassOf, port_id, opening, passes_of};

use crate::home::Home;
use crate::pass::Pass;
use crate::port::Port;
use crate::rule::{JoinStep, SeatView};
use atomic_table::Seat;
use vme_object::Object;

/// The fault of a settlement with too few passes: the port and the passes, unchanged.
#[derive(Drop)]
pub struct Unsettled<O: Object> {
    /// The port.
    pub port: Port<O>,
    /// The passes that were given.
    pub passes: Vec<Pass<O>>,
}

impl<O: Object> Port<O> {
    /// Closes the port with all its passes. It returns the object as its history left it, and the
    /// number of entries in that history. It allocates nothing.
    ///
    /// # Errors
    /// `Unsettled` if fewer passes are given than the port has. It holds the port and the passes,
    /// unchanged.
    pub fn settle(self, passes: Vec<Pass<O>>) -> Result<(O, u64), Unsettled<O>>
        requires { All (IsPassOf self) passes.items }
        ensures settled { IfOk result (λ r. Settles O.step (opening self) (passes_of self) passes.items r.0 r.1) }
        ensures not_all { IfErr result (λ u. vec_len passes < passes_of self) }
        ensures port { IfErr result (λ u. u.port ≡ self) }
        ensures passes { IfErr result (λ u. u.passes ≡ passes) }
    {
        if passes.len() < self.passes {
            return Err(Unsettled { port: self, passes });
        }
        let seat = self.gather(passes);
        Ok(self.close(seat))
    }

    /// Returns one seat that represents all these passes, in their order.
    fn gather(&self, mut passes: Vec<Pass<O>>) -> Seat<Home<O>, SeatView<O::Cmd, O::Reply>>
        requires port { All (IsPassOf self.now) passes.items }
        requires some { 0 < vec_len passes }
        ensures port { result.table_id ≡ port_id self.now }
        ensures all { result.me ≡ (view (map account_of passes.items) false, []) }
        ensures counted { All IsCounted passes.items }
    {
        let Some(last) = passes.pop() else {
            unreachable!()
        };
        let mut all = last.into_seat();
        while let Some(pass) = passes.pop() {
            let seat = pass.into_seat();
            self.table.shared.join_seat::<JoinStep>(&mut all, seat);
        }
        passes.destroy_empty();
        all
    }

    /// Closes the port with a seat that represents all its passes.
    fn close(self, seat: Seat<Home<O>, SeatView<O::Cmd, O::Reply>>) -> (O, u64)
        requires port { seat.table_id ≡ port_id self }
        requires idle { seat.me ≡ (view seat.me.0.accounts false, []) }
        requires all { passes_of self ≤ length seat.me.0.accounts }
        ensures { Closes O.step (opening self) (passes_of self) seat.me.0.accounts result.0 result.1 }
    {
        let Port { table, passes: _ } = self;
        let mut closed = table.close_with(seat);
        let home = closed.take(0);
        closed.free();
        home.into_parts()
    }
}
