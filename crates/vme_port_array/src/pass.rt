ghost use Rattle.std.specs.Prelude.{◌≡◌, ◌∷◌, [], None};
ghost use Rattle.vme_port.specs.Passes.{account_of};
ghost use Rattle.vme_port_array.specs.Views.{view};

use crate::indexed::Indexed;
use crate::rule::ArrayView;
use atomic_table::Seat;
use std::marker::Model;
use vme_object::Object;
use vme_port::Home;

/// The right of one caller to call all objects of an array, under the caller's number. Contracts
/// see it as a `PassView`: the history that it has seen, and its own entries there. A pass can't be
/// copied.
#[derive(Drop)]
pub struct Pass<O: Object> {
    pub(crate) seat: Seat<Home<O>, ArrayView<Indexed<O::Cmd>, O::Reply>>,
    pub(crate) who: usize,
}

impl<O: Object> Model for Pass<O> {
    ghost use Rattle.std.specs.Prelude.{length};
    ghost use Rattle.vme_port.specs.Passes.{PassView, seen_by, made_by};
    ghost use Rattle.vme_port_array.specs.declared.indexed.Indexed.{Indexed};
    ghost use Rattle.vme_port_array.specs.Passes.{IsAtRest};

    ghost Value = { PassView (Indexed O.Cmd) O.Reply };

    ghost view = { λ p. record {
      port = p.seat.table_id;
      who = p.who;
      made = length (made_by p.seat.me.0.accounts);
      seen = seen_by p.seat.me.0.accounts;
      mine = made_by p.seat.me.0.accounts;
    } };

    ghost invariant = { λ p. IsAtRest p.seat.me p.who };
}

impl<O: Object> Pass<O> {
    /// Returns the number of the pass, which is also the number of its caller in the history.
    pub fn who(&self) -> usize
        ensures { result ≡ self.now.who }
    {
        self.who
    }

    /// Returns the seat of the pass, which stands for this pass alone.
    pub(crate) fn into_seat(self) -> Seat<Home<O>, ArrayView<Indexed<O::Cmd>, O::Reply>>
        ensures array { result.table_id ≡ self.port }
        ensures alone { result.me ≡ (view (account_of self ∷ []) None, []) }
    {
        let Pass { seat, who: _ } = self;
        seat
    }
}
