ghost use Rattle.std.specs.Prelude.{◌≡◌, ◌∷◌, [], false, length};
ghost use Rattle.vme_port.specs.Views.{view};
ghost use Rattle.vme_port.specs.Passes.{account_of, IsCounted};

use crate::home::Home;
use crate::rule::SeatView;
use atomic_table::Seat;
use std::marker::Model;
use vme_object::Object;

/// The right of one caller to call a port, under the caller's number. Contracts see it as a
/// `PassView`: the history that it has seen, and its own entries there. A pass can't be copied.
#[derive(Drop)]
pub struct Pass<O: Object> {
    pub(crate) seat: Seat<Home<O>, SeatView<O::Cmd, O::Reply>>,
    pub(crate) who: usize,
    pub(crate) made: u64,
}

impl<O: Object> Model for Pass<O> {
    ghost use Rattle.vme_port.specs.Passes.{PassView, IsAtRest, seen_by, made_by};

    ghost Value = { PassView O.Cmd O.Reply };

    ghost view = { λ p. record { port = p.seat.table_id; who = p.who; made = p.made; seen = seen_by p.seat.me.0.accounts; mine = made_by p.seat.me.0.accounts } };

    ghost invariant = { λ p. IsAtRest p.seat.me p.who p.made };
}

impl<O: Object> Pass<O> {
    /// Returns the number of the pass, which is also the number of its caller in the history.
    pub fn who(&self) -> usize
        ensures { result ≡ self.now.who }
    {
        self.who
    }

    /// Returns the number of entries that the pass has added to the history.
    pub fn made(&self) -> u64
        ensures made { result ≡ self.now.made }
        ensures entries { result ≡ length self.now.mine }
    {
        self.made
    }

    /// Returns the seat of the pass, which represents this pass alone.
    pub(crate) fn into_seat(self) -> Seat<Home<O>, SeatView<O::Cmd, O::Reply>>
        ensures port { result.table_id ≡ self.port }
        ensures alone { result.me ≡ (view (account_of self ∷ []) false, []) }
        ensures counted { IsCounted self }
    {
        let Pass {
            seat,
            who: _,
            made: _,
        } = self;
        seat
    }
}
