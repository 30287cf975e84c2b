ghost use Rattle.std.specs.Prelude.{◌≡◌, ◌<◌};
ghost use Rattle.vme_cycle.specs.Requests.{count_of};
ghost use Rattle.vme_master.specs.CurrentData.{datum_at};

use std::marker::Model;
use vme_cycle::Plan;

/// How far a transfer over the bus has come: the plan of its data, the number of the datum that it
/// transfers next, and whether a board is selected. The number is 0 while no datum is transferred.
#[derive(Debug, Drop)]
pub struct CurrentDatum<'a> {
    plan: Plan<'a>,
    number: u16,
    selected: bool,
}

impl<'a> Model for CurrentDatum<'a> {
    ghost use Rattle.std.specs.Prelude.{◌<◌};
    ghost use Rattle.vme_cycle.specs.Requests.{count_of};
    ghost use Rattle.vme_master.specs.CurrentData.{DatumAt, datum_at};

    ghost Value = { DatumAt };

    ghost view = { λ d. datum_at d.plan d.number d.selected };

    ghost invariant = { λ d. d.number < count_of d.plan.request };
}

impl<'a> CurrentDatum<'a> {
    pub(crate) fn new(plan: Plan<'a>, number: u16, selected: bool) -> CurrentDatum<'a>
        requires { number < count_of plan.request }
        ensures { result ≡ datum_at plan.entry number selected }
    {
        CurrentDatum {
            plan,
            number,
            selected,
        }
    }

    /// Returns the plan of the transfer.
    pub fn plan(&self) -> &Plan<'a>
        ensures { result.now ≡ self.now.transfer }
    {
        &self.plan
    }

    /// Returns the number of the datum, counted from 0.
    pub fn number(&self) -> u16
        ensures value { result ≡ self.now.number }
        ensures in_count { result < count_of self.now.transfer.request }
    {
        self.number
    }

    /// Returns whether the first byte of the transfer selects a board.
    pub fn is_selected(&self) -> bool
        ensures { result ≡ self.now.selected }
    {
        self.selected
    }
}
