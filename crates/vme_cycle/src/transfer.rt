ghost use Rattle.std.specs.Prelude.{◌≡◌};
ghost use Rattle.vme_cycle.specs.Lawful.{transfer_of, IsLawfulTransfer};
ghost use Rattle.vme_cycle.specs.Kept.{kept_request};

use crate::fault::CycleFault;
use crate::plan::Plan;
use crate::request::Request;
use std::marker::Model;
use vme_am::Am;

/// The request of a transfer, borrowed or owned.
#[derive(Debug, Drop)]
enum Kept<'a> {
    Lent(&'a Request),
    Own(Request),
}

/// A lawful request during its transfer. It gives its plan at any time without a further check.
#[derive(Debug, Drop)]
pub struct Transfer<'a> {
    am: Am,
    kept: Kept<'a>,
}

impl<'a> Model for Transfer<'a> {
    ghost use Rattle.vme_cycle.specs.Lawful.{Transfer as LawfulRequest, IsLawfulTransfer};
    ghost use Rattle.vme_cycle.specs.Kept.{kept_request};

    ghost Value = { LawfulRequest };

    ghost view = { λ t. record { am = t.am; request = kept_request t.kept } };

    ghost invariant = { λ t. IsLawfulTransfer (record { am = t.am; request = kept_request t.kept }) };
}

impl<'a> Transfer<'a> {
    /// Returns the transfer of a lawful request, which it borrows.
    ///
    /// # Errors
    ///
    /// The first refusal of the request.
    pub fn of(request: &'a Request) -> Result<Transfer<'a>, CycleFault>
        ensures { result ≡ transfer_of request.now }
    {
        let plan = Plan::of(request)?;
        Ok(Transfer {
            am: plan.am(),
            kept: Kept::Lent(request),
        })
    }

    /// Returns the transfer of a lawful request, which it owns.
    ///
    /// # Errors
    ///
    /// The first refusal of the request.
    pub fn of_own(request: Request) -> Result<Transfer<'a>, CycleFault>
        ensures { result ≡ transfer_of request }
    {
        let am = Plan::of(&request)?.am();
        Ok(Transfer {
            am,
            kept: Kept::Own(request),
        })
    }

    /// Returns the plan of the request.
    pub fn plan(&self) -> Plan<'_>
        ensures value { result ≡ self.now }
        ensures lawful { IsLawfulTransfer self.now }
    {
        let request = match &self.kept {
            Kept::Lent(request) => request,
            Kept::Own(request) => request,
        };
        Plan::of_lawful(self.am, request)
    }
}
