/// Whether the replies of a run are good ones.
#[derive(Clone, Copy, Debug, PartialEq, Eq)]
pub enum Status {
    /// Every reply is a good one.
    Clean,
    /// Some reply is a bus error, a denial, a refusal or a timeout, found a lock busy or a mailbox
    /// full, empty or spent, or states that its line did not end.
    Marked,
}

impl Status {
    ghost use Rattle.std.specs.Prelude.{◌≡◌};
    ghost use Rattle.vme_shared.specs.Statuses.{worse_of};

    /// Returns `Marked` if one of the two is, else `Clean`.
    pub fn worse(self, other: Status) -> Status
        ensures { result ≡ worse_of self other }
    {
        match self {
            Status::Clean => other,
            Status::Marked => Status::Marked,
        }
    }
}
