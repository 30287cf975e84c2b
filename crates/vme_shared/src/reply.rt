ghost use Rattle.std.specs.Prelude.{◌≡◌};
ghost use Rattle.vme_shared.specs.Statuses.{outcome_status, shared_status, reply_status};

use crate::outcome::SharedOutcome;
use crate::status::Status;
use vme_cycle::CycleFault;
use vme_master::Outcome;

/// The reply to a line of a script.
#[derive(Debug, PartialEq, Eq, Drop)]
pub enum LineReply {
    /// The outcome of the line's transfer over the bus, or of its command to the local port.
    Transfer(Outcome),
    /// The refusal of the line's request.
    Refused(CycleFault),
    /// A line that waits read the bytes that it waits for.
    Met,
    /// A line that waits made all the reads that it may make, and found other bytes.
    Timeout,
    /// The outcome of the line's lock, unlock, put or take.
    Shared(SharedOutcome),
    /// The run ended before the line did.
    Unfinished,
}

impl LineReply {
    /// Returns `Clean` for a good reply: a transfer or local command without a bus error and
    /// without a denial, an `await` that was met, a lock that was taken or released, and a word
    /// that was put or taken. Returns `Marked` for any other reply.
    pub fn status(&self) -> Status
        ensures { result ≡ reply_status self.now }
    {
        match self {
            LineReply::Transfer(outcome) => outcome_status(outcome),
            LineReply::Shared(outcome) => shared_status(*outcome),
            LineReply::Met => Status::Clean,
            LineReply::Refused(_) | LineReply::Timeout | LineReply::Unfinished => Status::Marked,
        }
    }
}

fn outcome_status(outcome: &Outcome) -> Status
    ensures { result ≡ outcome_status outcome.now }
{
    match outcome {
        Outcome::Read(_) | Outcome::Done | Outcome::Old(_) => Status::Clean,
        Outcome::Berr { .. } | Outcome::Denied => Status::Marked,
    }
}

fn shared_status(outcome: SharedOutcome) -> Status
    ensures { result ≡ shared_status outcome }
{
    match outcome {
        SharedOutcome::Taken
        | SharedOutcome::Unlocked
        | SharedOutcome::Put
        | SharedOutcome::Took(_) => Status::Clean,
        SharedOutcome::Busy
        | SharedOutcome::Full
        | SharedOutcome::Empty
        | SharedOutcome::Spent
        | SharedOutcome::Berr
        | SharedOutcome::Denied => Status::Marked,
    }
}
