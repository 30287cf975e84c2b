//! What a turn did.
ghost use Rattle.std.specs.Prelude.{◌≡◌, ◌<◌, ◌-◌, ◌^◌, length};
ghost use Rattle.vme_stepper.specs.Steppers.{stepper_turn, IsStepperOf, StepsWithin};
ghost use Rattle.vme_trace.specs.Observations.{observed};
ghost use Rattle.vme_trace.specs.Selections.{is_granted, poll_waits, waits};

mod activity;
mod grant;

use activity::activity_of;
pub use activity::{Activity, TransferredDatum};
pub use grant::Grant;
use grant::grant_of;
use vme_arbiter::ArbReply;
use vme_core::EventReply;
use vme_script::Config;
use vme_stepper::Stepper;

/// What a turn did.
#[derive(Debug, Drop)]
pub struct Observation {
    /// The index of the board whose processor had the turn.
    pub board: usize,
    /// Its slot.
    pub slot: u16,
    /// The level on which its processor requests the bus.
    pub level: u8,
    /// The number of the current line.
    pub line: u16,
    /// What the processor did.
    pub activity: Activity,
    /// The reply of the arbiter or of a board.
    pub reply: EventReply,
    /// Whether the line has ended with it.
    pub ended: bool,
    /// The grant of the bus with this event, if there is one.
    pub grant: Option<Grant>,
}

impl Observation {
    /// Returns whether it is a poll that waits.
    pub fn waits(&self) -> bool
        ensures { result ≡ waits self.now }
    {
        poll_waits(&self.activity, &self.reply)
    }
}

/// Returns whether an activity with its reply is a poll that waits.
fn poll_waits(activity: &Activity, reply: &EventReply) -> bool
    ensures { result ≡ poll_waits activity.now reply.now }
{
    match activity {
        Activity::Polls => !is_granted(reply),
        _ => false,
    }
}

/// Returns whether a reply grants the bus.
fn is_granted(reply: &EventReply) -> bool
    ensures { result ≡ is_granted reply.now }
{
    match reply {
        EventReply::Bus(reply) => matches!(reply, ArbReply::Granted),
        _ => false,
    }
}

/// Performs a turn of the processor of the board with index `board`. Returns what it did, or `None`
/// if its processor has no line left that makes a call.
pub fn observe_turn<'a>(
    stepper: &mut Stepper<'a>,
    config: &'a Config,
    board: usize,
) -> Option<Observation>
    requires board { board < length config.now.boards }
    requires stepper { IsStepperOf config.now stepper.old }
    requires capacity { StepsWithin (2 ^ 64 - 2) stepper.old.machine }
    ensures turn { stepper.new ≡ stepper_turn config.now stepper.old board }
    ensures sound { IsStepperOf config.now stepper.new }
    ensures observed { result ≡ observed config.now stepper.old board }
{
    stepper.begin_line(config, board);
    let (line, task) = stepper.line(board)?;
    let activity = activity_of(task);
    let (reply, ended) = stepper.call(config, board);
    let grant = grant_of(config, &activity, &reply, stepper.arbiter());
    Some(Observation {
        board,
        slot: config.slot(board),
        level: config.level(board),
        line,
        activity,
        reply,
        ended,
        grant,
    })
}
