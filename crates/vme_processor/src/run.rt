//! Steps of what a processor does over the bus, one after another.
ghost use Rattle.std.specs.Prelude.{◌≡◌, Ok, Err, Some};
ghost use Rattle.vme_processor.specs.Runs.{Stepped, Runs, met_of};

use crate::processor::Processor;
use crate::transfer::StepFault;
use vme_arbiter::ArbReply;
use vme_core::EventReply;

/// What a step came to, without the reply to its event.
#[derive(Clone, Copy, Debug, PartialEq, Eq)]
pub enum Met {
    /// An event, but for the two below.
    Event,
    /// The arbiter has not granted the bus.
    Waiting,
    /// The bus was released.
    Freed,
    /// No event: nothing was started, or it has ended.
    Nothing,
    /// No event: another processor holds the object.
    Busy,
    /// No event: the object has made 2^64 - 1 steps.
    Spent,
    /// No event: the machine has no such board.
    NoBoard,
}

/// More events than a tenure has.
const MOST_EVENTS: u32 = 1 << 20;

impl Met {
    /// Returns what a step with an event came to.
    #[inline(always)]
    fn of_reply(reply: &EventReply) -> Met
        ensures { result ≡ met_of (Ok (Some reply.now)) }
    {
        match reply {
            EventReply::Board(_) => Met::Event,
            EventReply::Bus(ArbReply::Granted) => Met::Event,
            EventReply::Bus(ArbReply::Denied) => Met::Event,
            EventReply::Bus(ArbReply::Waiting) => Met::Waiting,
            EventReply::Bus(ArbReply::Freed) => Met::Freed,
        }
    }

    /// Returns what a step without an event came to.
    #[inline(always)]
    pub(crate) fn of_fault(fault: &StepFault) -> Met
        ensures { result ≡ met_of (Err fault.now) }
    {
        match fault {
            StepFault::Busy => Met::Busy,
            StepFault::Spent => Met::Spent,
            StepFault::NoBoard => Met::NoBoard,
        }
    }

    /// Returns what a step came to, by what `Processor::step` returned.
    #[inline(always)]
    pub fn of(stepped: &Result<Option<EventReply>, StepFault>) -> Met
        ensures { result ≡ met_of stepped.now }
    {
        match stepped {
            Ok(Some(reply)) => Met::of_reply(reply),
            Ok(None) => Met::Nothing,
            Err(fault) => Met::of_fault(fault),
        }
    }
}

/// Returns whether steps go on after a reply: the bus is neither awaited nor released.
#[inline(always)]
fn goes_on(reply: &EventReply) -> bool {
    match reply {
        EventReply::Bus(ArbReply::Waiting | ArbReply::Freed) => false,
        EventReply::Bus(_) | EventReply::Board(_) => true,
    }
}

impl Processor {
    /// Performs the next event.
    #[inline(always)]
    fn stepped(&mut self) -> Result<Option<EventReply>, StepFault>
        ensures { Stepped result self.old self.new }
    {
        self.step()
    }

    /// Performs the next event, apart from the loop of `run`.
    #[cold]
    #[inline(never)]
    fn stepped_apart(&mut self) -> Result<Option<EventReply>, StepFault>
        ensures { Stepped result self.old self.new }
    {
        self.step()
    }

    /// Makes steps of the transfer, lock, unlock, put or take that was started last, one after
    /// another, each as `step` does: until there is no event, the arbiter has not granted the bus, or
    /// the bus was released. Returns what the last step came to. It never waits.
    pub fn run(&mut self) -> Met
        ensures { Runs result self.old self.new }
    {
        for _ in 0..MOST_EVENTS {
            match self.stepped() {
                Ok(Some(reply)) if goes_on(&reply) => {}
                stepped => return Met::of(&stepped),
            }
        }
        Met::of(&self.stepped_apart())
    }
}
