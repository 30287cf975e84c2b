ghost use Rattle.std.specs.Prelude.{◌≡◌, false, true, nat_lt};
ghost use Rattle.vme_bus_wait.specs.Waits.{
  after_no_release,
  after_release,
  at_rest,
  has_waited,
  in_next_round,
  is_time_to_wake,
  may_sleep,
  may_sleep_as_last,
  rounds_of,
  still_rounds_of,
};

use std::mem;

/// The number of rounds after which a waiting processor may sleep, if the bus was released in the
/// last one.
const AWAKE_ROUNDS: u32 = 16;

/// The number of consecutive rounds without a release after which the sleepers are first woken.
const STILL_ROUNDS: u32 = 8;

/// The number of consecutive rounds without a release after which the last processor awake sleeps
/// too. By then the sleepers were woken four times.
const LONG_STILL_ROUNDS: u32 = 64;

/// How long a processor has waited for the bus, in rounds. After each round it asks the arbiter
/// again.
#[derive(Clone, Copy, Debug)]
pub struct WaitState {
    rounds: u32,
    still: u32,
    has_waited: bool,
}

impl WaitState {
    /// Returns the state of a processor that does not wait.
    pub fn new() -> WaitState
        ensures { result ≡ at_rest false }
    {
        WaitState {
            rounds: 0,
            still: 0,
            has_waited: false,
        }
    }

    /// Records that the processor got the bus after a wait.
    pub(crate) fn end(&mut self)
        ensures { self.new ≡ at_rest true }
    {
        *self = WaitState {
            rounds: 0,
            still: 0,
            has_waited: true,
        };
    }

    /// Returns whether the processor waited for the bus that it now releases, and clears that mark.
    pub(crate) fn take_has_waited(&mut self) -> bool
        ensures result { result ≡ has_waited self.old }
        ensures cleared { self.new ≡ record self.old { has_waited = false } }
    {
        mem::replace(&mut self.has_waited, false)
    }

    /// Returns whether the processor waits.
    pub(crate) fn has_begun(&self) -> bool
        ensures { result ≡ nat_lt 0 (rounds_of self.now) }
    {
        self.rounds > 0
    }

    /// Counts one more round.
    pub(crate) fn begin_round(&mut self)
        ensures { self.new ≡ in_next_round self.old }
    {
        self.rounds = self.rounds.saturating_add(1);
    }

    /// Returns whether the processor may sleep while another one waits awake: it has waited for
    /// more than 16 rounds, and the bus was released in the last one.
    pub(crate) fn is_over(&self) -> bool
        ensures { result ≡ may_sleep self.now }
    {
        self.rounds > AWAKE_ROUNDS && self.still == 0
    }

    /// Returns whether the processor may sleep although no other one waits awake: the bus was not
    /// released in the last 64 rounds.
    pub(crate) fn is_spent(&self) -> bool
        ensures { result ≡ may_sleep_as_last self.now }
    {
        self.still >= LONG_STILL_ROUNDS
    }

    /// Records a round in which the bus was released.
    pub(crate) fn note_release(&mut self)
        ensures { self.new ≡ after_release self.old }
    {
        self.still = 0;
    }

    /// Records a round in which the bus was not released. Returns whether the sleepers are to be
    /// woken, because one of them may have the bus: after 8, 16, 32, .. consecutive rounds without
    /// a release.
    pub(crate) fn note_none(&mut self) -> bool
        ensures state { self.new ≡ after_no_release self.old }
        ensures wake { result ≡ is_time_to_wake (still_rounds_of self.new) }
    {
        self.still = self.still.saturating_add(1);
        self.still >= STILL_ROUNDS && self.still.is_power_of_two()
    }
}
