ghost use Rattle.std.specs.Prelude.{◌≡◌, ◌<◌, ◌≤◌, IsTrue, length};
ghost use Rattle.vme_arbiter.specs.Requests.{bus_request, is_slot};
ghost use Rattle.vme_arbiter.specs.declared.kind.ArbiterKind.TheVariants.{Priority, Rotating};
ghost use Rattle.vme_arbiter.specs.States.{is_in_range, bus_of_state, bus_from_state};
ghost use Rattle.vme_arbiter.specs.Arbitration.{opening_bus, granted, holds, pends, can_ask, ask_step, look_step, done_step};

use crate::command::{ArbCmd, ArbReply};
use crate::kind::ArbiterKind;
use crate::levels::{HIGHEST, LEVELS, Request, are_same_levels, level_of, next_request};
use crate::state::{ArbiterState, PLACES, are_in_range};
use std::marker::Model;
use vme_object::Object;

/// The number of slots of a backplane. Slots are counted from 1.
pub const SLOTS: u16 = 21;

/// The arbiter of IEEE 1014-1987, 3.3 (arbiter and requesters): the holder of the data transfer
/// bus, and the pending requests with their levels. Contracts see it as its kind, the level at
/// which its next grant begins, its holder, and the set of pending requests.
#[derive(Debug, Drop)]
pub struct Arbiter {
    kind: ArbiterKind,
    first: u8,
    holder: Option<u16>,
    levels: [Option<u8>; PLACES],
    /// Whether it is known that no request is pending, so that a release need not search the levels.
    is_quiet: bool,
}

impl Model for Arbiter {
    ghost use Rattle.std.specs.Prelude.{◌≡◌, ◌≢◌, ◌<◌, ℕ, IsTrue, Some, slice_get};
    ghost use Rattle.vme_arbiter.specs.Requests.{requests_of};
    ghost use Rattle.vme_arbiter.specs.Arbitration.{Arbitration, arbitration};

    ghost Value = { Arbitration };

    ghost view = { λ a. arbitration a.kind a.first a.holder (requests_of a.levels) };

    ghost invariant = { λ a. (a.first < 4)
        × ((slot level : ℕ) → slice_get a.levels slot ≡ Some (Some level) → level < 4)
        × (IsTrue a.is_quiet → (slot level : ℕ) → slice_get a.levels slot ≢ Some (Some level)) };
}

impl Arbiter {
    /// Returns a priority arbiter of a free bus without pending requests.
    pub fn new() -> Arbiter
        ensures { result ≡ opening_bus Priority }
    {
        Arbiter::of(ArbiterKind::Priority)
    }

    /// Returns a rotating arbiter of a free bus without pending requests.
    pub fn rotating() -> Arbiter
        ensures { result ≡ opening_bus Rotating }
    {
        Arbiter::of(ArbiterKind::Rotating)
    }

    /// Returns an arbiter of a kind, of a free bus without pending requests.
    pub fn of(kind: ArbiterKind) -> Arbiter
        ensures { result ≡ opening_bus kind }
    {
        Arbiter {
            kind,
            first: HIGHEST,
            holder: None,
            levels: [None; PLACES],
            is_quiet: false,
        }
    }

    /// Returns the state, for a caller that keeps or compares it between two steps.
    #[tactic(auto, using(crate::proofs::States::all_in_range))]
    pub fn state(&self) -> ArbiterState
        ensures bus { bus_of_state result ≡ self.now }
        ensures in_range { IsTrue (is_in_range result) }
    {
        ArbiterState {
            kind: self.kind,
            first: self.first,
            holder: self.holder,
            levels: self.levels,
        }
    }

    /// Returns the arbiter in a state, or `None` if a level of the state is out of range.
    #[tactic(auto, using(crate::proofs::States::each_in_range))]
    pub fn from_state(state: &ArbiterState) -> Option<Arbiter>
        ensures { result ≡ bus_from_state state.now }
    {
        let ArbiterState {
            kind,
            first,
            holder,
            levels,
        } = *state;
        if first < LEVELS && are_in_range(&levels) {
            return Some(Arbiter {
                kind,
                first,
                holder,
                levels,
                is_quiet: false,
            });
        }
        None
    }

    /// Returns an arbiter in the same state.
    pub fn copy(&self) -> Arbiter
        ensures { result ≡ self.now }
    {
        Arbiter {
            kind: self.kind,
            first: self.first,
            holder: self.holder,
            levels: self.levels,
            is_quiet: self.is_quiet,
        }
    }

    /// Returns `true` only if two arbiters are equal.
    pub fn is_same(&self, other: &Arbiter) -> bool
        ensures { IsTrue result → self.now ≡ other.now }
    {
        self.kind == other.kind
            && self.first == other.first
            && self.holder == other.holder
            && are_same_levels(&self.levels, &other.levels)
    }

    /// Whether a slot holds the bus.
    fn holds(&self, slot: u16) -> bool
        ensures { result ≡ holds self.now slot }
    {
        self.holder == Some(slot)
    }

    /// Whether a request of a slot is pending.
    fn pends(&self, slot: u16) -> bool
        ensures { result ≡ pends self.now slot }
    {
        level_of(&self.levels, slot).is_some()
    }

    /// Whether a slot can request the bus on a level: both are in range, and the slot neither holds
    /// the bus nor has a pending request.
    fn can_ask(&self, slot: u16, level: u8) -> bool
        ensures { result ≡ can_ask self.now slot level }
    {
        is_slot(slot) && level < LEVELS && !self.holds(slot) && !self.pends(slot)
    }

    /// Grants the bus to a request.
    fn grant(&mut self, request: Request)
        requires { request.level < 4 }
        ensures { self.new ≡ granted (bus_request request.level request.slot) self.old.pending self.old }
    {
        self.holder = Some(request.slot);
        self.first = self.kind.first_after(request.level);
    }

    /// The step of `ArbCmd::Ask`.
    fn ask(&mut self, slot: u16, level: u8) -> ArbReply
        ensures state { self.new ≡ (ask_step self.old slot level).0 }
        ensures reply { result ≡ (ask_step self.old slot level).1 }
    {
        if !self.can_ask(slot, level) {
            return ArbReply::Denied;
        }
        if self.holder.is_none() {
            self.grant(Request { level, slot });
            return ArbReply::Granted;
        }
        self.levels[usize::from(slot)] = Some(level);
        self.is_quiet = false;
        ArbReply::Waiting
    }

    /// Returns the reply to `ArbCmd::Look`, which leaves the arbiter as it is.
    pub fn look(&self, slot: u16) -> ArbReply
        ensures { result ≡ (look_step self.now slot).1 }
    {
        if self.holds(slot) {
            return ArbReply::Granted;
        }
        if self.pends(slot) {
            return ArbReply::Waiting;
        }
        ArbReply::Denied
    }

    /// The step of `ArbCmd::Done`: the bus is granted to the next request, if any.
    fn done(&mut self, slot: u16) -> ArbReply
        ensures state { self.new ≡ (done_step self.old slot).0 }
        ensures reply { result ≡ (done_step self.old slot).1 }
    {
        if !self.holds(slot) {
            return ArbReply::Denied;
        }
        if self.is_quiet {
            self.holder = None;
            return ArbReply::Freed;
        }
        match next_request(&self.levels, self.first) {
            Some(next) => {
                self.levels[usize::from(next.slot)] = None;
                self.grant(next);
            }
            None => {
                self.holder = None;
                self.is_quiet = true;
            }
        }
        ArbReply::Freed
    }
}

/// Whether a number is that of a slot.
fn is_slot(number: u16) -> bool
    ensures { result ≡ is_slot number }
{
    1 <= number && number <= SLOTS
}

impl Object for Arbiter {
    ghost use Rattle.vme_arbiter.specs.Arbitration.{arbiter_step};

    type Cmd = ArbCmd;

    type Reply = ArbReply;

    ghost step = { arbiter_step };

    #[inline(always)]
    fn apply(&mut self, cmd: &ArbCmd) -> ArbReply {
        match *cmd {
            ArbCmd::Ask { slot, level } => self.ask(slot, level),
            ArbCmd::Look { slot } => self.look(slot),
            ArbCmd::Done { slot } => self.done(slot),
        }
    }
}
