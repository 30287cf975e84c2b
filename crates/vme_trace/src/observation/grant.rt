//! Grants of the bus.
ghost use Rattle.std.specs.Prelude.{◌≡◌};
ghost use Rattle.std.specs.List.{list_any};
ghost use Rattle.std.specs.Option.{option_and_then};
ghost use Rattle.vme_arbiter.specs.States.{bus_of_state};
ghost use Rattle.vme_trace.specs.Grants.{is_on_level, pends_on, grant_to, grant_of};

use crate::observation::activity::Activity;
use vme_arbiter::{ArbReply, Arbiter, ArbiterState};
use vme_core::EventReply;
use vme_script::Config;
use vme_stepper::board_in_slot;

/// A grant of the bus.
#[derive(Clone, Copy, Debug, PartialEq, Eq)]
pub struct Grant {
    /// The index of the board whose slot holds the bus from now on.
    pub board: usize,
    /// The slot.
    pub slot: u16,
    /// The level on which the slot requested the bus.
    pub level: u8,
    /// Whether no other request is pending on this level.
    pub alone: bool,
}

/// Returns the grant of the bus with an event, if there is one, by the arbiter after it.
pub(crate) fn grant_of(
    config: &Config,
    activity: &Activity,
    reply: &EventReply,
    arbiter: &Arbiter,
) -> Option<Grant>
    ensures { result ≡ grant_of config.now activity.now reply.now arbiter.now }
{
    match (activity, reply) {
        (Activity::Requests, EventReply::Bus(ArbReply::Granted)) | (Activity::Releases(_), _) => {
            granted(config, &arbiter.state())
        }
        _ => None,
    }
}

/// Returns the grant to the slot that holds the bus, if there is one.
fn granted(config: &Config, state: &ArbiterState) -> Option<Grant>
    ensures { result ≡ option_and_then (grant_to config.now (bus_of_state state.now)) state.now.holder }
{
    let slot = state.holder?;
    let board = board_in_slot(config, slot)?;
    let level = config.level(board);
    Some(Grant {
        board,
        slot,
        level,
        alone: !pends_on(state, level),
    })
}

/// Returns whether a request is pending on a level.
fn pends_on(state: &ArbiterState, level: u8) -> bool
    ensures { result ≡ pends_on (bus_of_state state.now) level }
{
    is_any_on_level(level, &state.levels)
}

/// Returns whether some slot's request is on a level.
fn is_any_on_level(level: u8, levels: &[Option<u8>]) -> bool
    ensures { result ≡ list_any (is_on_level level) levels.now }
{
    levels.iter().any(|pending| is_on_level(level, *pending))
}

/// Returns whether a slot's request is pending on a level.
fn is_on_level(level: u8, pending: Option<u8>) -> bool
    ensures { result ≡ is_on_level level pending }
{
    match pending {
        Some(pending) => pending == level,
        None => false,
    }
}
