//! The changes of an event.
ghost use Rattle.std.specs.Prelude.{◌≡◌, ◌≤◌, ◌++◌, OnOk, flat_map};
ghost use Rattle.std.specs.List.{range_with_len};
ghost use Rattle.vme_trace.specs.Slots.{slot_changes};
ghost use Rattle.vme_trace.specs.Events.{grant_slot, grant_level, is_alone, name_changes, holder_changes, request_line_changes, bus_changes, event_changes};

use crate::dump::bus::push_some_handshake;
use crate::dump::change::{Change, Value, push_if};
use crate::dump::edge::{BEGIN, BUSY_FALLS, REQUEST_RISES};
use crate::dump::handshake::{first_handshake, second_handshake};
use crate::dump::slot::{grant_edge, push_slot, release_edge, releases, requests};
use crate::dump::variable::Variable;
use crate::observation::{Grant, Observation};
use std::alloc::AllocError;

/// Appends the changes of event `n` on a backplane with so many boards, in order of the variables:
/// those of the bus, and then those of the slot of each board.
#[tactic(auto, unfolding(crate::specs::Events::event_changes))]
pub fn push_event(
    changes: &mut Vec<Change>,
    boards: usize,
    n: u32,
    event: &Observation,
) -> Result<(), AllocError>
    requires { boards ≤ 26 }
    ensures { OnOk result
        (changes.new.items ≡ changes.old.items ++ event_changes boards n event.now) }
{
    push_bus(changes, n, event)?;
    push_slots(changes, boards, event)
}

/// Appends the changes of the slots of so many boards.
fn push_slots(
    changes: &mut Vec<Change>,
    boards: usize,
    event: &Observation,
) -> Result<(), AllocError>
    requires { boards ≤ 26 }
    ensures { OnOk result (changes.new.items
        ≡ changes.old.items ++ flat_map (slot_changes event.now) (range_with_len 0 boards)) }
{
    for board in 0..boards {
        push_slot(changes, board, event)?;
    }
    Ok(())
}

/// Appends the changes of the bus.
#[tactic(auto, unfolding(crate::specs::Events::bus_changes))]
fn push_bus(changes: &mut Vec<Change>, n: u32, event: &Observation) -> Result<(), AllocError>
    ensures { OnOk result (changes.new.items ≡ changes.old.items ++ bus_changes n event.now) }
{
    push_names(changes, n, event)?;
    push_holder(changes, event)?;
    push_request_lines(changes, event)?;
    push_some_handshake(changes, first_handshake(&event.activity, &event.reply))?;
    push_some_handshake(changes, second_handshake(&event.activity, &event.reply))
}

/// The number of the event, and whose it is.
#[tactic(auto, unfolding(crate::specs::Events::name_changes))]
fn push_names(changes: &mut Vec<Change>, n: u32, event: &Observation) -> Result<(), AllocError>
    ensures { OnOk result (changes.new.items ≡ changes.old.items ++ name_changes n event.now) }
{
    let number = Value::Number {
        width: 32,
        number: n,
    };
    let slot = Value::Number {
        width: 5,
        number: u32::from(event.slot),
    };
    push_if(changes, true, BEGIN, Variable::EventNumber.code(), number)?;
    push_if(changes, true, BEGIN, Variable::EventSlot.code(), slot)
}

/// The slot that holds the bus, and BBSY*.
#[tactic(auto, unfolding(crate::specs::Events::holder_changes))]
fn push_holder(changes: &mut Vec<Change>, event: &Observation) -> Result<(), AllocError>
    ensures { OnOk result (changes.new.items ≡ changes.old.items ++ holder_changes event.now) }
{
    let (holder, busy) = (Variable::Holder.code(), Variable::BusBusy.code());
    let frees = releases(&event.activity);
    let released = release_edge(&event.activity);
    let granted = grant_edge(&event.activity) + BUSY_FALLS;
    let slot = Value::Number {
        width: 5,
        number: grant_slot(event.grant),
    };
    push_if(changes, frees, released, holder, Value::Released)?;
    push_if(changes, event.grant.is_some(), granted, holder, slot)?;
    push_if(changes, frees, released, busy, Value::High)?;
    push_if(changes, event.grant.is_some(), granted, busy, Value::Low)
}

/// BR3* to BR0*.
#[tactic(auto, unfolding(crate::specs::Events::request_line_changes))]
fn push_request_lines(changes: &mut Vec<Change>, event: &Observation) -> Result<(), AllocError>
    ensures { OnOk result (changes.new.items ≡ changes.old.items ++ request_line_changes event.now) }
{
    let asked = Variable::BusRequest(event.level).code();
    let granted = Variable::BusRequest(grant_level(event.grant)).code();
    let edge = grant_edge(&event.activity) + REQUEST_RISES;
    push_if(changes, requests(&event.activity), BEGIN, asked, Value::Low)?;
    push_if(changes, is_alone(event.grant), edge, granted, Value::High)
}

/// The slot that the bus is granted to.
fn grant_slot(grant: Option<Grant>) -> u32
    ensures { result ≡ grant_slot grant }
{
    match grant {
        Some(grant) => u32::from(grant.slot),
        None => 0,
    }
}

/// The level of a grant.
fn grant_level(grant: Option<Grant>) -> u8
    ensures { result ≡ grant_level grant }
{
    match grant {
        Some(grant) => grant.level,
        None => 0,
    }
}

/// Whether no other request is pending on the level of a grant.
fn is_alone(grant: Option<Grant>) -> bool
    ensures { result ≡ is_alone grant }
{
    match grant {
        Some(grant) => grant.alone,
        None => false,
    }
}
