//! The variables of a slot in an event.
ghost use Rattle.std.specs.Prelude.{◌≡◌, ◌<◌, ◌≤◌, ◌++◌, OnOk};
ghost use Rattle.vme_trace.specs.Slots.{release_edge, grant_edge, is_granted, passes_grant, selects, opens, ends_with, grant_lines, end_edge, has_ended, requests, releases, line_changes, request_changes, chain_changes, busy_changes, select_changes, local_changes, access_changes, own_port_changes, slot_changes};

use crate::dump::change::{Change, Value, push_if};
use crate::dump::edge::{
    BEGIN, BUSY_FALLS, END, FIRST, GRANT, GRANT_ENDS, RELEASE, REQUEST_RISES, SECOND, STROBES_RISE,
};
use crate::dump::handshake::{Handshake, first_handshake, second_handshake};
use crate::dump::port::{PortAccess, port_access, push_port};
use crate::dump::variable::Variable;
use crate::observation::{Activity, Grant, Observation};
use std::alloc::AllocError;
use vme_core::EventReply;

/// Appends the changes of the variables of a board's slot.
#[tactic(auto, unfolding(crate::specs::Slots::slot_changes))]
pub(crate) fn push_slot(
    changes: &mut Vec<Change>,
    board: usize,
    event: &Observation,
) -> Result<(), AllocError>
    requires { board < 26 }
    ensures { OnOk result (changes.new.items ≡ changes.old.items ++ slot_changes event.now board) }
{
    push_line(changes, board, event)?;
    push_request(changes, board, event)?;
    push_chain(changes, board, event)?;
    push_busy(changes, board, event)?;
    push_select(changes, board, event)?;
    push_own_port(changes, board, event)
}

/// The number of the current line.
#[tactic(auto, unfolding(crate::specs::Slots::line_changes))]
fn push_line(changes: &mut Vec<Change>, board: usize, event: &Observation) -> Result<(), AllocError>
    requires { board < 26 }
    ensures { OnOk result (changes.new.items ≡ changes.old.items ++ line_changes event.now board) }
{
    let code = Variable::CurrentLine(board).code();
    let own = event.board == board;
    let line = Value::Number {
        width: 10,
        number: u32::from(event.line),
    };
    push_if(changes, own, BEGIN, code, line)?;
    push_if(changes, own && event.ended, END, code, Value::Released)
}

/// The bus request line that the slot drives.
#[tactic(auto, unfolding(crate::specs::Slots::request_changes))]
fn push_request(
    changes: &mut Vec<Change>,
    board: usize,
    event: &Observation,
) -> Result<(), AllocError>
    requires { board < 26 }
    ensures { OnOk result (changes.new.items ≡ changes.old.items ++ request_changes event.now board) }
{
    let code = Variable::RequestLine(board).code();
    let asks = event.board == board && requests(&event.activity);
    push_if(changes, asks, BEGIN, code, Value::Low)?;
    let edge = grant_edge(&event.activity);
    push_if(
        changes,
        is_granted(event.grant, board),
        edge + REQUEST_RISES,
        code,
        Value::High,
    )
}

/// The lines BG3IN* to BG0IN* of the slot, on the daisy chain.
#[tactic(auto, unfolding(crate::specs::Slots::chain_changes))]
fn push_chain(
    changes: &mut Vec<Change>,
    board: usize,
    event: &Observation,
) -> Result<(), AllocError>
    requires { board < 26 }
    ensures { OnOk result (changes.new.items ≡ changes.old.items ++ chain_changes event.now board) }
{
    let code = Variable::GrantLines(board).code();
    let edge = grant_edge(&event.activity);
    let passes = passes_grant(event.grant, board);
    let (low, high) = (Value::Grants(grant_lines(event.grant)), Value::Grants(15));
    push_if(changes, passes, edge, code, low)?;
    push_if(changes, passes, edge + GRANT_ENDS, code, high)
}

/// BBSY*, as the slot drives it.
#[tactic(auto, unfolding(crate::specs::Slots::busy_changes))]
fn push_busy(changes: &mut Vec<Change>, board: usize, event: &Observation) -> Result<(), AllocError>
    requires { board < 26 }
    ensures { OnOk result (changes.new.items ≡ changes.old.items ++ busy_changes event.now board) }
{
    let code = Variable::BusyLine(board).code();
    let frees = event.board == board && releases(&event.activity);
    push_if(
        changes,
        frees,
        release_edge(&event.activity),
        code,
        Value::High,
    )?;
    let edge = grant_edge(&event.activity);
    push_if(
        changes,
        is_granted(event.grant, board),
        edge + BUSY_FALLS,
        code,
        Value::Low,
    )
}

/// Whether the board of the slot is selected.
#[tactic(auto, unfolding(crate::specs::Slots::select_changes))]
fn push_select(
    changes: &mut Vec<Change>,
    board: usize,
    event: &Observation,
) -> Result<(), AllocError>
    requires { board < 26 }
    ensures { OnOk result (changes.new.items ≡ changes.old.items ++ select_changes event.now board) }
{
    let code = Variable::Selected(board).code();
    let own = selects(&event.activity, board);
    let begins = own && opens(&event.activity);
    let ends = own && has_ended(event);
    push_if(changes, begins, FIRST, code, Value::High)?;
    push_if(changes, ends, end_edge(event), code, Value::Low)
}

/// The local port of the board, if it is accessed.
#[tactic(auto, unfolding(crate::specs::Slots::own_port_changes))]
fn push_own_port(
    changes: &mut Vec<Change>,
    board: usize,
    event: &Observation,
) -> Result<(), AllocError>
    requires { board < 26 }
    ensures { OnOk result (changes.new.items ≡ changes.old.items ++ own_port_changes event.now board) }
{
    if event.board != board {
        return Ok(());
    }
    push_local(changes, board, &event.activity, &event.reply)
}

/// The local port of a board, if a command goes to it.
fn push_local(
    changes: &mut Vec<Change>,
    board: usize,
    activity: &Activity,
    reply: &EventReply,
) -> Result<(), AllocError>
    requires { board < 26 }
    ensures { OnOk result
        (changes.new.items ≡ changes.old.items ++ local_changes board activity.now reply.now) }
{
    match (activity, reply) {
        (Activity::Local(cmd), EventReply::Board(reply)) => {
            push_access(changes, board, port_access(cmd, reply))
        }
        _ => Ok(()),
    }
}

/// An access by a local port, if there is one.
fn push_access(
    changes: &mut Vec<Change>,
    board: usize,
    access: Option<PortAccess>,
) -> Result<(), AllocError>
    requires { board < 26 }
    ensures { OnOk result (changes.new.items ≡ changes.old.items ++ access_changes board access) }
{
    match access {
        Some(access) => push_port(changes, board, &access),
        None => Ok(()),
    }
}

/// Whether the slot requests the bus.
pub(crate) fn requests(activity: &Activity) -> bool
    ensures { result ≡ requests activity.now }
{
    matches!(activity, Activity::Requests)
}

/// Whether the slot releases the bus.
pub(crate) fn releases(activity: &Activity) -> bool
    ensures { result ≡ releases activity.now }
{
    matches!(activity, Activity::Releases(_))
}

/// The edge at which the bus is released: after the cycle that no board answered, if there was one.
pub(crate) fn release_edge(activity: &Activity) -> u8
    ensures value { result ≡ release_edge activity.now }
    ensures within { result ≤ 12 }
{
    match activity {
        Activity::Releases(Some(_)) => RELEASE,
        _ => BEGIN,
    }
}

/// The edge at which a grant begins.
pub(crate) fn grant_edge(activity: &Activity) -> u8
    ensures value { result ≡ grant_edge activity.now }
    ensures within { result ≤ 13 }
{
    release_edge(activity) + GRANT
}

/// Whether the bus is granted to a board's slot.
fn is_granted(grant: Option<Grant>, board: usize) -> bool
    ensures { result ≡ is_granted grant board }
{
    match grant {
        Some(grant) => grant.board == board,
        None => false,
    }
}

/// Whether a grant passes a board's slot, or ends there.
fn passes_grant(grant: Option<Grant>, board: usize) -> bool
    ensures { result ≡ passes_grant grant board }
{
    match grant {
        Some(grant) => board <= grant.board,
        None => false,
    }
}

/// The levels of BG3IN* to BG0IN* in a grant.
fn grant_lines(grant: Option<Grant>) -> u8
    ensures { result ≡ grant_lines grant }
{
    let Some(grant) = grant else {
        return 15;
    };
    match grant.level {
        0 => 14,
        1 => 13,
        2 => 11,
        _ => 7,
    }
}

/// Whether a transfer selects a board in an event.
fn selects(activity: &Activity, board: usize) -> bool
    ensures { result ≡ selects activity.now board }
{
    match activity {
        Activity::Transfers(datum) => datum.board == board,
        _ => false,
    }
}

/// Whether a transfer begins in an event.
fn opens(activity: &Activity) -> bool
    ensures { result ≡ opens activity.now }
{
    match activity {
        Activity::Transfers(datum) => datum.first,
        _ => false,
    }
}

/// Whether AS* rises in an event.
fn has_ended(event: &Observation) -> bool
    ensures { result ≡ has_ended event.now }
{
    let first = first_handshake(&event.activity, &event.reply);
    let second = second_handshake(&event.activity, &event.reply);
    ends(first) || ends(second)
}

/// The edge at which AS* rises, if it does.
fn end_edge(event: &Observation) -> u8
    ensures { result ≡ end_edge event.now }
{
    if second_handshake(&event.activity, &event.reply).is_some() {
        SECOND + STROBES_RISE
    } else {
        FIRST + STROBES_RISE
    }
}

/// Whether AS* rises after a handshake.
fn ends(handshake: Option<Handshake>) -> bool
    ensures { result ≡ ends_with handshake }
{
    match handshake {
        Some(handshake) => handshake.ends,
        None => false,
    }
}
