//! The arbiter, whose state the caller holds.
ghost use Rattle.std.specs.Prelude.{◌≡◌, Some, None, IfSome, IfNone};
ghost use Rattle.vme_arbiter.specs.declared.command.ArbCmd.TheVariants.{Ask, Look, Done};
ghost use Rattle.vme_arbiter.specs.Arbitration.{opening_bus, arbiter_step};
ghost use Rattle.vme_c_types.specs.Boards.{kind_of};
ghost use Rattle.vme_ffi.specs.Arbiters.{kind_number, bus_of, reply_number, Exact, WritesState};
ghost use Rattle.vme_ffi.specs.Results.{bad_state};

use crate::levels::{lane_numbers, lanes_of};
use crate::results::BAD_STATE;
use vme_arbiter::{ArbCmd, ArbReply, Arbiter, ArbiterKind, ArbiterState};
use vme_c_types::{kind_of, level_of};
use vme_object::Object;

/// The state of an arbiter.
#[repr(C)]
#[derive(Clone, Copy)]
pub struct VmeArbiter {
    /// 0: priority (PRI). Every other number: rotating (RRS).
    pub kind: u8,
    /// The level at which the next grant begins, 0 to 3.
    pub first: u8,
    /// Whether a slot holds the bus.
    pub held: u8,
    /// The slot that holds the bus, if one does.
    pub holder: u16,
    /// By slot: the level of its pending request, 0 to 3, or a number above 255 if it has none.
    pub levels: [u16; 22],
}

/// The number of a kind of arbiter.
fn kind_number(kind: ArbiterKind) -> u8
    ensures kind { kind_of result ≡ kind }
    ensures exact { result ≡ kind_number kind }
{
    match kind {
        ArbiterKind::Priority => 0,
        ArbiterKind::Rotating => 1,
    }
}

/// The number of a reply.
fn reply_number(reply: ArbReply) -> u8
    ensures { result ≡ reply_number reply }
{
    match reply {
        ArbReply::Granted => 1,
        ArbReply::Waiting => 2,
        ArbReply::Freed => 3,
        ArbReply::Denied => 4,
    }
}

/// The arbiter in a state, if the levels of the state are in range.
fn arbiter_of(state: &VmeArbiter) -> Option<Arbiter>
    ensures { result ≡ bus_of state.now }
{
    Arbiter::from_state(&ArbiterState {
        kind: kind_of(state.kind),
        first: state.first,
        holder: if level_of(state.held) {
            Some(state.holder)
        } else {
            None
        },
        levels: lanes_of(&state.levels),
    })
}

/// The state of an arbiter.
fn state_from(arbiter: &Arbiter) -> VmeArbiter
    ensures bus { bus_of result ≡ Some arbiter.now }
    ensures exact { Exact result }
{
    let state = arbiter.state();
    let (held, holder) = match state.holder {
        Some(slot) => (1, slot),
        None => (0, 0),
    };
    VmeArbiter {
        kind: kind_number(state.kind),
        first: state.first,
        held,
        holder,
        levels: lane_numbers(&state.levels),
    }
}

/// Applies a command to a state. Returns the number of the reply, or `BAD_STATE`.
/// A command that is denied leaves the state as it was.
fn apply(state: &mut VmeArbiter, cmd: ArbCmd) -> u8
    ensures step { IfSome (bus_of state.old) (λ bus. (result ≡ reply_number (arbiter_step bus cmd).1)
        × (bus_of state.new ≡ Some (arbiter_step bus cmd).0)) }
    ensures written { IfSome (bus_of state.old) (λ bus. WritesState (arbiter_step bus cmd).1 state.old state.new) }
    ensures no_state { IfNone (bus_of state.old) ((result ≡ bad_state) × (state.new ≡ state.old)) }
{
    let Some(mut arbiter) = arbiter_of(state) else {
        return BAD_STATE;
    };
    let reply = arbiter.apply(&cmd);
    if !matches!(reply, ArbReply::Denied) {
        *state = state_from(&arbiter);
    }
    reply_number(reply)
}

/// Writes the first state of an arbiter, of a free bus without pending requests: IEEE 1014-1987,
/// 3.3 (arbiter and requesters).
#[unsafe(no_mangle)]
pub extern "C" fn vme_arbiter_open(kind: u8, out: &mut VmeArbiter)
    ensures bus { bus_of out.new ≡ Some (opening_bus (kind_of kind)) }
    ensures exact { Exact out.new }
{
    *out = state_from(&Arbiter::of(kind_of(kind)));
}

/// Requests the bus for a slot on a level: IEEE 1014-1987, 3.3 (arbiter and requesters). Returns
/// the number of the reply (granted, waiting, or denied), or `BAD_STATE` if a level of the state is
/// above 3.
#[unsafe(no_mangle)]
pub extern "C" fn vme_arbiter_ask(arbiter: &mut VmeArbiter, slot: u16, level: u8) -> u8
    ensures step { IfSome (bus_of arbiter.old) (λ bus. (result ≡ reply_number (arbiter_step bus (Ask slot level)).1)
        × (bus_of arbiter.new ≡ Some (arbiter_step bus (Ask slot level)).0)) }
    ensures written { IfSome (bus_of arbiter.old) (λ bus.
        WritesState (arbiter_step bus (Ask slot level)).1 arbiter.old arbiter.new) }
    ensures no_state { IfNone (bus_of arbiter.old) ((result ≡ bad_state) × (arbiter.new ≡ arbiter.old)) }
{
    apply(arbiter, ArbCmd::Ask { slot, level })
}

/// Asks whether a slot holds the bus. Returns the number of the reply (granted, waiting, or
/// denied), or `BAD_STATE` if a level of the state is above 3.
#[unsafe(no_mangle)]
pub extern "C" fn vme_arbiter_look(arbiter: &mut VmeArbiter, slot: u16) -> u8
    ensures step { IfSome (bus_of arbiter.old) (λ bus. (result ≡ reply_number (arbiter_step bus (Look slot)).1)
        × (bus_of arbiter.new ≡ Some (arbiter_step bus (Look slot)).0)) }
    ensures written { IfSome (bus_of arbiter.old) (λ bus.
        WritesState (arbiter_step bus (Look slot)).1 arbiter.old arbiter.new) }
    ensures no_state { IfNone (bus_of arbiter.old) ((result ≡ bad_state) × (arbiter.new ≡ arbiter.old)) }
{
    apply(arbiter, ArbCmd::Look { slot })
}

/// Releases the bus, which is granted to the next request: IEEE 1014-1987, 3.3 (arbiter and
/// requesters). Returns the number of the reply (freed, or denied), or `BAD_STATE` if a level of
/// the state is above 3.
#[unsafe(no_mangle)]
pub extern "C" fn vme_arbiter_done(arbiter: &mut VmeArbiter, slot: u16) -> u8
    ensures step { IfSome (bus_of arbiter.old) (λ bus. (result ≡ reply_number (arbiter_step bus (Done slot)).1)
        × (bus_of arbiter.new ≡ Some (arbiter_step bus (Done slot)).0)) }
    ensures written { IfSome (bus_of arbiter.old) (λ bus.
        WritesState (arbiter_step bus (Done slot)).1 arbiter.old arbiter.new) }
    ensures no_state { IfNone (bus_of arbiter.old) ((result ≡ bad_state) × (arbiter.new ≡ arbiter.old)) }
{
    apply(arbiter, ArbCmd::Done { slot })
}
