//! A use of `vme_bus_wait`.
use std::sync::Wait;
use vme_arbiter::{ArbCmd, ArbReply, Arbiter};
use vme_bus_wait::{BusWaiters, WaitState};
use vme_object::Object;

/// Polls the arbiter for processor 0 in slot 1, and waits for a round if its request is pending.
pub fn poll<R: Wait>(rt: &R, waiters: &BusWaiters, state: &mut WaitState, bus: &mut Arbiter) {
    let seen = waiters.releases();
    match bus.apply(&ArbCmd::Look { slot: 1 }) {
        ArbReply::Waiting => waiters.wait(rt, 0, seen, state),
        ArbReply::Granted => waiters.leave(state),
        ArbReply::Freed | ArbReply::Denied => {}
    }
}
