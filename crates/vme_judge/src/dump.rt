//! A dump, judged.
ghost use Rattle.std.specs.Prelude.{◌≡◌, true, None, replicate, IfOk};
ghost use Rattle.vme_protocol.specs.Ports.{local_between};
ghost use Rattle.vme_judge.specs.DumpRuns.{shown_by, Takes, TakesShown};
ghost use Rattle.vme_judge.specs.Dumps.{breach_taken, done_taken, dump_scope, is_among, is_passed, port_taken, ports_after, ports_taken, slots_of, undefined_at, with_presence};
ghost use Rattle.vme_judge.specs.Logs.{access_taken};
ghost use Rattle.vme_judge.specs.Standing.{course_map, resumed, sample_taken, standing, state_of, IsStanding};

use crate::boards::Board;
use crate::judge::{Judge, Spot};
use std::alloc::AllocError;
use vme_protocol::{Local, Port, Rule, Sample, Scope, local_access};
use vme_vcd_reader::{BusLines, ControlLine, Presence, VcdReader};

/// The number of slots.
const SLOTS: usize = 21;

/// The lines of the local ports at the sample before.
#[derive(Clone, Copy, Debug)]
pub(crate) struct Ports {
    pub(crate) last: [Option<Port>; SLOTS],
}

/// The bits of the boards' slots.
pub(crate) fn slots_of(boards: &[Board]) -> u32
    ensures { result ≡ slots_of boards.now }
{
    let mut slots = 0;
    for board in boards {
        slots |= 1u32.wrapping_shl(u32::from(board.slot.wrapping_sub(1)));
    }
    slots
}

/// Sets which rules are judged by what a dump has. After a finding nothing is set.
pub(crate) fn set_scope(judge: &mut Judge<'_>, presence: &Presence)
    ensures { standing judge.new ≡ course_map (with_presence presence.now) (standing judge.old) }
{
    if judge.finding.is_some() {
        return;
    }
    let slots = slots_of(judge.boards);
    judge.scope = dump_scope(presence, slots, judge.scope);
    judge.presence = *presence;
}

/// Which rules are judged of a dump by what it has.
fn dump_scope(presence: &Presence, slots: u32, scope: Scope) -> Scope
    ensures { result ≡ dump_scope presence.now slots scope }
{
    let drivers = presence.drivers & slots == slots;
    Scope {
        drivers,
        busy: presence.busy || drivers,
        busy_line: presence.busy,
        grants: drivers && presence.requests & slots == slots && presence.grants & slots == slots,
        ..scope
    }
}

/// Whether the slot at a place is among slots: slot 1 is at place 0.
fn is_among(slots: u32, place: u8) -> bool
    ensures { result ≡ is_among slots place }
{
    slots.wrapping_shr(u32::from(place)) & 1 != 0
}

impl Ports {
    /// Returns the ports before the first sample.
    pub(crate) fn new() -> Ports
        ensures { result.last ≡ replicate 21 None }
    {
        Ports {
            last: [None; SLOTS],
        }
    }

    /// Takes the ports of a sample, of which those of some slots have changed, and returns whether
    /// the judgement goes on.
    ///
    /// # Errors
    ///
    /// An allocation failed.
    pub(crate) fn take(
        &mut self,
        judge: &mut Judge<'_>,
        bus: &BusLines,
        changed: u32,
        spot: Spot,
    ) -> Result<bool, AllocError>
        ensures judged { IsStanding (standing judge.old) →
            IfOk result (Takes judge.old judge.new (ports_taken spot bus.now changed 0 self.old.last)) }
        ensures shown { IfOk result (λ goes_on. goes_on ≡ true → self.new.last ≡ ports_after bus.now changed 0 self.old.last) }
    {
        if changed == 0 {
            return Ok(true);
        }
        for place in 0..21u8 {
            if !is_among(changed, place) {
                continue;
            }
            let Some(port) = bus.port(place + 1) else {
                continue;
            };
            let last = self.last[usize::from(place)];
            self.last[usize::from(place)] = Some(port);
            let goes_on = take_port(judge, place + 1, last, &port, spot)?;
            if !goes_on {
                return Ok(false);
            }
        }
        Ok(true)
    }
}

/// Takes what the local port of a slot shows, and returns whether the judgement goes on.
fn take_port(
    judge: &mut Judge<'_>,
    slot: u8,
    last: Option<Port>,
    now: &Port,
    spot: Spot,
) -> Result<bool, AllocError>
    ensures { IsStanding (standing judge.old) → IfOk result (Takes judge.old judge.new (port_taken spot slot last now.now)) }
{
    let Some(last) = last else {
        return Ok(true);
    };
    if !judge.is_begun() {
        return Ok(true);
    }
    take_done(judge, slot, &last, now, spot)
}

/// Takes what a local port has done between two samples.
fn take_done(
    judge: &mut Judge<'_>,
    slot: u8,
    last: &Port,
    now: &Port,
    spot: Spot,
) -> Result<bool, AllocError>
    ensures { IsStanding (standing judge.old) → IfOk result (Takes judge.old judge.new (done_taken spot slot (local_between last.now now.now))) }
{
    match local_access(last, now) {
        Ok(None) => Ok(true),
        Ok(Some(access)) => take_access(judge, slot, &access, spot),
        Err(rule) => take_breach(judge, slot, rule, spot),
    }
}

/// Takes an access by a local port.
fn take_access(
    judge: &mut Judge<'_>,
    slot: u8,
    access: &Local,
    spot: Spot,
) -> Result<bool, AllocError>
    ensures { IsStanding (standing judge.old) → IfOk result (Takes judge.old judge.new (λ m. resumed (access_taken spot slot access.now m))) }
{
    if judge.access(slot, access, spot)? {
        return Ok(true);
    }
    judge.goes_on()
}

/// Takes a rule that a local port breaks.
fn take_breach(judge: &mut Judge<'_>, slot: u8, rule: Rule, spot: Spot) -> Result<bool, AllocError>
    ensures { IsStanding (standing judge.old) → IfOk result (Takes judge.old judge.new (λ m. resumed (breach_taken spot slot rule m))) }
{
    judge.port_breaks(rule, slot, spot);
    judge.goes_on()
}

/// Takes the lines of a sample.
fn take_lines(
    judge: &mut Judge<'_>,
    sample: &Sample,
    spot: Spot,
    undefined: Option<ControlLine>,
) -> Result<bool, AllocError>
    ensures { IsStanding (standing judge.old) → IfOk result (Takes judge.old judge.new (λ m. resumed (sample_taken spot undefined sample.now m))) }
{
    if judge.take(sample, spot, undefined)? {
        return Ok(true);
    }
    judge.goes_on()
}

/// Whether a sample is passed over: nothing has changed, no time is limited, and the samples are
/// judged already.
fn is_passed(judge: &Judge<'_>, vcd: &VcdReader<'_>) -> bool
    ensures { result ≡ is_passed (shown_by vcd.now) (state_of judge.now) }
{
    !vcd.is_changed() && judge.options.timeout.is_none() && judge.is_judging()
}

/// A control line that is undefined at a sample, if the sample is one with such a line.
fn undefined_at(bus: &BusLines, undefined: bool) -> Option<ControlLine>
    ensures { result ≡ undefined_at bus.now undefined }
{
    if undefined {
        bus.undefined_line()
    } else {
        None
    }
}

/// Takes the sample that a reader has completed, and returns whether the judgement goes on.
///
/// # Errors
///
/// An allocation failed.
pub(crate) fn take_sample(
    judge: &mut Judge<'_>,
    ports: &mut Ports,
    vcd: &VcdReader<'_>,
) -> Result<bool, AllocError>
    ensures { IsStanding (standing judge.old) →
        IfOk result (TakesShown judge.old judge.new ports.old.last ports.new.last (shown_by vcd.now)) }
{
    if is_passed(judge, vcd) {
        judge.pass();
        return Ok(true);
    }
    let time = vcd.time();
    let spot = Spot {
        line: vcd.sample_line(),
        time: Some(time),
    };
    let bus = vcd.bus();
    let sample = bus.sample(time);
    let undefined = undefined_at(bus, sample.undefined);
    let goes_on = take_lines(judge, &sample, spot, undefined)?;
    if !goes_on {
        return Ok(false);
    }
    ports.take(judge, bus, vcd.changed_ports(), spot)
}
