//! The lines of the bus, as the changes before have left them.
ghost use Rattle.std.specs.Prelude.{◌≡◌};
ghost use Rattle.vme_vcd_reader.specs.Buses.{after_change, any_of, bus_after, defined_lane, defined_lanes, level_set, level_sets, port_after, port_changed, sample_lines, sample_of, showing, slot_after, with_slot};
ghost use Rattle.vme_vcd_reader.specs.Changes.{level_after, undefined_after};
ghost use Rattle.vme_vcd_reader.specs.ControlLines.{undefined_line};
ghost use Rattle.vme_vcd_reader.specs.Openings.{resting};
ghost use Rattle.vme_vcd_reader.specs.Ports.{port_in, without_changes};
ghost use Rattle.vme_line_map.specs.declared.group.Group.TheVariants.{Modifier};

use crate::bits::Bits;
use crate::change::Change;
use crate::control::{
    ACKNOWLEDGE, ADDRESS_STROBE, BUS_ERROR, BUSY, ControlLine, INTERRUPT_ACKNOWLEDGE, LOWER_STROBE,
    UPPER_STROBE, first_marked,
};
use crate::variable::Mapped;
use vme_line_map::Group;
use vme_protocol::{Port, Sample};

/// The number of slots.
const SLOTS: usize = 21;

/// The lines of a local port.
#[derive(Clone, Copy, Debug)]
struct PortLines {
    port: Port,
    /// The lines of its data that are not driven or undefined.
    idle: u32,
    /// The lines of its offset that are.
    undefined_offset: u32,
    /// Whether its direction is.
    undefined_write: bool,
}

/// The lines of the bus.
#[derive(Debug, Drop)]
pub struct BusLines {
    sample: Sample,
    /// The control lines that are undefined.
    undefined: u32,
    /// The lines of AM that are not driven or undefined.
    idle_modifier: u32,
    /// The slots with an undefined BBSY*, BRn* or BGnIN*.
    undefined_drivers: u32,
    undefined_requests: [u32; 4],
    undefined_grants: [u32; 4],
    /// The slots with BRn* or BGnIN* low, for each level.
    requests: [u32; 4],
    grants: [u32; 4],
    ports: [PortLines; SLOTS],
    /// The slots whose ports have changed.
    changed_ports: u32,
    /// Whether the dump has BBSY* of the bus.
    has_busy: bool,
}

/// The lines before any change.
const RESTING: Sample = Sample {
    address_strobe: true,
    ds1: true,
    ds0: true,
    dtack: true,
    undefined: false,
    berr: true,
    iack: true,
    busy: true,
    drivers: 0,
    requests: 0,
    grants: 0,
    am: 0,
    am_undefined: true,
    write: true,
    write_undefined: true,
    lines: 0,
    lines_undefined: u64::MAX,
    time: 0,
};

/// LWORD* among the lines of a sample, and the place of A00, which is not one of them.
const LONG_WORD: u64 = 1 << 32;

/// A set of slots with one of them in it or not.
pub(crate) fn with_slot(slots: u32, slot: u8, is_in: bool) -> u32
    ensures { result ≡ with_slot slots slot is_in }
{
    let bit = 1u32.wrapping_shl(u32::from(slot.wrapping_sub(1)));
    if is_in { slots | bit } else { slots & !bit }
}

/// The set of slots of one level, whose line is `bit`, after a change of a slot's lines.
fn level_set(set: u32, bit: u32, change: Change, lines: u32, slot: u8) -> u32
    ensures { result ≡ level_set set bit change lines slot }
{
    if change.mask & bit != 0 {
        with_slot(set, slot, lines & bit != 0)
    } else {
        set
    }
}

/// The four sets of slots of four levels after a change of a slot's lines.
fn level_sets(sets: [u32; 4], change: Change, lines: u32, slot: u8) -> [u32; 4]
    ensures { result ≡ level_sets sets change lines slot }
{
    [
        level_set(sets[0], 1, change, lines, slot),
        level_set(sets[1], 2, change, lines, slot),
        level_set(sets[2], 4, change, lines, slot),
        level_set(sets[3], 8, change, lines, slot),
    ]
}

/// The slots in any of four sets.
fn any_of(sets: &[u32; 4]) -> u32
    ensures { result ≡ any_of sets.now }
{
    sets[0] | sets[1] | sets[2] | sets[3]
}

impl BusLines {
    /// Returns lines at rest, with everything else undefined.
    #[tactic(auto, unfolding(crate::specs::Openings::resting))]
    pub(crate) fn new() -> BusLines
        ensures { result ≡ resting }
    {
        let port = Port {
            done: false,
            write: false,
            undefined: true,
            offset: 0,
            lanes: 0,
            data: 0,
        };
        BusLines {
            sample: RESTING,
            undefined: 0,
            idle_modifier: 63,
            undefined_drivers: 0,
            undefined_requests: [0; 4],
            undefined_grants: [0; 4],
            requests: [0; 4],
            grants: [0; 4],
            ports: [PortLines {
                port,
                idle: u32::MAX,
                undefined_offset: 0,
                undefined_write: false,
            }; SLOTS],
            changed_ports: 0,
            has_busy: false,
        }
    }

    /// Notes whether the dump has BBSY* of the bus; else no slot drives it where it is high.
    pub(crate) fn set_has_busy(&mut self, has_busy: bool)
        ensures { self.new ≡ record self.old { has_busy = has_busy } }
    {
        self.has_busy = has_busy;
    }

    /// Returns the sample of these lines at a time.
    pub fn sample(&self, time: u64) -> Sample
        ensures { result ≡ sample_of self.now time }
    {
        let slots = self.undefined_drivers
            | any_of(&self.undefined_requests)
            | any_of(&self.undefined_grants);
        Sample {
            time,
            undefined: self.undefined | slots != 0,
            busy: if self.has_busy {
                self.sample.busy
            } else {
                self.sample.drivers == 0
            },
            requests: any_of(&self.requests),
            grants: any_of(&self.grants),
            ..self.sample
        }
    }

    /// Returns the lines of a slot's local port, if there is such a slot.
    pub fn port(&self, slot: u8) -> Option<Port>
        ensures { result ≡ port_in self.now slot }
    {
        let lines = self.ports.get(usize::from(slot).wrapping_sub(1))?;
        Some(lines.port)
    }

    /// Returns the first control line that is undefined, if one is.
    pub fn undefined_line(&self) -> Option<ControlLine>
        ensures { result ≡ undefined_line self.now }
    {
        let bus = self.undefined;
        first_marked(&[
            (ControlLine::AddressStrobe, bus & ADDRESS_STROBE),
            (ControlLine::UpperStrobe, bus & UPPER_STROBE),
            (ControlLine::LowerStrobe, bus & LOWER_STROBE),
            (ControlLine::Acknowledge, bus & ACKNOWLEDGE),
            (ControlLine::BusError, bus & BUS_ERROR),
            (
                ControlLine::InterruptAcknowledge,
                bus & INTERRUPT_ACKNOWLEDGE,
            ),
            (ControlLine::Busy, bus & BUSY),
            (ControlLine::SlotBusy, self.undefined_drivers),
            (ControlLine::SlotRequest, any_of(&self.undefined_requests)),
            (ControlLine::SlotGrant, any_of(&self.undefined_grants)),
        ])
    }

    /// Returns the slots whose ports have changed since the last call.
    pub(crate) fn take_changed_ports(&mut self) -> u32
        ensures slots { result ≡ self.old.changed_ports }
        ensures none { self.new ≡ without_changes self.old }
    {
        let changed = self.changed_ports;
        self.changed_ports = 0;
        changed
    }

    /// Takes a change of a variable.
    pub(crate) fn change(&mut self, mapped: &Mapped, bits: &Bits)
        ensures { self.new ≡ bus_after self.old mapped.now bits.now }
    {
        let change = Change::of(mapped, bits);
        match mapped.group {
            Group::AddressStrobe => {
                self.sample.address_strobe = self.control(ADDRESS_STROBE, change);
            }
            Group::UpperStrobe => self.sample.ds1 = self.control(UPPER_STROBE, change),
            Group::LowerStrobe => self.sample.ds0 = self.control(LOWER_STROBE, change),
            Group::Acknowledge => self.sample.dtack = self.control(ACKNOWLEDGE, change),
            Group::BusError => self.sample.berr = self.control(BUS_ERROR, change),
            Group::InterruptAcknowledge => {
                self.sample.iack = self.control(INTERRUPT_ACKNOWLEDGE, change);
            }
            Group::Busy => self.sample.busy = self.control(BUSY, change),
            Group::Write => {
                self.sample.write_undefined = change.is_undefined() || change.free != 0;
                self.sample.write = change.is_high() || change.is_undefined();
            }
            Group::Modifier => {
                self.modifier(change);
            }
            Group::LongWord => self.lines(change, LONG_WORD, 32),
            Group::Address => self.lines(change, !LONG_WORD, 32),
            Group::Data => self.lines(change, u64::MAX, 0),
            _ => self.slot_change(mapped.group, change),
        }
    }

    /// The level of a control line after a change.
    fn control(&mut self, line: u32, change: Change) -> bool
        ensures level { result ≡ level_after change }
        ensures undefined { self.new ≡ record self.old { undefined = undefined_after change line self.old.undefined } }
    {
        if change.is_undefined() {
            self.undefined |= line;
        } else {
            self.undefined &= !line;
        }
        change.is_high() || change.is_undefined()
    }

    /// AM5 to AM0 after a change.
    fn modifier(&mut self, change: Change)
        ensures { self.new ≡ after_change self.old Modifier change }
    {
        self.idle_modifier = change.idle_in(self.idle_modifier);
        let code = change.in_place(u32::from(self.sample.am));
        self.sample.am = (code & 63) as u8;
        self.sample.am_undefined = self.idle_modifier != 0;
    }

    /// The address, LWORD* or the data lines after a change, of which those of `own` are meant.
    fn lines(&mut self, change: Change, own: u64, place: u32)
        ensures { self.new ≡ showing self.old (sample_lines change own place self.old.sample) }
    {
        let mask = u64::from(change.mask).wrapping_shl(place) & own;
        let ones = u64::from(change.ones).wrapping_shl(place) & own;
        let idle = u64::from(change.free | change.undefined).wrapping_shl(place) & own;
        self.sample.lines = self.sample.lines & !mask | ones;
        self.sample.lines_undefined = self.sample.lines_undefined & !mask | idle;
    }

    /// The lines of a slot after a change.
    fn slot_change(&mut self, group: Group, change: Change)
        ensures { self.new ≡ slot_after self.old group change }
    {
        let low = change.mask & !change.ones & !change.free & !change.undefined;
        match group {
            Group::SlotBusy(slot) => {
                self.undefined_drivers = with_slot(
                    self.undefined_drivers,
                    slot,
                    change.is_undefined(),
                );
                self.sample.drivers = with_slot(self.sample.drivers, slot, low != 0);
            }
            Group::SlotRequest(slot) => {
                self.requests = level_sets(self.requests, change, low, slot);
                self.undefined_requests = level_sets(
                    self.undefined_requests,
                    change,
                    change.undefined,
                    slot,
                );
            }
            Group::SlotGrant(slot) => {
                self.grants = level_sets(self.grants, change, low, slot);
                self.undefined_grants = level_sets(
                    self.undefined_grants,
                    change,
                    change.undefined,
                    slot,
                );
            }
            Group::PortWrite(slot)
            | Group::PortOffset(slot)
            | Group::PortData(slot)
            | Group::PortDone(slot) => {
                self.port_change(slot, group, change);
            }
            _ => {}
        }
    }

    /// The lines of a slot's local port after a change.
    fn port_change(&mut self, slot: u8, group: Group, change: Change)
        ensures { self.new ≡ port_changed self.old slot group change }
    {
        self.changed_ports = with_slot(self.changed_ports, slot, true);
        if 1 <= slot && usize::from(slot) <= SLOTS {
            let place = usize::from(slot - 1);
            let lines = self.ports[place];
            self.ports[place] = lines.changed(group, change);
        }
    }
}

impl PortLines {
    /// The lines of a local port after a change. Its lines are low where nothing drives them.
    fn changed(self, group: Group, change: Change) -> PortLines
        ensures { result ≡ port_after self group change }
    {
        let mut after = self;
        match group {
            Group::PortWrite(_) => {
                after.port.write = change.ones != 0;
                after.undefined_write = change.free | change.undefined != 0;
            }
            Group::PortOffset(_) => {
                after.port.offset = change.in_place(self.port.offset);
                after.undefined_offset = change.idle_in(self.undefined_offset);
            }
            Group::PortData(_) => {
                after.port.data = change.in_place(self.port.data);
                after.idle = change.idle_in(self.idle);
                after.port.lanes = defined_lanes(after.idle);
            }
            Group::PortDone(_) => after.port.done = change.ones != 0,
            _ => {}
        }
        after.port.undefined = after.undefined_write || after.undefined_offset != 0;
        after
    }
}

/// The lane of which each line, from a place on, is driven, as a bit.
fn defined_lane(idle: u32, place: u32, lane: u8) -> u8
    ensures { result ≡ defined_lane idle place lane }
{
    if idle.wrapping_shr(place) & 255 == 0 {
        lane
    } else {
        0
    }
}

/// The lanes of which each line is driven, from D07 to D00 up.
fn defined_lanes(idle: u32) -> u8
    ensures { result ≡ defined_lanes idle }
{
    defined_lane(idle, 0, 1)
        | defined_lane(idle, 8, 2)
        | defined_lane(idle, 16, 4)
        | defined_lane(idle, 24, 8)
}
