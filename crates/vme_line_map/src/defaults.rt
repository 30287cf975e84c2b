//! The names that `bendrika trace` writes.
ghost use Rattle.std.specs.Prelude.{◌≡◌, ◌∷◌, [], IfOk, OnOk, map as map_list};
ghost use Rattle.vme_line_map.specs.Defaults.{plain, bus_row, slot_row, slot_variables, with_fitting, default_map};

use crate::group::Group;
use crate::map::{LineMap, Place, Wanted};
use std::alloc::{AllocError, Global};
use std::fmt::Write;

/// The lines of the bus, with where their variables begin.
static BUS: [(&str, Group, Place); 17] = [
    ("as_n", Group::AddressStrobe, Place::From(0)),
    ("ds1_n", Group::UpperStrobe, Place::From(0)),
    ("ds0_n", Group::LowerStrobe, Place::From(0)),
    ("dtack_n", Group::Acknowledge, Place::From(0)),
    ("berr_n", Group::BusError, Place::From(0)),
    ("iack_n", Group::InterruptAcknowledge, Place::From(0)),
    ("bbsy_n", Group::Busy, Place::From(0)),
    ("write_n", Group::Write, Place::From(0)),
    ("lword_n", Group::LongWord, Place::From(0)),
    ("am", Group::Modifier, Place::Ranged(0)),
    ("a", Group::Address, Place::Ranged(0)),
    ("a01", Group::Address, Place::From(1)),
    ("d", Group::Data, Place::Ranged(0)),
    ("d31_24", Group::Data, Place::From(24)),
    ("d23_16", Group::Data, Place::From(16)),
    ("d15_08", Group::Data, Place::From(8)),
    ("d07_00", Group::Data, Place::From(0)),
];

/// Returns the variables of `bendrika trace`, with those of these slots.
///
/// # Errors
///
/// An allocation failed.
pub fn default_lines(alloc: Global, slots: &[u8]) -> Result<LineMap, AllocError>
    ensures { IfOk result (λ map. map ≡ default_map slots.now) }
{
    let mut map = LineMap::new(alloc, false);
    add_bus(&mut map, &BUS)?;
    for slot in slots {
        add_slot(alloc, &mut map, *slot)?;
    }
    Ok(map)
}

/// Adds the variables of the lines of the bus.
fn add_bus(map: &mut LineMap, rows: &[(&str, Group, Place)]) -> Result<(), AllocError>
    ensures { OnOk result (map.new ≡ with_fitting map.old (map_list bus_row rows.now)) }
{
    for (name, group, place) in rows {
        add(map, name, *group, *place)?;
    }
    Ok(())
}

/// Adds a variable. A map of 21 slots is not full.
fn add(map: &mut LineMap, name: &str, group: Group, place: Place) -> Result<(), AllocError>
    ensures { OnOk result (map.new ≡ with_fitting map.old (plain name.now group place ∷ [])) }
{
    let wanted = Wanted {
        name: name.as_bytes(),
        group,
        place,
        is_inverted: false,
    };
    let _ = map.add(&wanted)?;
    Ok(())
}

/// Adds the variables of a slot.
fn add_slot(alloc: Global, map: &mut LineMap, slot: u8) -> Result<(), AllocError>
    ensures { OnOk result (map.new ≡ with_fitting map.old (slot_variables slot)) }
{
    let rows = [
        ("bbsy_n", Group::SlotBusy(slot), 0),
        ("br_n", Group::SlotRequest(slot), 0),
        ("bg3in_n", Group::SlotGrant(slot), 3),
        ("bg2in_n", Group::SlotGrant(slot), 2),
        ("bg1in_n", Group::SlotGrant(slot), 1),
        ("bg0in_n", Group::SlotGrant(slot), 0),
        ("lp_we", Group::PortWrite(slot), 0),
        ("lp_a", Group::PortOffset(slot), 0),
        ("lp_ack", Group::PortDone(slot), 0),
        ("lp_d", Group::PortData(slot), 0),
        ("lp_d31_24", Group::PortData(slot), 24),
        ("lp_d23_16", Group::PortData(slot), 16),
        ("lp_d15_08", Group::PortData(slot), 8),
        ("lp_d07_00", Group::PortData(slot), 0),
    ];
    add_rows(alloc, map, slot, &rows)
}

/// Adds some variables of a slot.
fn add_rows(
    alloc: Global,
    map: &mut LineMap,
    slot: u8,
    rows: &[(&str, Group, u8)],
) -> Result<(), AllocError>
    ensures { OnOk result (map.new ≡ with_fitting map.old (map_list (slot_row slot) rows.now)) }
{
    for (name, group, first) in rows {
        let mut text = String::new(alloc);
        write!(text, "s{slot}_{name}")?;
        add(map, text.as_str(), *group, Place::From(*first))?;
    }
    Ok(())
}
