//! A map of lines as a file in TOML.
ghost use Rattle.std.specs.Prelude.{◌≡◌, Ok, Err, MatchResult};
ghost use Rattle.toml.specs.View.{view, table_view};
ghost use Rattle.vme_line_map.specs.Documents.{Builds, ReadsMap, bus_lines, each_member, key_fault, lines_named, members_at, padded, slot_lines, slot_named, with_key, with_section, with_slot};

use crate::fault::{LinesFault, LinesProblem};
use crate::group::Group;
use crate::map::LineMap;
use crate::pattern::{add_pattern, small_number};
use std::alloc::Global;
use toml::{Table, Value};
use vme_config_toml::{DocumentFault, table_of};

/// Reads a map: `[lines]` with the lines of the bus, and `[slot.N]` with those of a slot.
///
/// # Errors
///
/// Why the text is no map, or an allocation failed.
pub fn read_lines(alloc: Global, text: &[u8]) -> Result<LineMap, LinesFault>
    ensures { ReadsMap text.now result }
{
    let table = match table_of(alloc, text) {
        Ok(table) => table,
        Err(DocumentFault::OutOfMemory) => return Err(LinesFault::Memory),
        Err(_) => return Err(LinesFault::NotToml),
    };
    let mut map = LineMap::new(alloc, true);
    add_sections(alloc, &mut map, &table)?;
    Ok(map)
}

/// Adds the variables of a document.
fn add_sections(alloc: Global, map: &mut LineMap, table: &Table) -> Result<(), LinesFault>
    ensures { Builds result map.new (each_member with_section map.old (table_view table.now)) }
{
    for (name, value) in table {
        add_section(alloc, map, name.as_str(), value)?;
    }
    Ok(())
}

/// Adds the variables of `[lines]`, or of the slots.
fn add_section(
    alloc: Global,
    map: &mut LineMap,
    name: &str,
    value: &Value,
) -> Result<(), LinesFault>
    ensures { Builds result map.new (with_section map.old name.now (view value.now)) }
{
    match name {
        "lines" => add_keys(alloc, map, 0, table_in(0, name, value)?),
        "slot" => add_slots(alloc, map, table_in(0, name, value)?),
        _ => Err(fault(0, name, LinesProblem::UnknownKey)),
    }
}

/// Adds the variables of each slot.
fn add_slots(alloc: Global, map: &mut LineMap, table: &Table) -> Result<(), LinesFault>
    ensures { Builds result map.new (each_member with_slot map.old (table_view table.now)) }
{
    for (name, value) in table {
        add_slot(alloc, map, name.as_str(), value)?;
    }
    Ok(())
}

/// Adds the variables of `[slot.N]`.
fn add_slot(alloc: Global, map: &mut LineMap, name: &str, value: &Value) -> Result<(), LinesFault>
    ensures { Builds result map.new (with_slot map.old name.now (view value.now)) }
{
    let Some(slot) = slot_of(name) else {
        return Err(fault(0, name, LinesProblem::NotSlot));
    };
    add_keys(alloc, map, slot, table_in(slot, "", value)?)
}

/// Adds the variables of each key of a slot's table, or for slot 0 of `[lines]`.
fn add_keys(alloc: Global, map: &mut LineMap, slot: u8, table: &Table) -> Result<(), LinesFault>
    ensures { Builds result map.new (each_member (with_key slot) map.old (table_view table.now)) }
{
    for (name, value) in table {
        add_key(alloc, map, slot, name.as_str(), value)?;
    }
    Ok(())
}

/// Adds the variables of a key.
fn add_key(
    alloc: Global,
    map: &mut LineMap,
    slot: u8,
    name: &str,
    value: &Value,
) -> Result<(), LinesFault>
    ensures { Builds result map.new (with_key slot map.old name.now (view value.now)) }
{
    let Some((group, first)) = lines_of(slot, name) else {
        return Err(fault(slot, name, LinesProblem::UnknownKey));
    };
    let Some(text) = value.as_str() else {
        return Err(fault(slot, name, LinesProblem::NotText));
    };
    match add_pattern(alloc, map, group, first, text)? {
        Ok(()) => Ok(()),
        Err(problem) => Err(fault(slot, name, problem)),
    }
}

/// The table of a value.
fn table_in<'a>(slot: u8, name: &str, value: &'a Value) -> Result<&'a Table, LinesFault>
    ensures { MatchResult result (λ table. members_at slot name.now (view value.now) ≡ Ok (table_view table.now))
        (λ fault. members_at slot name.now (view value.now) ≡ Err fault) }
{
    match value.as_table() {
        Some(table) => Ok(table),
        None => Err(fault(slot, name, LinesProblem::NotTable)),
    }
}

/// The fault of a key.
fn fault(slot: u8, name: &str, problem: LinesProblem) -> LinesFault
    ensures { result ≡ key_fault slot name.now problem }
{
    LinesFault::Key {
        slot,
        key: first_bytes(name.as_bytes()),
        problem,
    }
}

/// The first bytes of a name, with zeros after a short one.
fn first_bytes(name: &[u8]) -> [u8; 16]
    ensures { result ≡ padded 16 name.now }
{
    let mut first = [0u8; 16];
    let count = name.len().min(first.len());
    first[..count].copy_from_slice(&name[..count]);
    first
}

/// The slot that a name writes.
fn slot_of(name: &str) -> Option<u8>
    ensures { result ≡ slot_named name.now }
{
    match small_number(name) {
        Some(slot) if 1 <= slot && slot <= 21 => Some(slot),
        _ => None,
    }
}

/// The lines of a key of a slot's table, or for slot 0 of `[lines]`, and the first of them.
#[tactic(auto, unfolding(crate::specs::Documents::lines_named))]
fn lines_of(slot: u8, name: &str) -> Option<(Group, u8)>
    ensures { result ≡ lines_named slot name.now }
{
    if slot == 0 {
        bus_group(name)
    } else {
        slot_group(slot, name)
    }
}

/// The lines of a key of `[lines]`, and the first of them.
#[tactic(auto, unfolding(crate::specs::Documents::bus_lines))]
fn bus_group(key: &str) -> Option<(Group, u8)>
    ensures { result ≡ bus_lines key.now }
{
    match key {
        "as" => Some((Group::AddressStrobe, 0)),
        "ds1" => Some((Group::UpperStrobe, 0)),
        "ds0" => Some((Group::LowerStrobe, 0)),
        "dtack" => Some((Group::Acknowledge, 0)),
        "berr" => Some((Group::BusError, 0)),
        "iack" => Some((Group::InterruptAcknowledge, 0)),
        "bbsy" => Some((Group::Busy, 0)),
        "write" => Some((Group::Write, 0)),
        "lword" => Some((Group::LongWord, 0)),
        "am" => Some((Group::Modifier, 0)),
        "a" => Some((Group::Address, 0)),
        "a01" => Some((Group::Address, 1)),
        "d" => Some((Group::Data, 0)),
        _ => None,
    }
}

/// The lines of a key of `[slot.N]`, and the first of them.
#[tactic(auto, unfolding(crate::specs::Documents::slot_lines))]
fn slot_group(slot: u8, key: &str) -> Option<(Group, u8)>
    ensures { result ≡ slot_lines slot key.now }
{
    match key {
        "bbsy" => Some((Group::SlotBusy(slot), 0)),
        "br" => Some((Group::SlotRequest(slot), 0)),
        "bgin" => Some((Group::SlotGrant(slot), 0)),
        "lp_we" => Some((Group::PortWrite(slot), 0)),
        "lp_a" => Some((Group::PortOffset(slot), 0)),
        "lp_d" => Some((Group::PortData(slot), 0)),
        "lp_ack" => Some((Group::PortDone(slot), 0)),
        _ => None,
    }
}
