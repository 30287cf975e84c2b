ghost use Rattle.std.specs.Prelude.{◌≡◌, IfOk};
ghost use Rattle.vme_port_array.specs.Arrays.{opening};
ghost use Rattle.vme_machine.specs.Members.{AreNew};
ghost use Rattle.vme_processor.specs.Processors.{Machine, objects_at_first, members_of, ArePlaced};

use crate::processor::Processor;
use std::alloc::{AllocError, Global};
use std::sync::Arc;
use std::sync::atomic::AtomicU64;
use vme_arbiter::{Arbiter, ArbiterKind};
use vme_bus_objects::BusObject;
use vme_decode::AddressMap;
use vme_machine::{Member, OpenFault};
use vme_memory::ByteMemory;

/// Returns the boards, in order, and the arbiter of a free bus after them.
fn objects(
    alloc: Global,
    memories: Vec<ByteMemory>,
    kind: ArbiterKind,
) -> Result<Vec<BusObject>, AllocError>
    ensures { IfOk result (λ r. r.items ≡ objects_at_first memories.items kind) }
{
    let mut objects = Vec::new(alloc);
    for memory in memories {
        objects.push(BusObject::Board(memory))?;
    }
    objects.push(BusObject::Arbiter(Arbiter::of(kind)))?;
    Ok(objects)
}

/// The place of a processor on the bus.
#[derive(Clone, Copy, Debug)]
pub struct Place {
    /// Its slot.
    pub slot: u16,
    /// The level on which the slot requests the bus.
    pub level: u8,
}

/// The reasons why a machine can't be opened.
#[derive(Debug, Drop)]
pub enum OpenError {
    /// An allocation failed.
    OutOfMemory,
    /// The number of boards is not 1 to 21, or there is not one place for each board.
    BadCount,
}

/// Opens a machine of these boards, their address map and an arbiter of a free bus, and returns a
/// processor for each board, in order, at the board's place.
///
/// # Errors
/// `BadCount` if the number of boards is not 1 to 21 or not that of places, and `OutOfMemory` if an
/// allocation fails. The boards are dropped.
pub fn open(
    alloc: Global,
    memories: Vec<ByteMemory>,
    kind: ArbiterKind,
    map: AddressMap,
    places: &[Place],
) -> Result<Vec<Processor>, OpenError>
    ensures new { IfOk result (λ ps. (machine : Machine) × (opening machine ≡ objects_at_first memories.items kind)
        × AreNew machine (members_of ps.items)) }
    ensures placed { IfOk result (λ ps. ArePlaced map places.now ps.items) }
{
    let boards = memories.len();
    if places.len() != boards {
        return Err(OpenError::BadCount);
    }
    let Ok(objects) = objects(alloc, memories, kind) else {
        return Err(OpenError::OutOfMemory);
    };
    let Ok(mark) = Arc::new(alloc, AtomicU64::new(0)) else {
        return Err(OpenError::OutOfMemory);
    };
    let Ok(map) = Arc::new(alloc, map) else {
        return Err(OpenError::OutOfMemory);
    };
    let members = match Member::open(alloc, objects, boards) {
        Ok(members) => members,
        Err(OpenFault::OutOfMemory) => return Err(OpenError::OutOfMemory),
        Err(OpenFault::BadCount) => return Err(OpenError::BadCount),
    };
    let mut processors = Vec::new(alloc);
    for member in members {
        let index = processors.len();
        if member.who() != index || member.objects() != boards + 1 || index >= boards {
            return Err(OpenError::BadCount);
        }
        let Place { slot, level } = places[index];
        let (Ok(mark), Ok(map)) = (Arc::try_clone(&mark), Arc::try_clone(&map)) else {
            return Err(OpenError::OutOfMemory);
        };
        let processor = Processor {
            member,
            boards,
            index,
            mark,
            map,
            slot,
            level,
            task: None,
        };
        let Ok(()) = processors.push(processor) else {
            return Err(OpenError::OutOfMemory);
        };
    }
    Ok(processors)
}
