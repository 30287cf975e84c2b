//! The opening of a machine.
ghost use Rattle.std.specs.Prelude.{◌≡◌, ◌≢◌, IfOk, IfErr, map};
ghost use Rattle.vme_c_types.specs.Boards.{entry_of};
ghost use Rattle.vme_machine_ffi.specs.Openings.{memory_of, place_of, AreOpened, HasOpened};
ghost use Rattle.vme_c_types.specs.Results.{ok};
ghost use Rattle.vme_machine_ffi.specs.Structs.{values_of};

use crate::board::VmeBoard;
use crate::handle::VmeProcessor;
use crate::structs::{boxed, put_all};
use std::alloc::{AllocError, Global};
use vme_c_types::{BAD_CALL, NO_MEMORY, OK, class_of, entry_of, kind_of, map_refusal_number};
use vme_decode::{AddressMap, Entry};
use vme_memory::{ByteMemory, MemoryFault};
use vme_processor::{OpenError, Place, Processor, open};

/// The greatest number of a slot.
const LAST_SLOT: u16 = 21;

/// The greatest number of a level.
const LAST_LEVEL: u8 = 3;

/// Whether the boards have ascending slots, from 1 to 21, and levels from 0 to 3.
fn are_placed(boards: &[VmeBoard]) -> bool {
    let mut before = 0;
    for board in boards {
        if board.slot <= before || board.slot > LAST_SLOT || board.level > LAST_LEVEL {
            return false;
        }
        before = board.slot;
    }
    true
}

/// Returns the entries of the boards, in order.
///
/// # Errors
/// `AllocError` if an allocation fails.
fn entries_of(alloc: Global, boards: &[VmeBoard]) -> Result<Vec<Entry>, AllocError>
    ensures { IfOk result (λ r. r.items ≡ map (λ board. entry_of board.entry) boards.now) }
{
    let mut entries = Vec::with_capacity(alloc, boards.len())?;
    for i in 0..boards.len() {
        entries.push_reserved(entry_of(&boards[i].entry));
    }
    Ok(entries)
}

/// Returns the places of the boards, in order.
///
/// # Errors
/// `AllocError` if an allocation fails.
fn places_of(alloc: Global, boards: &[VmeBoard]) -> Result<Vec<Place>, AllocError>
    ensures { IfOk result (λ r. r.items ≡ map place_of boards.now) }
{
    let mut places = Vec::with_capacity(alloc, boards.len())?;
    for i in 0..boards.len() {
        let (slot, level) = (boards[i].slot, boards[i].level);
        places.push_reserved(Place { slot, level });
    }
    Ok(places)
}

/// Returns the memories of the boards, in order; every byte is zero.
///
/// # Errors
/// `BadSize` if a size is not from 4 to 1,048,576 or not a multiple of four, and `OutOfMemory` if an
/// allocation fails.
fn memories_of(alloc: Global, boards: &[VmeBoard]) -> Result<Vec<ByteMemory>, MemoryFault>
    ensures { IfOk result (λ r. r.items ≡ map memory_of boards.now) }
{
    let Ok(mut memories) = Vec::with_capacity(alloc, boards.len()) else {
        return Err(MemoryFault::OutOfMemory);
    };
    for i in 0..boards.len() {
        let board = boards[i];
        let memory = ByteMemory::new(alloc, board.entry.size, class_of(&board.cls))?;
        memories.push_reserved(memory);
    }
    Ok(memories)
}

/// Returns the boxed processors of a machine of these boards, or the number of the reason why there
/// is none.
fn processors_of(
    alloc: Global,
    boards: &[VmeBoard],
    arbiter: u8,
) -> Result<Vec<Box<Processor, Global>>, u8>
    ensures opened { IfOk result (λ boxes. AreOpened boards.now arbiter (values_of boxes.items)) }
    ensures failed { IfErr result (λ number. number ≢ ok) }
{
    let Ok(entries) = entries_of(alloc, boards) else {
        return Err(NO_MEMORY);
    };
    let map = match AddressMap::new(alloc, entries.as_slice()) {
        Ok(map) => map,
        Err(fault) => return Err(map_refusal_number(fault)),
    };
    let Ok(places) = places_of(alloc, boards) else {
        return Err(NO_MEMORY);
    };
    let memories = match memories_of(alloc, boards) {
        Ok(memories) => memories,
        Err(MemoryFault::OutOfMemory) => return Err(NO_MEMORY),
        Err(MemoryFault::BadSize) => return Err(BAD_CALL),
    };
    let processors = match open(alloc, memories, kind_of(arbiter), map, places.as_slice()) {
        Ok(processors) => processors,
        Err(OpenError::OutOfMemory) => return Err(NO_MEMORY),
        Err(OpenError::BadCount) => return Err(BAD_CALL),
    };
    match boxed(alloc, processors) {
        Ok(boxes) => Ok(boxes),
        Err(_) => Err(NO_MEMORY),
    }
}

/// Opens a machine of these boards, and writes its processors to the first structs. Returns `OK`, or
/// the number of the reason why there is none, and writes nothing.
pub(crate) fn open_boards(
    alloc: Global,
    out: &mut [VmeProcessor],
    boards: &[VmeBoard],
    arbiter: u8,
) -> u8
    ensures opened { result ≡ ok → HasOpened boards.now arbiter out.old out.new }
    ensures failed { result ≢ ok → out.new ≡ out.old }
{
    let boxes = match processors_of(alloc, boards, arbiter) {
        Ok(boxes) => boxes,
        Err(number) => return number,
    };
    if boxes.len() > out.len() {
        return BAD_CALL;
    }
    put_all(boxes, out);
    OK
}

/// Opens a machine of these boards, whose memories are zero, and of a free bus with this kind of
/// arbiter. Writes a processor for each board to the first structs, which must be empty, in the
/// order of the boards. Returns `OK`; C1 to C4 for the address map; `BAD_CALL` if there is no board,
/// if there are fewer structs than boards, or for a slot, a level or a size that does not exist; or
/// `NO_MEMORY`. Unless it returns `OK` it writes nothing.
#[unsafe(no_mangle)]
pub extern "C" fn vme_machine_open(
    alloc: Global,
    boards: &[VmeBoard],
    arbiter: u8,
    out: &mut [VmeProcessor],
) -> u8
    ensures opened { result ≡ ok → HasOpened boards.now arbiter out.old out.new }
    ensures failed { result ≢ ok → out.new ≡ out.old }
{
    if out.len() < boards.len() || !are_placed(boards) {
        return BAD_CALL;
    }
    open_boards(alloc, out, boards, arbiter)
}
