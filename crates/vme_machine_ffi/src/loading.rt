//! The opening of a machine by a configuration file.
ghost use Rattle.std.specs.Prelude.{◌≡◌, ◌≢◌, map, IfOk};
ghost use Rattle.vme_c_types.specs.Results.{ok, bad_call};
ghost use Rattle.vme_machine_ffi.specs.Closings.{written_over};
ghost use Rattle.vme_machine_ffi.specs.Boards.{board_struct};
ghost use Rattle.vme_machine_ffi.specs.Files.{fault_number, script_number, reported, bad_script, IsRefusal, Refuses, HasMoreBoards, HasLoaded};

use crate::board::{VmeBoard, board_struct, kind_number};
use crate::handle::VmeProcessor;
use crate::opening::open_boards;
use crate::results::BAD_STATE;
use std::alloc::{AllocError, Global};
use vme_c_types::{BAD_CALL, NO_MEMORY, OK};
use vme_file_boards::{FileBoards, boards_in};
use vme_script::{BoardConfig, ConfigFault, LineFault, ScriptRefusal};

/// The line of a script of more than 1,000 lines that is refused.
const FIRST_LINE_TOO_MANY: u16 = 1001;

/// What a file says of its machine, or where its script is refused.
#[repr(C)]
#[derive(Clone, Copy)]
pub struct VmeLoaded {
    /// The number of boards, once they are opened.
    pub count: usize,
    /// The slot of the board whose script is refused.
    pub slot: u16,
    /// The refused line of the script, from 1.
    pub line: u16,
    /// The kind of arbiter, once the boards are opened.
    pub arbiter: u8,
    /// The refusal of the line: 1 to 9 for S1 to S9.
    pub script: u8,
}

/// The number of the refusal of a line, 1 to 9 for S1 to S9.
fn script_number(refusal: ScriptRefusal) -> u8
    ensures { result ≡ script_number refusal }
{
    match refusal {
        ScriptRefusal::TooManyLines => 8,
        ScriptRefusal::BadLine { fault, .. } => match fault {
            LineFault::LineTooLong => 1,
            LineFault::UnknownWord => 2,
            LineFault::WordCount => 3,
            LineFault::BadCode => 4,
            LineFault::BadAddress => 5,
            LineFault::BadNumber => 6,
            LineFault::BadBytes => 7,
            LineFault::MailboxBytes => 9,
        },
    }
}

/// The number of a refusal of a file: C1 to C14, or a failed allocation.
fn fault_number(fault: ConfigFault) -> u8
    ensures { result ≡ fault_number fault }
{
    match fault {
        ConfigFault::Overlap => 0x11,
        ConfigFault::OutsideSpace => 0x12,
        ConfigFault::Misaligned => 0x13,
        ConfigFault::TooMany => 0x14,
        ConfigFault::BadSize => 0x15,
        ConfigFault::NotToml => 0x16,
        ConfigFault::BadKey => 0x17,
        ConfigFault::BadSlot => 0x18,
        ConfigFault::BadLevel => 0x19,
        ConfigFault::BadWord => 0x1a,
        ConfigFault::NoBoard => 0x1b,
        ConfigFault::BadSchedule => 0x1c,
        ConfigFault::BadMailbox => 0x1d,
        ConfigFault::BadScript { .. } => 0x1e,
        ConfigFault::OutOfMemory => NO_MEMORY,
    }
}

/// Writes where a script is refused, if one is, and returns the number of the refusal.
fn refuse(fault: ConfigFault, found: &mut VmeLoaded) -> u8
    ensures number { result ≡ fault_number fault }
    ensures found { found.new ≡ reported fault found.old }
{
    if let ConfigFault::BadScript { slot, refusal } = fault {
        let line = match refusal {
            ScriptRefusal::TooManyLines => FIRST_LINE_TOO_MANY,
            ScriptRefusal::BadLine { number, .. } => number,
        };
        *found = VmeLoaded {
            count: 0,
            slot,
            line,
            arbiter: 0,
            script: script_number(refusal),
        };
    }
    fault_number(fault)
}

/// Returns the structs of the boards of a file, in order.
///
/// # Errors
/// `AllocError` if an allocation fails.
fn structs_of(alloc: Global, boards: &[BoardConfig]) -> Result<Vec<VmeBoard>, AllocError>
    ensures { IfOk result (λ r. r.items ≡ map board_struct boards.now) }
{
    let mut structs = Vec::with_capacity(alloc, boards.len())?;
    for i in 0..boards.len() {
        structs.push_reserved(board_struct(&boards[i]));
    }
    Ok(structs)
}

/// Writes structs to the head of a slice, as many as it has places for.
fn write_boards(structs: &[VmeBoard], boards: &mut [VmeBoard])
    ensures { boards.new ≡ written_over structs.now boards.old }
{
    let (count, places) = (structs.len(), boards.len());
    if places < count {
        boards.copy_from_slice(&structs[..places]);
    } else {
        boards[..count].copy_from_slice(structs);
    }
}

/// Opens a machine with the boards and the arbiter of a configuration file, which is checked wholly,
/// as `vme check` does; its scripts are not run, and its mailboxes are zeros. Writes a processor for
/// each board to the first structs, which must be empty, in the order of slots; the boards to the
/// head of `boards`, as many as there are places for; and to `found` their number and the kind of
/// arbiter. Returns `OK`; C1 to C14, the first refusal of the file, and writes to `found` where a
/// script is refused (C14); `BAD_CALL` if there are fewer structs than boards; or `NO_MEMORY`. It
/// writes nothing else.
#[unsafe(no_mangle)]
pub extern "C" fn vme_machine_load(
    alloc: Global,
    file: &[u8],
    boards: &mut [VmeBoard],
    out: &mut [VmeProcessor],
    found: &mut VmeLoaded,
) -> u8
    ensures opened { result ≡ ok → HasLoaded file.now boards.old boards.new out.old out.new found.new }
    ensures refused { IsRefusal result → Refuses file.now found.old found.new result }
    ensures few { result ≡ bad_call → HasMoreBoards file.now out.old }
    ensures failed { result ≢ ok → (boards.new ≡ boards.old) × (out.new ≡ out.old) }
    ensures unreported { result ≢ ok → result ≢ bad_script → found.new ≡ found.old }
{
    let FileBoards {
        boards: configured,
        arbiter,
    } = match boards_in(alloc, file) {
        Ok(opens) => opens,
        Err(fault) => return refuse(fault, found),
    };
    let Ok(structs) = structs_of(alloc, configured.as_slice()) else {
        return NO_MEMORY;
    };
    let count = structs.len();
    if out.len() < count {
        return BAD_CALL;
    }
    let kind = kind_number(arbiter);
    match open_boards(alloc, out, structs.as_slice(), kind) {
        OK => {}
        NO_MEMORY => return NO_MEMORY,
        _ => return BAD_STATE,
    }
    write_boards(structs.as_slice(), boards);
    *found = VmeLoaded {
        count,
        slot: 0,
        line: 0,
        arbiter: kind,
        script: 0,
    };
    OK
}
