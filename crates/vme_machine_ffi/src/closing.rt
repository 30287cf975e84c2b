//! The end of a machine.
ghost use Rattle.std.specs.Prelude.{◌≡◌, ◌≢◌};
ghost use Rattle.vme_processor.specs.Processors.{Machine};
ghost use Rattle.vme_machine_ffi.specs.Closings.{AreOf, AreOfOne, HasSettled};
ghost use Rattle.vme_c_types.specs.Results.{ok, bad_call, no_memory};
ghost use Rattle.vme_machine_ffi.specs.Results.{closed};
ghost use Rattle.vme_machine_ffi.specs.Structs.{processors_in};

use crate::buffers::Buffers;
use crate::handle::VmeProcessor;
use crate::results::{BAD_STATE, CLOSED};
use crate::settled::{write_bytes, write_counts};
use crate::structs::{put_all, take_all, unbox};
use std::alloc::Global;
use vme_c_types::{BAD_CALL, NO_MEMORY, OK};
use vme_processor::{are_all_of_one, close};

/// Closes a machine with all its processors, and leaves the structs empty. Writes the number of
/// steps of each board, in order, and of the arbiter to the head of `steps`, and the bytes of all
/// boards, one after the other, to the head of `bytes`: as many as there are places for. Returns
/// `OK`. Otherwise returns `CLOSED` if a struct is empty, `BAD_CALL` if these are not all processors
/// of one machine, each once, or `NO_MEMORY`; the structs keep their processors, and nothing is
/// written.
#[unsafe(no_mangle)]
pub extern "C" fn vme_machine_close(
    alloc: Global,
    all: &mut [VmeProcessor],
    steps: &mut [u64],
    bytes: &mut [u8],
) -> u8
    requires { AreOfOne all.old }
    ensures settled { (machine : Machine) → AreOf machine all.old → result ≡ ok →
        HasSettled machine all.old steps.old steps.new bytes.old bytes.new }
    ensures failed { result ≢ ok → (steps.new ≡ steps.old) × (bytes.new ≡ bytes.old) }
    ensures no_memory { result ≡ no_memory → processors_in all.new ≡ processors_in all.old }
    ensures closed { result ≡ closed → processors_in all.new ≡ processors_in all.old }
    ensures bad_call { result ≡ bad_call → processors_in all.new ≡ processors_in all.old }
{
    let Ok(buffers) = Buffers::new(alloc, all.len()) else {
        return NO_MEMORY;
    };
    let Buffers {
        mut boxes,
        mut processors,
        members,
        passes,
        mut homes,
    } = buffers;
    if !take_all(alloc, all, &mut boxes) {
        put_all(boxes, all);
        return CLOSED;
    }
    if !are_all_of_one(boxes.as_slice()) {
        put_all(boxes, all);
        return BAD_CALL;
    }
    unbox(boxes, &mut processors);
    match close(processors, members, passes, &mut homes) {
        Ok(()) => {
            write_counts(homes.as_slice(), steps);
            write_bytes(homes.as_slice(), bytes);
            OK
        }
        Err(_) => BAD_STATE,
    }
}
