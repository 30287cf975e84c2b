//! What C gets of the objects of a closed machine.
ghost use Rattle.std.specs.Prelude.{◌≡◌, ◌<◌, ◌≤◌, ◌+◌, length, get_or, IfSome, IfNone, IfOk, IfErr};
ghost use Rattle.vme_machine_ffi.specs.Closings.{bytes_in, bytes_of, counts_of, written_over};

use vme_bus_objects::BusObject;
use vme_port::Home;

/// Writes the number of steps of each object to the head of a slice, as many as it has places for.
pub(crate) fn write_counts(homes: &[Home<BusObject>], steps: &mut [u64])
    ensures { steps.new ≡ written_over (counts_of homes.now) steps.old }
{
    for i in 0..homes.len().min(steps.len()) {
        steps[i] = homes[i].count;
    }
}

/// Returns the byte of an object at a place, or how far the place is behind its bytes.
#[tactic(auto, using(crate::proofs::Written::present))]
fn byte_in(object: &BusObject, place: usize) -> Result<u8, usize>
    ensures found { IfOk result (λ byte. (place < length (bytes_in object.now))
        × (get_or (bytes_in object.now) place 0 ≡ byte)) }
    ensures behind { IfErr result (λ left. left + length (bytes_in object.now) ≡ place) }
{
    let BusObject::Board(memory) = object else {
        return Err(place);
    };
    let size = memory.size() as usize;
    if place >= size {
        return Err(place - size);
    }
    match memory.byte(place as u32) {
        Some(byte) => Ok(byte),
        None => Err(place),
    }
}

/// Returns a byte of all boards, one after the other, if there are so many.
fn byte_of(homes: &[Home<BusObject>], place: usize) -> Option<u8>
    ensures some { IfSome result (λ byte. (place < length (bytes_of homes.now))
        × (get_or (bytes_of homes.now) place 0 ≡ byte)) }
    ensures none { IfNone result (length (bytes_of homes.now) ≤ place) }
{
    let mut left = place;
    for i in 0..homes.len() {
        match byte_in(&homes[i].object, left) {
            Ok(byte) => return Some(byte),
            Err(behind) => left = behind,
        }
    }
    None
}

/// Writes the bytes of all boards, one after the other, to the head of a slice, as many as it has
/// places for.
pub(crate) fn write_bytes(homes: &[Home<BusObject>], bytes: &mut [u8])
    ensures { bytes.new ≡ written_over (bytes_of homes.now) bytes.old }
{
    for i in 0..bytes.len() {
        let Some(byte) = byte_of(homes, i) else {
            return;
        };
        bytes[i] = byte;
    }
}
