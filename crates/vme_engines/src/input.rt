//! The whole input of an engine.
ghost use Rattle.std.specs.Prelude.{◌≡◌, ◌<◌, ◌≤◌, ◌^◌, Err, false, length, vec_len, IfOk, IfErr, IfSome};
ghost use Rattle.vme_engines.specs.Faults.{IsInputFault, ReadsWithin, is_read_failure};

use crate::fault::ProgramFault;
use std::alloc::{AllocError, Global};
use vme_io::Source;

/// The greatest number of bytes that one call of the reader returns.
const READ_SIZE: usize = 16_384;

/// The size in bytes of the block that `let_heap_grow` allocates.
const BLOCK_SIZE: usize = 2_097_152;

/// Reads all bytes of a reader, to the end or to one byte past `limit`, which is below 2^32.
///
/// If the reader has no byte model, only the fault clauses hold and the length is within `limit`.
///
/// # Errors
///
/// `Read`: the reader failed. `TooLong`: there are more than `limit` bytes. `Memory`: an allocation
/// failed.
pub fn read_input<R: Source>(
    alloc: Global,
    reader: &mut R,
    limit: usize,
) -> Result<Vec<u8>, ProgramFault>
    requires unmarked { R.is_marked reader.old ≡ false }
    requires limit { limit < 2 ^ 32 }
    ensures whole { IfOk result (λ input.
        IfSome (R.remaining reader.old) (λ bytes. bytes ≡ input.items)) }
    ensures within { IfOk result (λ input. vec_len input ≤ limit) }
    ensures limit { ReadsWithin limit (R.remaining reader.old) (R.remaining reader.new) result }
    ensures read { R.is_marked reader.new ≡ is_read_failure result }
    ensures faults { IfErr result IsInputFault }
{
    let_heap_grow(alloc);
    let mut input = Vec::new(alloc);
    let mut chunk = [0; READ_SIZE];
    loop {
        let most = READ_SIZE.min(limit + 1 - input.len());
        let buffer = &mut chunk[..most];
        let Ok(count) = reader.read(buffer) else {
            return Err(ProgramFault::Read);
        };
        if count == 0 {
            return Ok(input);
        }
        input.extend_from_slice(buffer.split_at(count).0)?;
        if limit < input.len() {
            return Err(ProgramFault::TooLong);
        }
    }
}

/// Allocates a block and frees it. After that glibc allocates blocks of up to its size on the heap,
/// and not each by a mapping of its own, so the memory of the input is used again for what is made
/// of it: fewer pages are touched for the first time. If the allocation fails, nothing changes.
fn let_heap_grow(alloc: Global) {
    let _block: Result<Vec<u8>, AllocError> = Vec::with_capacity(alloc, BLOCK_SIZE);
}
