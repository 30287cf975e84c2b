//! The words of a memory.
ghost use Rattle.std.specs.Prelude.{◌≡◌, ◌+◌, ◌*◌, ◌≤◌, length, slice_range};
ghost use Rattle.vme_memory.specs.Boards.{bytes_after_write};
ghost use Rattle.vme_memory.specs.Words.{word_bytes};

use vme_lanes::Datum;
use vme_memory::{BoardCmd, ByteMemory, bytes_of, word_of};

/// Returns a word of a memory, by its index.
#[tactic(auto, using(crate::proofs::Memories::in_size, crate::proofs::Memories::row_word))]
pub(crate) fn word_in(memory: &ByteMemory, at: u32) -> u32
    requires { 4 * at + 4 ≤ length memory.now.bytes }
    ensures { word_bytes result ≡ slice_range memory.now.bytes (4 * at) (4 * at + 4) }
{
    let _size = memory.size();
    let row = memory.row(4 * at);
    match row.as_slice() {
        [a, b, c, d, ..] => word_of([*a, *b, *c, *d]),
        _ => unreachable!(),
    }
}

/// Writes a word of a memory, by its index.
#[tactic(auto, using(crate::proofs::Memories::in_size, crate::proofs::Memories::word_put))]
pub(crate) fn put_word(memory: &mut ByteMemory, at: u32, word: u32)
    requires { 4 * at + 4 ≤ length memory.old.bytes }
    ensures { memory.new ≡ record memory.old {
      bytes = bytes_after_write memory.old.bytes (4 * at) (word_bytes word);
    } }
{
    let _size = memory.size();
    let bytes = Datum::try_from(bytes_of(word).as_slice()).unwrap();
    memory.local(&BoardCmd::LocalWrite {
        offset: 4 * at,
        bytes,
    });
}
