//! A use of `vme_memory`.
ghost use Rattle.std.specs.Prelude.{◌≡◌, IfOk};
ghost use Rattle.vme_memory.specs.Boards.{zeros};

use std::alloc::Global;
use vme_memory::{ByteMemory, Class, MemoryFault, Width8To32};

/// Returns the zeroed memory of a board that answers every cycle.
pub fn full_board(alloc: Global, size: u32) -> Result<ByteMemory, MemoryFault>
    ensures { IfOk result (λ board. board.bytes ≡ zeros size) }
{
    let class = Class {
        width: Width8To32::D32,
        uat: true,
        blt: true,
        rmw: true,
    };
    ByteMemory::new(alloc, size, class)
}
