//! A use of `vme_line_task`.
ghost use Rattle.std.specs.Prelude.{◌≤◌, IfOk};
ghost use Rattle.vme_line_task.specs.ReadBuffers.{line_read_len};

use std::alloc::{AllocError, Global};
use vme_cycle::BlockBuffer;
use vme_line_task::line_read_len;
use vme_script::Line;

/// Returns a buffer for the bytes that a line's request reads over the bus.
pub fn buffer_for(alloc: Global, line: &Line) -> Result<BlockBuffer, AllocError>
    ensures { IfOk result (λ buffer. line_read_len line.now ≤ buffer.capacity) }
{
    BlockBuffer::with_capacity(alloc, line_read_len(line))
}
