//! A use of `vme_engines`.
ghost use Rattle.std.specs.Prelude.{◌≡◌, false, IfOk};
ghost use Rattle.vme_engines.specs.Cycles.{cycles_status};

use std::alloc::Global;
use vme_engines::{ProgramFault, Status, cycles_engine};
use vme_io::{RoomSink, Sink, SliceSource};

/// Performs the cycles of request lines, writes their text to a sink, and returns the status.
pub fn cycles_of(alloc: Global, lines: &[u8], sink: &mut RoomSink) -> Result<Status, ProgramFault>
    requires { ⟦<RoomSink as Sink>⟧.is_marked sink.old ≡ false }
    ensures { IfOk result (λ status. status ≡ cycles_status lines.now) }
{
    let mut source = SliceSource::new(lines, usize::MAX, usize::MAX);
    cycles_engine(alloc, &mut source, sink)
}
