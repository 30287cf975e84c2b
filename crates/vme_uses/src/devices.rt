//! A use of `vme_io`.
ghost use Rattle.std.specs.Prelude.{OnOk, codes};
ghost use Rattle.std.specs.Io.KnownBytes.{Appends};

use vme_io::{Failed, Sink, write_all};

/// Writes a line to any sink.
pub fn write_done<W: Sink>(sink: &mut W) -> Result<(), Failed>
    ensures { OnOk result (Appends (W.contents sink.old) (W.contents sink.new) (codes "done\n")) }
{
    write_all(sink, b"done\n")
}
