ghost use Rattle.std.specs.Prelude.{◌≡◌, ℕ, ◌<◌, ◌≤◌, Bool, true, List, Option, length, take, IfOk, OnOk, OnErr};
ghost use Rattle.std.specs.Io.KnownBytes.{Keeps, Appends};
ghost use Rattle.vme_io.specs.Prefixes.{AppendsPrefix};

use crate::source::Failed;

/// A sink of bytes.
pub trait Sink {
    /// Whether a write has failed.
    ghost is_marked: { Self → Bool };

    /// The bytes that were written, or `None` for a sink without a byte model.
    ghost contents: { Self → Option (List ℕ) };

    /// Writes a prefix of `bytes` and returns its length, at least 1.
    ///
    /// # Errors
    ///
    /// The device failed. No byte is written, and the mark is set.
    fn write(&mut self, bytes: &[u8]) -> Result<usize, Failed>
        requires { 0 < length bytes.now }
        ensures count { IfOk result (λ n. (1 ≤ n) × (n ≤ length bytes.now)) }
        ensures bytes { IfOk result (λ n.
            Appends (contents self.old) (contents self.new) (take n bytes.now)) }
        ensures none { OnErr result (Keeps (contents self.old) (contents self.new)) }
        ensures unmarked { OnOk result (is_marked self.new ≡ is_marked self.old) }
        ensures marked { OnErr result (is_marked self.new ≡ true) };
}

/// Writes all of the bytes.
///
/// # Errors
///
/// The device failed. A prefix of the bytes is written, and the mark is set.
pub fn write_all<W: Sink>(writer: &mut W, bytes: &[u8]) -> Result<(), Failed>
    ensures bytes { OnOk result (Appends (W.contents writer.old) (W.contents writer.new) bytes.now) }
    ensures prefix { OnErr result (AppendsPrefix (W.contents writer.old) (W.contents writer.new) bytes.now) }
    ensures unmarked { OnOk result (W.is_marked writer.new ≡ W.is_marked writer.old) }
    ensures marked { OnErr result (W.is_marked writer.new ≡ true) }
{
    let mut rest = bytes;
    while !rest.is_empty() {
        let count = writer.write(rest)?;
        rest = rest.split_at(count).1;
    }
    Ok(())
}
