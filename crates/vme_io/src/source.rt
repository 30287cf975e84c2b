ghost use Rattle.std.specs.Prelude.{◌≡◌, ℕ, ◌<◌, ◌≤◌, Bool, true, List, Option, Ok, length, take, IfOk, OnOk, OnErr};
ghost use Rattle.std.specs.Io.KnownBytes.{Keeps, Consumes, IsAtEnd};

/// A device has failed, and its mark is set.
#[derive(Clone, Copy, Debug, PartialEq, Eq)]
pub struct Failed;

/// A source of bytes.
pub trait Source {
    /// Whether a read has failed.
    ghost is_marked: { Self → Bool };

    /// The bytes that are left, or `None` for a source without a byte model.
    ghost remaining: { Self → Option (List ℕ) };

    /// Reads the next bytes into the start of `buffer` and returns their number. The number is 0
    /// only at the end.
    ///
    /// # Errors
    ///
    /// The device failed. No byte is lost, and the mark is set.
    fn read(&mut self, buffer: &mut [u8]) -> Result<usize, Failed>
        requires { 0 < length buffer.old }
        ensures count { IfOk result (λ n. n ≤ length buffer.new) }
        ensures bytes { IfOk result (λ n.
            Consumes (remaining self.old) (remaining self.new) (take n buffer.new)) }
        ensures end { result ≡ Ok 0 → IsAtEnd (remaining self.new) }
        ensures none_lost { OnErr result (Keeps (remaining self.old) (remaining self.new)) }
        ensures unmarked { OnOk result (is_marked self.new ≡ is_marked self.old) }
        ensures marked { OnErr result (is_marked self.new ≡ true) };
}
