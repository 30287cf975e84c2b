use crate::fault::MapFault;
use vme_am::{Am, Space};

/// The addresses at which one board responds: `size` bytes of a space, from `base` up: IEEE
/// 1014-1987, 2.3.5 (addressing).
#[derive(Clone, Copy, Debug, PartialEq, Eq)]
pub struct Entry {
    /// The address space.
    pub space: Space,
    /// The first address: a multiple of four in a lawful map.
    pub base: u32,
    /// The number of bytes. An entry of size 0 covers no address.
    pub size: u32,
    /// Whether only supervisory codes are admitted.
    pub supervisory: bool,
}

impl Entry {
    ghost use Rattle.std.specs.Prelude.{◌≡◌, ◌≢◌, ◌↔◌, None, Some, IsOk, IfErr};
    ghost use Rattle.std.specs.List.{list_any};
    ghost use Rattle.vme_decode.specs.Entries.{end_of, covers, admits, overlap};
    ghost use Rattle.vme_cycle.specs.Refusals.{first_of};
    ghost use Rattle.vme_decode.specs.Lawful.{entry_refusals};
    ghost use Rattle.vme_decode.specs.Select.{responds};

    /// The address after the last one.
    fn end(&self) -> u64
        ensures { result ≡ end_of self.now }
    {
        u64::from(self.base) + u64::from(self.size)
    }

    /// Whether the entry covers an address of a space.
    fn covers(&self, space: Space, addr: u32) -> bool
        ensures { result ≡ covers self.now space addr }
    {
        self.space == space && self.base <= addr && u64::from(addr) < self.end()
    }

    /// Whether the entry admits the privilege of a code.
    fn admits(&self, am: Am) -> bool
        ensures { result ≡ admits self.now am }
    {
        am.is_supervisory() || !self.supervisory
    }

    /// Returns whether the entry responds: it covers the address in the code's space and admits the
    /// code; IEEE 1014-1987, 2.3.5 (addressing).
    pub fn responds(&self, am: Am, addr: u32) -> bool
        ensures { result ≡ responds self.now am addr }
    {
        self.covers(am.space(), addr) && self.admits(am)
    }

    /// Whether two entries share an address.
    fn overlaps(&self, other: &Entry) -> bool
        ensures { result ≡ overlap self.now other.now }
    {
        self.space == other.space
            && u64::from(self.base.max(other.base)) < self.end().min(other.end())
    }

    /// Whether the entry shares an address with one of the `others`.
    pub(crate) fn overlaps_any(&self, others: &[Entry]) -> bool
        ensures { result ≡ list_any (overlap self.now) others.now }
    {
        others.iter().any(|other| self.overlaps(other))
    }

    /// The first fault of the entry on its own: C3 before C2.
    pub(crate) fn check(&self) -> Result<(), MapFault>
        ensures lawful { IsOk result ↔ (first_of (entry_refusals self.now) ≡ None) }
        ensures refused { IfErr result (λ fault. first_of (entry_refusals self.now) ≡ Some fault) }
        ensures not_memory { result ≢ Err MapFault.OutOfMemory }
    {
        if self.base % 4 != 0 {
            return Err(MapFault::Misaligned);
        }
        if self.end() > self.space.addresses() {
            return Err(MapFault::OutsideSpace);
        }
        Ok(())
    }
}
