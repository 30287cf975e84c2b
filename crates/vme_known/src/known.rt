ghost use Rattle.std.specs.Prelude.{◌≡◌, ◌<◌, ◌≤◌, ◌≢◌, ◌-◌, ◌++◌, length, take, drop, replicate, All, IfOk, IsTrue, Some, slice_get};
ghost use Rattle.vme_known.specs.declared.access.Access.TheVariants as accesses;
ghost use Rattle.vme_known.specs.declared.byte.Byte.TheVariants.{Open};
ghost use Rattle.vme_known.specs.Judging.{may_all_come, may_come, known_after, forgotten, place_of};

use crate::access::Access;
use crate::byte::Byte;
use std::alloc::{AllocError, Global};
use std::marker::Model;

/// What is known of the bytes of a board.
#[derive(Debug, Drop)]
pub struct KnownBytes {
    bytes: Vec<Byte>,
}

impl Model for KnownBytes {
    ghost use Rattle.std.specs.Prelude.{List};
    ghost use Rattle.vme_known.specs.declared.byte.Byte.{Byte};

    ghost Value = { List Byte };

    ghost view = { λ k. k.bytes.items };
}

impl KnownBytes {
    /// Returns as many bytes as `size`, of each of which `byte` is known. It allocates once.
    ///
    /// # Errors
    ///
    /// An allocation failed.
    pub fn new(alloc: Global, size: usize, byte: Byte) -> Result<KnownBytes, AllocError>
        ensures { IfOk result (λ known. known ≡ replicate size byte) }
    {
        let bytes = vec![in alloc; byte; size]?;
        Ok(KnownBytes { bytes })
    }

    /// Makes the bytes from `from` up to `to` open.
    pub fn make_open(&mut self, from: usize, to: usize)
        requires order { from ≤ to }
        requires within { to ≤ length self.old }
        ensures { self.new ≡ take from self.old ++ replicate (to - from) Open ++ drop to self.old }
    {
        self.bytes[from..to].fill(Byte::Open);
    }

    /// Returns the number of bytes.
    pub fn len(&self) -> usize
        ensures { result ≡ length self.now }
    {
        self.bytes.len()
    }

    /// Returns what is known of a byte.
    pub fn get(&self, at: usize) -> Byte
        requires { at < length self.now }
        ensures { slice_get self.now at ≡ Some result }
    {
        self.bytes[at]
    }

    /// Takes a byte that a read found: returns whether it may be found. If so, it is known then.
    pub fn find(&mut self, at: usize, byte: u8) -> bool
        requires { at < length self.old }
        ensures answer { result ≡ may_come self.old (accesses.Finds at byte) }
        ensures known { IsTrue result → self.new ≡ known_after self.old (accesses.Finds at byte) }
        ensures len { length self.new ≡ length self.old }
    {
        match self.bytes[at] {
            Byte::Open => true,
            Byte::Unseen => {
                self.bytes[at] = Byte::Known(byte);
                true
            }
            Byte::Known(value) => value == byte,
        }
    }

    /// Takes a byte that a write stored.
    pub fn store(&mut self, at: usize, byte: u8)
        requires { at < length self.old }
        ensures known { self.new ≡ known_after self.old (accesses.Stores at byte) }
        ensures len { length self.new ≡ length self.old }
    {
        if self.bytes[at] != Byte::Open {
            self.bytes[at] = Byte::Known(byte);
        }
    }

    /// Forgets what is known of a byte: something unseen may have written it. An open byte stays open.
    pub fn forget(&mut self, at: usize)
        requires { at < length self.old }
        ensures known { self.new ≡ forgotten self.old at }
        ensures len { length self.new ≡ length self.old }
    {
        if self.bytes[at] != Byte::Open {
            self.bytes[at] = Byte::Unseen;
        }
    }

    /// Takes one access, and returns whether it may come.
    pub fn take(&mut self, access: Access) -> bool
        requires { place_of access < length self.old }
        ensures answer { result ≡ may_come self.old access }
        ensures known { IsTrue result → self.new ≡ known_after self.old access }
        ensures len { length self.new ≡ length self.old }
    {
        match access {
            Access::Finds { at, byte } => self.find(at, byte),
            Access::Stores { at, byte } => {
                self.store(at, byte);
                true
            }
        }
    }

    /// Takes accesses up to the first that may not come, and returns whether there is none.
    pub fn take_all(&mut self, accesses: &[Access]) -> bool
        requires { All (λ access. place_of access < length self.old) accesses.now }
        ensures { result ≡ may_all_come self.old accesses.now }
    {
        for access in accesses {
            if !self.take(*access) {
                return false;
            }
        }
        true
    }
}
