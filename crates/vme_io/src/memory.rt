ghost use Rattle.std.specs.Prelude.{◌≡◌, ◌<◌, ◌+◌, ◌≤◌, [], Some, false, IfOk, vec_len, vec_capacity};

use crate::sink::Sink;
use crate::source::{Failed, Source};
use std::alloc::{AllocError, Global};

/// A source of bytes in memory, for tests. One call returns at most `most` bytes. The source fails
/// after it has returned `fails_after` bytes.
#[derive(Drop)]
pub struct SliceSource<'a> {
    rest: &'a [u8],
    most: usize,
    left: usize,
    marked: bool,
    ghost positive: { 0 < most },
}

impl<'a> SliceSource<'a> {
    ghost use Rattle.vme_io.specs.Devices.{most_given, left_to_give};

    /// Returns a source of these bytes, with the mark clear.
    pub fn new(bytes: &'a [u8], most: usize, fails_after: usize) -> SliceSource<'a>
        requires { 0 < most }
        ensures bytes { ⟦<SliceSource<'a> as Source>⟧.remaining result ≡ Some bytes.now }
        ensures unmarked { ⟦<SliceSource<'a> as Source>⟧.is_marked result ≡ false }
        ensures most { most_given result ≡ most }
        ensures fails { left_to_give result ≡ fails_after }
    {
        SliceSource {
            rest: bytes,
            most,
            left: fails_after,
            marked: false,
        }
    }
}

impl Source for SliceSource<'_> {
    ghost use Rattle.std.specs.Prelude.{◌≡◌, ◌+◌, ◌<◌, ◌≤◌, Ok, Some, true, length, take, IsOk, IsErr, IfOk, OnOk, OnErr};
    ghost use Rattle.std.specs.Io.KnownBytes.{Keeps, Consumes, IsAtEnd};
    ghost use Rattle.vme_io.specs.Devices.{rest_of_source, is_marked_source, most_given, left_to_give};

    ghost is_marked = { λ s. s.marked };

    ghost remaining = { λ s. Some s.rest.now };

    /// Reads as many bytes as there are, up to the length of `buffer`, the limit of one call and
    /// the limit before the failure.
    fn read(&mut self, buffer: &mut [u8]) -> Result<usize, Failed>
        requires { 0 < length buffer.old }
        ensures count { IfOk result (λ n. n ≤ length buffer.new) }
        ensures bytes { IfOk result (λ n.
            Consumes (Some (rest_of_source self.old)) (Some (rest_of_source self.new)) (take n buffer.new)) }
        ensures end { result ≡ Ok 0 → IsAtEnd (Some (rest_of_source self.new)) }
        ensures none_lost { OnErr result (Keeps (Some (rest_of_source self.old)) (Some (rest_of_source self.new))) }
        ensures unmarked { OnOk result (is_marked_source self.new ≡ is_marked_source self.old) }
        ensures marked { OnErr result (is_marked_source self.new ≡ true) }

        // It fails exactly when it has returned `fails_after` bytes.
        ensures most { IfOk result (λ n. n ≤ most_given self.old) }
        ensures left { IfOk result (λ n. left_to_give self.new + n ≡ left_to_give self.old) }
        ensures gives { 0 < left_to_give self.old → IsOk result }
        ensures fails { left_to_give self.old ≡ 0 → IsErr result }
    {
        if self.left == 0 {
            self.marked = true;
            return Err(Failed);
        }
        let count = buffer
            .len()
            .min(self.most)
            .min(self.left)
            .min(self.rest.len());
        let (prefix, rest) = self.rest.split_at(count);
        buffer[..count].copy_from_slice(prefix);
        self.rest = rest;
        self.left -= count;
        Ok(count)
    }
}

/// A sink into memory, for tests. One call takes at most `most` bytes. The sink fails after it has
/// taken `capacity` bytes. Its memory is allocated when it is made, so a write allocates nothing.
#[derive(Drop)]
pub struct RoomSink {
    bytes: Vec<u8>,
    most: usize,
    capacity: usize,
    marked: bool,
    ghost positive: { 0 < most },
    ghost reserved: { vec_len bytes + capacity ≤ vec_capacity bytes },
}

impl RoomSink {
    ghost use Rattle.vme_io.specs.Devices.{most_taken, left_to_take};

    /// Returns an empty sink, with the mark clear.
    ///
    /// # Errors
    ///
    /// An allocation failed.
    pub fn new(alloc: Global, most: usize, capacity: usize) -> Result<RoomSink, AllocError>
        requires { 0 < most }
        ensures empty { IfOk result (λ sink. ⟦<RoomSink as Sink>⟧.contents sink ≡ Some []) }
        ensures unmarked { IfOk result (λ sink. ⟦<RoomSink as Sink>⟧.is_marked sink ≡ false) }
        ensures most { IfOk result (λ sink. most_taken sink ≡ most) }
        ensures fails { IfOk result (λ sink. left_to_take sink ≡ capacity) }
    {
        Ok(RoomSink {
            bytes: Vec::with_capacity(alloc, capacity)?,
            most,
            capacity,
            marked: false,
        })
    }

    /// Returns the bytes that were written.
    pub fn bytes(&self) -> &[u8]
        ensures { ⟦<RoomSink as Sink>⟧.contents self.now ≡ Some result.now }
    {
        self.bytes.as_slice()
    }
}

impl Sink for RoomSink {
    ghost use Rattle.std.specs.Prelude.{◌≡◌, ◌+◌, ◌<◌, ◌≤◌, Some, true, length, take, IsOk, IsErr, IfOk, OnOk, OnErr};
    ghost use Rattle.std.specs.Io.KnownBytes.{Keeps, Appends};
    ghost use Rattle.vme_io.specs.Devices.{taken_by, is_marked_sink, most_taken, left_to_take};

    ghost is_marked = { λ s. s.marked };

    ghost contents = { λ s. Some s.bytes.items };

    /// Takes as many bytes as there are, up to the limit of one call and the remaining capacity.
    fn write(&mut self, bytes: &[u8]) -> Result<usize, Failed>
        requires { 0 < length bytes.now }
        ensures count { IfOk result (λ n. (1 ≤ n) × (n ≤ length bytes.now)) }
        ensures bytes { IfOk result (λ n.
            Appends (Some (taken_by self.old)) (Some (taken_by self.new)) (take n bytes.now)) }
        ensures none { OnErr result (Keeps (Some (taken_by self.old)) (Some (taken_by self.new))) }
        ensures unmarked { OnOk result (is_marked_sink self.new ≡ is_marked_sink self.old) }
        ensures marked { OnErr result (is_marked_sink self.new ≡ true) }

        // It fails exactly when no capacity remains.
        ensures most { IfOk result (λ n. n ≤ most_taken self.old) }
        ensures left { IfOk result (λ n. left_to_take self.new + n ≡ left_to_take self.old) }
        ensures takes { 0 < left_to_take self.old → IsOk result }
        ensures fails { left_to_take self.old ≡ 0 → IsErr result }
    {
        if self.capacity == 0 {
            self.marked = true;
            return Err(Failed);
        }
        let count = bytes.len().min(self.most).min(self.capacity);
        self.bytes.extend_from_slice(&bytes[..count]).unwrap();
        self.capacity -= count;
        Ok(count)
    }
}
