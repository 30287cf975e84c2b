ghost use Rattle.std.specs.Prelude.{◌≡◌, ◌+◌, ◌≤◌, [], ◌++◌, length, max, IfOk, IsOk};
ghost use Rattle.vme_cycle.specs.BlockBuffers.{inline_capacity, block_limit};

use crate::block::Block;
use crate::repr::{INLINE_LEN, Repr};
use arrayvec::ArrayVec;
use std::alloc::{AllocError, Global};
use std::marker::Model;

/// A buffer of fixed capacity that collects the bytes of a block or of a transfer. Only making the
/// buffer can allocate.
#[derive(Debug, Drop)]
pub struct BlockBuffer {
    repr: Repr,
}

impl Model for BlockBuffer {
    ghost use Rattle.vme_cycle.specs.BlockBuffers.{BufferView};

    ghost Value = { BufferView };

    ghost use Rattle.vme_cycle.specs.BlockReprs.{IsBuffer, buffer_view};

    ghost view = { λ r. buffer_view r.repr };

    ghost invariant = { λ r. IsBuffer r.repr };
}

impl BlockBuffer {
    /// Returns an empty buffer with a capacity of [`INLINE_LEN`] bytes. It allocates nothing.
    pub fn new() -> BlockBuffer
        ensures { result ≡ record { items = []; capacity = inline_capacity } }
    {
        BlockBuffer {
            repr: Repr::Short(ArrayVec::new()),
        }
    }

    /// Returns an empty buffer with a capacity of `count` bytes, and of at least [`INLINE_LEN`].
    ///
    /// # Errors
    ///
    /// An allocation failed. With a `count` of up to [`INLINE_LEN`] there is no error.
    pub fn with_capacity(alloc: Global, count: usize) -> Result<BlockBuffer, AllocError>
        ensures capacity { IfOk result (λ buffer. buffer ≡ record { items = []; capacity = max inline_capacity count }) }
        ensures short { count ≤ inline_capacity → IsOk result }
    {
        if count <= INLINE_LEN {
            return Ok(BlockBuffer::new());
        }
        Ok(BlockBuffer {
            repr: Repr::Long {
                bytes: Vec::with_capacity(alloc, count)?,
                capacity: count,
            },
        })
    }

    /// Returns the bytes.
    pub fn as_slice(&self) -> &[u8]
        ensures value { result.now ≡ self.now.items }
        ensures capacity { length result.now ≤ self.now.capacity }
        ensures least { inline_capacity ≤ self.now.capacity }
    {
        self.repr.as_slice()
    }

    /// Appends bytes within the capacity. It allocates nothing.
    #[inline(always)]
    pub fn extend_from_slice(&mut self, bytes: &[u8])
        requires { length self.old.items + length bytes.now ≤ self.old.capacity }
        ensures { self.new ≡ record self.old { items = self.old.items ++ bytes.now } }
    {
        self.repr.extend_from_slice(bytes);
    }

    /// Removes all bytes. The capacity stays.
    pub fn clear(&mut self)
        ensures capacity { self.new ≡ record self.old { items = [] } }
        ensures least { inline_capacity ≤ self.old.capacity }
    {
        self.repr.clear();
    }

    /// Returns the bytes as a block. It allocates nothing.
    pub fn into_block(self) -> Block
        requires { length self.items ≤ block_limit }
        ensures { result.items ≡ self.items }
    {
        Block::from_repr(self.repr)
    }
}
