ghost use Rattle.std.specs.Prelude.{◌≡◌, ◌<◌, ◌≤◌, ◌↔◌, [], length, Err, IfOk, IsOk};
ghost use Rattle.vme_cycle.specs.BlockBuffers.{inline_capacity, block_limit};
ghost use Rattle.vme_cycle.specs.BlockReprs.{repr_bytes};
ghost use Rattle.vme_cycle.specs.declared.block_fault.BlockFault.TheVariants.{TooLong};

use crate::block_buffer::BlockBuffer;
use crate::block_fault::BlockFault;
use crate::repr::Repr;
use arrayvec::ArrayVec;
use std::alloc::Global;
use std::marker::Model;

/// The greatest number of bytes of a block: 256 data of eight bytes.
pub const BLOCK_LIMIT: usize = 2048;

/// The bytes of a block, in order of address: at most [`BLOCK_LIMIT`].
#[derive(Debug, Drop)]
pub struct Block {
    repr: Repr,
}

impl Model for Block {
    ghost use Rattle.std.specs.Prelude.{◌≤◌, length};
    ghost use Rattle.vme_cycle.specs.BlockBuffers.{BlockBytes, block_limit};

    ghost Value = { BlockBytes };

    ghost use Rattle.vme_cycle.specs.BlockReprs.{repr_bytes};

    ghost view = { λ b. record { items = repr_bytes b.repr } };

    ghost invariant = { λ b. length (repr_bytes b.repr) ≤ block_limit };
}

impl Block {
    /// Returns a block of no bytes. It allocates nothing.
    pub fn new() -> Block
        ensures { result.items ≡ [] }
    {
        Block::from_short_slice(ArrayVec::new())
    }

    /// Returns a block of at most [`INLINE_LEN`](crate::INLINE_LEN) bytes, stored in the value
    /// itself. It allocates nothing.
    pub fn from_short_slice(bytes: ArrayVec<u8, 40>) -> Block
        ensures { result.items ≡ bytes.items }
    {
        let len = bytes.len();
        prove!(len <= 40);
        Block {
            repr: Repr::Short(bytes),
        }
    }

    /// Returns a block with a copy of the bytes.
    ///
    /// # Errors
    ///
    /// `TooLong` exactly for more than [`BLOCK_LIMIT`] bytes. `Memory`: an allocation failed; with
    /// up to [`INLINE_LEN`](crate::INLINE_LEN) bytes there is no error.
    pub fn from_slice(alloc: Global, bytes: &[u8]) -> Result<Block, BlockFault>
        ensures bytes { IfOk result (λ block. block.items ≡ bytes.now) }
        ensures long { (result ≡ Err TooLong) ↔ (block_limit < length bytes.now) }
        ensures short { length bytes.now ≤ inline_capacity → IsOk result }
    {
        if BLOCK_LIMIT < bytes.len() {
            return Err(BlockFault::TooLong);
        }
        match BlockBuffer::with_capacity(alloc, bytes.len()) {
            Ok(mut buffer) => {
                buffer.extend_from_slice(bytes);
                Ok(buffer.into_block())
            }
            Err(_) => Err(BlockFault::Memory),
        }
    }

    /// Returns the block with the bytes of a representation.
    pub(crate) fn from_repr(repr: Repr) -> Block
        requires { length (repr_bytes repr) ≤ block_limit }
        ensures { result.items ≡ repr_bytes repr }
    {
        Block { repr }
    }

    /// Returns the bytes, in order of address.
    pub fn as_slice(&self) -> &[u8]
        ensures value { result.now ≡ self.now.items }
        ensures fits { length result.now ≤ block_limit }
    {
        self.repr.as_slice()
    }

    /// Returns the number of bytes.
    pub fn len(&self) -> usize
        ensures value { result ≡ length self.now.items }
        ensures fits { result ≤ block_limit }
    {
        self.as_slice().len()
    }
}

impl PartialEq for Block {
    ghost use Rattle.std.specs.Prelude.{nat_eq};
    ghost use Rattle.std.specs.Cmp.{on_per, partial_equiv_from_equiv};
    ghost use Rattle.std.specs.Cmp.Lexicographic.{pointwise, nat_list_eq_equiv};

    ghost eq = { λ a b. pointwise nat_eq a.items b.items };

    ghost laws = { on_per (λ b. b.items) (partial_equiv_from_equiv nat_list_eq_equiv) };

    fn eq(&self, other: &Block) -> bool {
        self.as_slice() == other.as_slice()
    }
}

impl Eq for Block {
    ghost use Rattle.std.specs.Cmp.{on_equiv};
    ghost use Rattle.std.specs.Cmp.Lexicographic.{nat_list_eq_equiv};

    ghost laws = { on_equiv (λ b. b.items) nat_list_eq_equiv };
}
