ghost use Rattle.std.specs.Prelude.{◌≡◌};

use vme_memory::{BoardCmd, ByteMemory, Reply};
use vme_object::Operation;

/// A read by a board's local port, as an operation. It changes nothing, so that the compiler makes
/// the read in place of the command.
#[derive(Drop)]
pub struct LocalRead {
    /// The offset of the first byte.
    pub offset: u32,
    /// The number of bytes.
    pub n: u8,
}

impl Operation<ByteMemory> for LocalRead {
    ghost use Rattle.vme_memory.specs.declared.command.BoardCmd.TheVariants as board_commands;

    ghost command = { λ o. board_commands.LocalRead o.offset o.n };

    fn perform(&self, memory: &mut ByteMemory) -> Reply {
        let (offset, n) = (self.offset, self.n);
        memory.peek(&BoardCmd::LocalRead { offset, n }).unwrap()
    }
}
