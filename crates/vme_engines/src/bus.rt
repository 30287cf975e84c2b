//! The bus of `vme cycles`: one board, and the address map that contains only it.
ghost use Rattle.std.specs.Prelude.{◌≡◌, ◌<◌, Some, IfOk, IfSome};
ghost use Rattle.std.specs.Option.{option_map};
ghost use Rattle.vme_engines.specs.Cycles.{fresh_board};

use std::alloc::{AllocError, Global};
use std::marker::Model;
use vme_am::Space;
use vme_cycle::Signals;
use vme_decode::{AddressMap, Entry};
use vme_memory::{Access, ByteMemory, Class, Reply, Width8To32};

/// The number of bytes of the board of `vme cycles`. It begins at address 0 of the extended space,
/// and responds to all codes of that space.
pub const BOARD_SIZE: u32 = 4096;

/// A bus with one board.
#[derive(Drop)]
pub(crate) struct Bus {
    map: AddressMap,
    memory: ByteMemory,
}

impl Model for Bus {
    ghost use Rattle.std.specs.Prelude.{◌≡◌};
    ghost use Rattle.vme_memory.specs.Boards.{Board};
    ghost use Rattle.vme_engines.specs.Answers.{board_map};

    ghost Value = { Board };

    ghost view = { λ b. b.memory };

    ghost invariant = { λ b. b.map ≡ board_map };
}

impl Bus {
    ghost use Rattle.vme_cycle.specs.SignalLines.{first_byte};
    ghost use Rattle.vme_decode.specs.Select.{selection};
    ghost use Rattle.vme_memory.specs.Access.{accessed};
    ghost use Rattle.vme_memory.specs.Steps.{step};
    ghost use Rattle.vme_engines.specs.Answers.{board_map};

    /// A bus whose board is all zero.
    pub(crate) fn new(alloc: Global) -> Result<Bus, AllocError>
        ensures { IfOk result (λ bus. bus ≡ fresh_board) }
    {
        let memory = fresh_memory(alloc)?;
        match AddressMap::new(alloc, &[ENTRY]) {
            Ok(map) => Ok(Bus { map, memory }),
            Err(_) => Err(AllocError),
        }
    }

    /// The offset of a cycle's first byte on the board, if that byte selects the board.
    pub(crate) fn select(&self, signals: &Signals) -> Option<u32>
        ensures value { result ≡ option_map (λ found. found.1) (selection board_map signals.now) }
        ensures within { IfSome result (λ offset.
            (offset < 4096) × (first_byte signals.now ≡ Some offset)) }
    {
        let (_, offset) = self.map.select(signals)?;
        Some(offset)
    }

    /// The board's reply to one datum of a transfer.
    pub(crate) fn access(&mut self, access: &Access<'_>) -> Reply
        ensures reply { result ≡ (step self.old (accessed access.now)).0 }
        ensures board { self.new ≡ (step self.old (accessed access.now)).1 }
    {
        self.memory.access(access)
    }
}

/// The entry of the board in the address map.
const ENTRY: Entry = Entry {
    space: Space::A32,
    base: 0,
    size: BOARD_SIZE,
    supervisory: false,
};

/// The board's memory: all zero, 32 data lines, and unaligned, block and read-modify-write
/// transfers.
#[tactic(auto, unfolding(crate::specs::Cycles::fresh_board))]
fn fresh_memory(alloc: Global) -> Result<ByteMemory, AllocError>
    ensures { IfOk result (λ memory. memory ≡ fresh_board) }
{
    let class = Class {
        width: Width8To32::D32,
        uat: true,
        blt: true,
        rmw: true,
    };
    match ByteMemory::new(alloc, BOARD_SIZE, class) {
        Ok(memory) => Ok(memory),
        Err(_) => Err(AllocError),
    }
}
