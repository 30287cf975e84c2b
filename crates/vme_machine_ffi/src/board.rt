//! The boards of a machine, as C has them.
ghost use Rattle.std.specs.Prelude.{◌≡◌};
ghost use Rattle.vme_c_types.specs.Boards.{entry_of, class_of, kind_of};
ghost use Rattle.vme_machine_ffi.specs.Boards.{board_struct, kind_number};

use vme_am::Space;
use vme_arbiter::ArbiterKind;
use vme_c_types::{VmeClass, VmeEntry};
use vme_memory::Width8To32;
use vme_script::BoardConfig;

/// A board of a machine.
#[repr(C)]
#[derive(Clone, Copy)]
pub struct VmeBoard {
    /// The addresses at which it responds.
    pub entry: VmeEntry,
    /// The cycles to which it replies.
    pub cls: VmeClass,
    /// Its slot, 1 to 21.
    pub slot: u16,
    /// The level on which it requests the bus, 0 to 3.
    pub level: u8,
}

/// The struct of a board of a file.
pub(crate) fn board_struct(board: &BoardConfig) -> VmeBoard
    ensures value { result ≡ board_struct board.now }
    ensures entry { entry_of result.entry ≡ board.now.entry }
    ensures class { class_of result.cls ≡ board.now.class }
{
    let (entry, class) = (board.entry, board.class);
    let space = match entry.space {
        Space::A16 => 16,
        Space::A24 => 24,
        Space::A32 => 32,
    };
    let width = match class.width {
        Width8To32::D08 => 8,
        Width8To32::D16 => 16,
        Width8To32::D32 => 32,
    };
    VmeBoard {
        entry: VmeEntry {
            base: entry.base,
            size: entry.size,
            space,
            supervisory: entry.supervisory as u8,
        },
        cls: VmeClass {
            width,
            uat: class.uat as u8,
            blt: class.blt as u8,
            rmw: class.rmw as u8,
        },
        slot: board.slot,
        level: board.level,
    }
}

/// The number of a kind of arbiter: 0 is priority (PRI), and 1 rotating (RRS).
pub(crate) fn kind_number(kind: ArbiterKind) -> u8
    ensures value { result ≡ kind_number kind }
    ensures kind { kind_of result ≡ kind }
{
    match kind {
        ArbiterKind::Priority => 0,
        ArbiterKind::Rotating => 1,
    }
}
