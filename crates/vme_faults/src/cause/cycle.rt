//! Faults of a request.
use vme_am::Space;

/// A fault of a request: K1 to K9.
///
/// The rules for codes (K9, K2, K1 and K5) are those of IEEE 1014-1987, 2.2.2 (address modifier
/// lines), for K4 of 2.3.5 (addressing), for K3 of 2.2.1 (addressing lines), for K6 of 2.3.7 (block
/// transfer), and for K8 of 2.2.1, 2.3.7 and 2.3.8 (read-modify-write).
#[derive(Clone, Copy, Debug, PartialEq, Eq)]
pub enum CycleCause {
    /// K9: the code is above 3f.
    NoCode { am: u8 },
    /// K2: the code is from 10 to 1f.
    UserCode { am: u8 },
    /// K1: the standard reserves the code.
    ReservedCode { am: u8 },
    /// K5: the code is a block code, and the request is no block.
    BlockCode { am: u8 },
    /// K5: the request is a block, and the code is no block code.
    NoBlockCode { am: u8 },
    /// K7: a read-modify-write has a program code.
    ProgramModify { am: u8 },
    /// K8: a single read or write has 1 to 4 bytes, and this one `bytes`.
    SingleLength { bytes: usize },
    /// K8: a read-modify-write has 1, 2 or 4 bytes, and this one `bytes`.
    ModifyLength { bytes: usize },
    /// K8: a datum of a block with this code has 1, 2 or 4 bytes, and here `bytes`.
    DatumLength { am: u8, bytes: usize },
    /// K8: a datum of a block with this code has eight bytes, and here `bytes`.
    WideLength { am: u8, bytes: usize },
    /// K8: a block has 1 to 256 data, and this one `data`.
    DataCount { data: usize },
    /// K8: the number of bytes of a block write, `bytes`, is not a multiple of the datum length.
    BytesLeft { bytes: usize, datum: u8 },
    /// K4: the last byte is at `last`, past the last address of the space.
    OutsideSpace { space: Space, last: u64 },
    /// K3: no byte location has `bytes` bytes from `addr` on.
    NoLocation { addr: u32, bytes: u8 },
    /// K3: the address of a block or of a read-modify-write is not a multiple of the datum length.
    AddressNotAligned { addr: u32, datum: u8 },
    /// K6: the block from `addr` to `last` crosses a multiple of `boundary`.
    Crosses { addr: u32, last: u64, boundary: u16 },
}

impl CycleCause {
    /// Returns the number of the refusal.
    pub(crate) fn code(self) -> &'static str {
        match self {
            CycleCause::NoCode { .. } => "K9",
            CycleCause::UserCode { .. } => "K2",
            CycleCause::ReservedCode { .. } => "K1",
            CycleCause::BlockCode { .. } | CycleCause::NoBlockCode { .. } => "K5",
            CycleCause::ProgramModify { .. } => "K7",
            CycleCause::SingleLength { .. }
            | CycleCause::ModifyLength { .. }
            | CycleCause::DatumLength { .. }
            | CycleCause::WideLength { .. }
            | CycleCause::DataCount { .. }
            | CycleCause::BytesLeft { .. } => "K8",
            CycleCause::OutsideSpace { .. } => "K4",
            CycleCause::NoLocation { .. } | CycleCause::AddressNotAligned { .. } => "K3",
            CycleCause::Crosses { .. } => "K6",
        }
    }
}
