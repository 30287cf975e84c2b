//! The requests of a master, as C has them.
use crate::modify::VmeModify;

/// A request of a master to the bus.
#[repr(C)]
#[derive(Clone, Copy)]
pub struct VmeRequest {
    /// The address of the first byte.
    pub addr: u32,
    /// The number of data of a block, 1 to 256. Other requests ignore it, as does a block write whose
    /// bytes are given.
    pub count: u16,
    /// The address modifier code.
    pub am: u8,
    /// 0: read. 1: write. 2: block read. 3: block write. Every other number: read-modify-write. A call
    /// that names the direction asks only whether it is a block.
    pub kind: u8,
    /// The number of bytes of each datum. A single write uses the length of its bytes instead.
    pub n: u8,
    /// The function of a read-modify-write, where the call has no argument for it.
    pub f: VmeModify,
}
