//! Tests of memories beside those with all their bytes.
use crate::memory::SparseMemory;
use std::alloc::{AllocError, Global};
use std::process::Abort;
use vme_lanes::Datum;
use vme_memory::{BoardCmd, ByteMemory, Class, Width8To32};

/// The number of bytes of each memory.
const SIZE: u32 = 28;

/// The class of each memory.
static CLASS: Class = Class {
    width: Width8To32::D32,
    uat: true,
    blt: true,
    rmw: true,
};

/// Offsets, and the bytes that are written there: within a word and across words, zeros over others, and
/// past the end.
static WRITES: [(u32, &[u8]); 9] = [
    (8, &[1, 2, 3, 4]),
    (3, &[5, 6]),
    (26, &[7, 8]),
    (9, &[0, 0]),
    (26, &[9, 10, 11, 12]),
    (8, &[0, 0, 0, 0]),
    (21, &[13, 14, 15, 16]),
    (28, &[17]),
    (3, &[0, 0]),
];

/// Checks that two memories have the same bytes and rows.
fn check_bytes(rt: &impl Abort, sparse: &SparseMemory, whole: &ByteMemory) {
    assert!(rt; sparse.size() == whole.size());
    for offset in 0..SIZE + 2 {
        assert!(rt; sparse.byte(offset) == whole.byte(offset));
    }
    for word in 0..7 {
        let offset = 4 * word;
        assert!(rt; offset <= sparse.size());
        assert!(rt; offset <= whole.size());
        assert!(rt; sparse.row(offset).as_slice() == whole.row(offset).as_slice());
    }
    for row in 0..3 {
        assert!(rt; sparse.next_row(16 * row) == next_row_of(whole, 16 * row));
    }
}

/// Returns the offset of the first row, from that at `offset` on, with a byte that is not zero.
fn next_row_of(whole: &ByteMemory, offset: u32) -> Option<u32> {
    for at in offset..SIZE {
        if whole.byte(at) != Some(0) {
            return Some(at - at % 16);
        }
    }
    None
}

/// Writes bytes to two memories, which must reply alike, and reads them.
fn write_both(
    rt: &impl Abort,
    alloc: Global,
    sparse: SparseMemory,
    whole: &mut ByteMemory,
    write: (u32, &[u8]),
) -> Result<SparseMemory, AllocError> {
    let (offset, bytes) = write;
    let command = BoardCmd::LocalWrite {
        offset,
        bytes: Datum::try_from(bytes).expect(rt, "more than eight bytes"),
    };
    let (after, reply) = sparse.after(alloc, &command)?;
    assert!(rt; reply == whole.local(&command));
    let written = after.unwrap_or(sparse);
    let command = BoardCmd::LocalRead { offset, n: 2 };
    let (unchanged, reply) = written.after(alloc, &command)?;
    assert!(rt; unchanged.is_none());
    assert!(rt; reply == whole.local(&command));
    Ok(written)
}

/// Makes all writes, unless an allocation fails.
fn write_all(rt: &impl Abort, alloc: Global) -> Result<(), AllocError> {
    let Ok(mut whole) = ByteMemory::new(alloc, SIZE, CLASS) else {
        return Ok(());
    };
    let mut sparse = SparseMemory::new(alloc, SIZE, CLASS).expect(rt, "no size of a board");
    for write in WRITES {
        sparse = write_both(rt, alloc, sparse, &mut whole, write)?;
        check_bytes(rt, &sparse, &whole);
    }
    Ok(())
}

#[test]
fn has_the_bytes_of_a_whole_memory_or_lacks_memory(rt: HostRuntime) {
    let _ = write_all(&rt, rt.alloc());
}

#[test]
fn forgets_zeros(rt: HostRuntime) {
    let alloc = rt.alloc();
    let new = SparseMemory::new(alloc, SIZE, CLASS).expect(&rt, "no size of a board");
    let mut whole = ByteMemory::new(alloc, SIZE, CLASS).expect(&rt, "no memory");
    let written = SparseMemory::new(alloc, SIZE, CLASS).expect(&rt, "no size of a board");
    let written = write_both(&rt, alloc, written, &mut whole, (5, &[1, 2, 3, 4])).expect(
        &rt, "refused",
    );
    assert!(rt; !written.is_same(&new));
    let cleared = write_both(&rt, alloc, written, &mut whole, (5, &[0, 0, 0, 0])).expect(
        &rt, "refused",
    );
    assert!(rt; cleared.is_same(&new));
    assert!(rt; cleared.digest() == new.digest());
}

#[test]
fn has_the_sizes_of_boards(rt: HostRuntime) {
    for size in [0, 2, 6, 1_048_580] {
        assert!(rt; SparseMemory::new(rt.alloc(), size, CLASS).is_none());
    }
    assert!(rt; SparseMemory::new(rt.alloc(), 1_048_576, CLASS).is_some());
}
