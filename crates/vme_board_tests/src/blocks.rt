//! Buffers and blocks of a few bytes and of many.
use std::alloc::Global;
use std::process::Abort;
use vme_cycle::{BLOCK_LIMIT, Block, BlockBuffer, BlockFault};

/// Checks the bytes of a block, and their number.
fn check_block(rt: &impl Abort, block: &Block, bytes: &[u8]) {
    assert_eq!(rt; block.as_slice(), bytes);
    assert_eq!(rt; block.len(), bytes.len());
}

/// Checks a buffer that allocates.
fn check_long(rt: &impl Abort, alloc: Global) {
    let Ok(mut long) = BlockBuffer::with_capacity(alloc, 48) else {
        panic!(rt; "no memory")
    };
    long.extend_from_slice(&[6; 40]);
    long.extend_from_slice(&[7; 8]);
    assert_eq!(rt; long.as_slice().len(), 48);
    long.clear();
    long.extend_from_slice(&[5; 48]);
    check_block(rt, &long.into_block(), &[5; 48]);
}

#[test]
fn a_buffer_keeps_what_is_pushed(rt: HostRuntime) {
    let mut short = BlockBuffer::new();
    short.extend_from_slice(&[1, 2, 3]);
    short.extend_from_slice(&[4]);
    assert_eq!(&rt; short.as_slice(), [1, 2, 3, 4].as_slice());
    check_block(&rt, &short.into_block(), &[1, 2, 3, 4]);
    check_long(&rt, rt.alloc());
}

/// Returns a block of these bytes.
fn block_of(rt: &impl Abort, alloc: Global, bytes: &[u8]) -> Block {
    Block::from_slice(alloc, bytes).expect(rt, "no block")
}

/// Checks whether two blocks are equal.
fn check_equal(rt: &impl Abort, one: &Block, other: &Block, wanted: bool) {
    assert!(rt; (*one == *other) == wanted);
}

#[test]
fn blocks_are_equal_by_their_bytes(rt: HostRuntime) {
    let bytes = [7; 100];
    let one = block_of(&rt, rt.alloc(), &bytes);
    check_equal(&rt, &one, &block_of(&rt, rt.alloc(), &bytes), true);
    check_equal(&rt, &one, &block_of(&rt, rt.alloc(), &bytes[1..]), false);
    check_equal(&rt, &block_of(&rt, rt.alloc(), &[]), &Block::new(), true);
}

#[test]
fn a_block_has_at_most_2048_bytes(rt: HostRuntime) {
    let bytes = [0; BLOCK_LIMIT + 1];
    let fits = Block::from_slice(rt.alloc(), &bytes[1..]).is_ok();
    let fault = Block::from_slice(rt.alloc(), &bytes).err();
    assert_eq!(&rt; (fits, fault), (true, Some(BlockFault::TooLong)));
}
