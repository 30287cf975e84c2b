//! A port of a board's memory, called from one thread.
use crate::ports::{last_pass, open, reply_to};
use std::process::Abort;
use std::test::Fail;
use vme_lanes::Datum;
use vme_memory::{BoardCmd, ByteMemory, Class, Reply, Width8To32};
use vme_port::Unsettled;

const CLASS: Class = Class {
    width: Width8To32::D32,
    uat: true,
    blt: true,
    rmw: true,
};

#[test]
fn a_board_is_shared_by_two_passes(rt: HostRuntime) -> Result<(), Fail> {
    let Ok(board) = ByteMemory::new(rt.alloc(), 16, CLASS) else {
        panic!(&rt; "no memory")
    };
    let (port, mut passes) = open(&rt, rt.alloc(), board, 2);
    let bytes = Datum::try_from(&[0x7f][..]).unwrap_or_default();
    let write = BoardCmd::LocalWrite { offset: 0, bytes };
    let written = reply_to(&rt, &port, &mut passes, 0, &write);
    assert!(&rt; matches!(&written, Reply::Done));
    let read = BoardCmd::LocalRead { offset: 0, n: 1 };
    let Reply::Bytes(read) = reply_to(&rt, &port, &mut passes, 1, &read) else {
        panic!(&rt; "no bytes")
    };
    assert_eq!(&rt; read.as_slice(), &[0x7f][..]);
    let second = last_pass(&rt, &port, &mut passes);
    let Err(Unsettled { port, mut passes }) = port.settle(passes) else {
        panic!(&rt; "settled without a pass")
    };
    passes.push(second)?;
    let Ok((memory, count)) = port.settle(passes) else {
        panic!(&rt; "not settled")
    };
    assert_eq!(&rt; memory.byte(0), Some(0x7f));
    assert_eq!(&rt; count, 2);
    Ok(())
}
