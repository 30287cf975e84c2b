//! The numbers of bytes that lines read over the bus, and the buffers for them.
use std::process::Abort;
use std::test::Fail;
use vme_line_task::{ReadBuffers, line_read_len};
use vme_script::Script;

static LINES: &str = "r 09 00001000 4
w 09 00001000 aabb
br 0b 00001000 4 64
br 0b 00001000 4 65
bw 0b 00001000 2 00010002
m 09 00001000 2 add 0001
await 09 00001000 01
lr 00000000 4
";

/// The number of bytes that each line of `LINES` reads over the bus.
static LENGTHS: [usize; 8] = [4, 0, 256, 0, 0, 2, 0, 0];

/// Checks the number of bytes that each line of a script reads.
fn check_lengths(rt: &impl Abort, script: &Script) {
    assert_eq!(rt; script.len(), LENGTHS.len());
    for line in 0..script.len() {
        let length = line_read_len(script.line(line));
        assert_eq!(rt; Some(&length), LENGTHS.get(line), "{line}");
    }
}

#[test]
fn lines_read_so_many_bytes(rt: HostRuntime) {
    let script = Script::read(rt.alloc(), LINES.as_bytes());
    check_lengths(&rt, &script.expect(&rt, "refused"));
}

#[test]
fn each_line_takes_its_buffer(rt: HostRuntime) -> Result<(), Fail> {
    let script = Script::read(rt.alloc(), b"r 09 00001000 4\nbr 0b 00001000 4 64\n")?;
    let mut buffers = ReadBuffers::new(rt.alloc(), &script)?;
    if script.len() != 2 {
        return Err(Fail::new("two lines"));
    }
    assert!(&rt; buffers.take().as_slice().is_empty());
    assert!(&rt; buffers.take().as_slice().is_empty());
    Ok(())
}
