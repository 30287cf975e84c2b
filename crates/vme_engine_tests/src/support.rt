//! What the tests of the engines share: a run of an engine over bytes in memory, texts by their
//! parts, and an input of each engine with its text.
ghost use Rattle.std.specs.Prelude.{◌≡◌, false};

use std::alloc::{AllocError, Global};
use std::process::Abort;
use std::sync::Wait;
use std::thread::Threads;
use vme_engines::{ProgramFault, Status, cycles_engine};
use vme_io::{RoomSink, Sink, SliceSource, Source};
use vme_run::{run_engine, step_engine};

/// An engine of the program.
#[derive(Clone, Copy, Debug)]
pub enum Engine {
    Cycles,
    Step,
    Run,
}

/// Runs an engine.
pub fn run<T: Threads + Wait + Sync, R: Source, W: Sink>(
    rt: &T,
    alloc: Global,
    engine: Engine,
    reader: &mut R,
    writer: &mut W,
) -> Result<Status, ProgramFault>
    requires reader { R.is_marked reader.old ≡ false }
    requires writer { W.is_marked writer.old ≡ false }
{
    match engine {
        Engine::Cycles => cycles_engine(alloc, reader, writer),
        Engine::Step => step_engine(alloc, reader, writer),
        Engine::Run => run_engine(rt, alloc, reader, writer),
    }
}

/// Runs an engine over an input. Returns how the run ends, and the sink with what it wrote.
pub fn run_on<T: Threads + Wait + Sync>(
    rt: &T,
    alloc: Global,
    engine: Engine,
    input: &[u8],
) -> Result<(Result<Status, ProgramFault>, RoomSink), AllocError> {
    let mut source = SliceSource::new(input, usize::MAX, usize::MAX);
    let mut sink = RoomSink::new(alloc, usize::MAX, 131_072)?;
    let end = run(rt, alloc, engine, &mut source, &mut sink);
    Ok((end, sink))
}

/// Runs an engine over an input, and checks the status and the text that it writes.
pub fn check<T: Threads + Wait + Abort + Sync>(
    rt: &T,
    alloc: Global,
    engine: Engine,
    input: &str,
    text: &str,
    status: Status,
) {
    let (end, sink) = run_on(rt, alloc, engine, input.as_bytes()).expect(rt, "no memory");
    assert_eq!(rt; end, Ok(status), "{input}");
    assert_eq!(rt; sink.bytes(), text.as_bytes(), "{input}");
}

/// A text by its parts, each with the number of times that it is repeated.
pub type Parts<'a> = &'a [(&'static str, usize)];

/// Returns a text of these parts.
pub fn text_of(alloc: Global, parts: Parts<'_>) -> Result<String, AllocError> {
    let mut text = String::new(alloc);
    for (part, times) in parts {
        for _ in 0..*times {
            text.push_str(part)?;
        }
    }
    Ok(text)
}

/// An input of an engine, and its output, which is the same in every run.
#[derive(Clone, Copy)]
pub struct Row {
    pub engine: Engine,
    pub input: &'static str,
    pub text: &'static str,
}

/// One row for each engine.
pub static ROWS: [Row; 3] = [
    // Four bytes written at once, and read one by one.
    Row {
        engine: Engine::Cycles,
        input: "w 0d 00000004 01020304
r 0d 00000004 1
r 0d 00000005 1
r 0d 00000006 1
r 0d 00000007 1
",
        text: "am=0d a=00000004 ds1=0 ds0=0 a01=0 lword=0 write=0 data=01020304
done
am=0d a=00000004 ds1=0 ds0=1 a01=0 lword=1 write=1 data=----01--
read 01
am=0d a=00000004 ds1=1 ds0=0 a01=0 lword=1 write=1 data=------02
read 02
am=0d a=00000004 ds1=0 ds0=1 a01=1 lword=1 write=1 data=----03--
read 03
am=0d a=00000004 ds1=1 ds0=0 a01=1 lword=1 write=1 data=------04
read 04
",
    },
    // A write by the local port between two data of a block.
    Row {
        engine: Engine::Step,
        input: "schedule = [[2, 2], [1, 1], [2, 2]]
[[board]]
slot = 1
base = 0
size = 16
script = \"lw 00000004 aabbccdd\"
[[board]]
slot = 2
base = 0x1000
size = 16
script = \"br 0b 00000000 4 2\"
",
        text: "1:1 done
2:1 read 00000000aabbccdd
board 1 steps 3 made 1 2
board 2 steps 0 made 0 0
mem 1 00000000 00000000aabbccdd0000000000000000
",
    },
    // Two processors that write to different bytes of one board, so that the order of their writes
    // is not visible.
    Row {
        engine: Engine::Run,
        input: "[[board]]
slot = 1
base = 0
size = 16
script = '''
w 09 00000000 01
w 09 00000001 02'''
[[board]]
slot = 2
base = 0x1000
size = 16
script = '''
w 09 00000004 03
w 09 00000005 04'''
",
        text: "1:1 done
1:2 done
2:1 done
2:2 done
board 1 steps 4 made 2 2
board 2 steps 0 made 0 0
mem 1 00000000 01020000030400000000000000000000
",
    },
];

/// Returns the row for `vme step`.
pub fn torn_block() -> &'static Row {
    &ROWS[1]
}

/// Returns the row for `vme run`.
pub fn two_writers() -> &'static Row {
    &ROWS[2]
}
