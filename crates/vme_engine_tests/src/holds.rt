//! One processor is held before or after a line until the other has finished its script. The report
//! is the same at each of these points.
use crossbeam_utils::Backoff;
use std::alloc::Global;
use std::process::Abort;
use std::sync::Wait;
use std::sync::atomic::{AtomicBool, Ordering};
use std::thread::Threads;
use vme_io::RoomSink;
use vme_runner::{Gate, RunFault, Status, report_text, run_threads};
use vme_script::Config;

/// A file of two boards. Both processors write to the first board.
static TWO_BOARDS: &str = "[[board]]
slot = 1
base = 0
size = 16
script = \"\"\"
w 09 00000000 01
w 09 00000001 02
\"\"\"
[[board]]
slot = 2
base = 0x1000
size = 16
script = \"\"\"
w 09 00000004 03
w 09 00000005 04
\"\"\"
";

static REPORT: &str = "1:1 done
1:2 done
2:1 done
2:2 done
board 1 steps 4 made 2 2
board 2 steps 0 made 0 0
mem 1 00000000 01020000030400000000000000000000
";

/// The number of times that the held processor checks for the end of the other one's script.
const LOOKS: u32 = 10_000_000;

/// The number of the last line of both scripts.
const LAST_LINE: u16 = 2;

/// A gate that holds the processor of one slot at one point, until the other has finished its
/// script.
#[derive(Drop)]
struct Hold {
    slot: u16,
    line: u16,
    after: bool,
    through: AtomicBool,
    missed: AtomicBool,
}

impl Hold {
    fn at(slot: u16, line: u16, after: bool) -> Hold {
        Hold {
            slot,
            line,
            after,
            through: AtomicBool::new(false),
            missed: AtomicBool::new(false),
        }
    }

    fn reach(&self, slot: u16, line: u16, after: bool) {
        if slot != self.slot || line != self.line || after != self.after {
            return;
        }
        let backoff = Backoff::new();
        for _ in 0..LOOKS {
            if self.through.load(Ordering::SeqCst) {
                return;
            }
            backoff.snooze();
        }
        self.missed.store(true, Ordering::SeqCst);
    }
}

impl Gate for Hold {
    fn before(&self, slot: u16, line: u16) {
        self.reach(slot, line, false);
    }

    fn after(&self, slot: u16, line: u16) {
        if slot != self.slot && line == LAST_LINE {
            self.through.store(true, Ordering::SeqCst);
        }
        self.reach(slot, line, true);
    }
}

/// Holds one processor at one point, and checks the report's text.
fn check_hold<T: Threads + Wait + Abort + Sync>(
    rt: &T,
    alloc: Global,
    config: &Config,
    gate: &Hold,
) {
    let mut sink = RoomSink::new(alloc, usize::MAX, REPORT.len()).expect(rt, "no memory");
    let report = run_threads(rt, alloc, config, gate).expect(rt, "no report");
    assert_eq!(rt; report.lines.len(), report.boards.len());
    let end: Result<Status, RunFault> = report_text(alloc, &report, &mut sink);
    assert_eq!(rt; end, Ok(Status::Clean));
    assert_eq!(rt; sink.bytes(), REPORT.as_bytes());
    assert!(rt; !gate.missed.load(Ordering::SeqCst));
}

#[test]
fn each_hold_comes_to_the_same(rt: HostRuntime) {
    let config = Config::read(rt.alloc(), TWO_BOARDS.as_bytes());
    let config = config.expect(&rt, "refused");
    for slot in [1, 2] {
        for line in [1, LAST_LINE] {
            check_hold(&rt, rt.alloc(), &config, &Hold::at(slot, line, false));
            check_hold(&rt, rt.alloc(), &config, &Hold::at(slot, line, true));
        }
    }
}
