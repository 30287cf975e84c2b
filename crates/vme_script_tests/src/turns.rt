//! Runs by listed turns, and their reports.
use crate::support::{config_of, expect_prefix, expect_text, expect_text_or_refusal, sink_of};
use std::alloc::Global;
use std::process::Abort;
use vme_io::RoomSink;
use vme_script::Config;
use vme_shared::Status;
use vme_stepper::{run_configured, run_steps};

/// A refused line, a transfer and a local write, on a board of 16 bytes; a block on the other board.
static FILE: &str = "schedule = [[5, 1], [9, 2]]
rounds = 2
[[board]]
slot = 5
base = 0
size = 16
script = '''
r 10 00000000 1
# a comment has no line in the report

w 09 00001000 7f
lw 00000004 aabbccdd
r 07 00000000 1
'''
[[board]]
slot = 9
base = 0x1000
size = 16
script = 'br 0b 00000000 4 2'
";

/// The report after no turn.
static NONE: &str = "5:1 unfinished
5:4 unfinished
5:5 unfinished
5:6 unfinished
9:1 unfinished
board 5 steps 0 made 0 0
board 9 steps 0 made 0 0
";

/// The report after one turn of slot 5: the refused line has its reply, and the bus is requested.
static FIRST: &str = "5:1 refused K2
5:4 unfinished
5:5 unfinished
5:6 unfinished
9:1 unfinished
board 5 steps 0 made 0 0
board 9 steps 0 made 0 0
";

/// The report after the ends of both scripts: the block waits while the other processor holds the
/// bus.
static ALL: &str = "5:1 refused K2
5:4 done
5:5 done
5:6 refused K1
9:1 read 00000000aabbccdd
board 5 steps 3 made 1 2
board 9 steps 1 made 1 0
mem 5 00000000 00000000aabbccdd0000000000000000
mem 9 00000000 7f000000000000000000000000000000
";

/// The report after the file's own turns: slot 9's processor polls the arbiter three times before
/// the bus is free.
static OWN: &str = "5:1 refused K2
5:4 done
5:5 unfinished
5:6 unfinished
9:1 unfinished
board 5 steps 0 made 0 0
board 9 steps 1 made 1 0
mem 9 00000000 7f000000000000000000000000000000
";

/// Turns to the ends of both scripts. There is no board in slot 7, and the last line does not request
/// the bus.
static ALL_SLOTS: [u16; 11] = [5, 9, 5, 5, 9, 7, 5, 9, 9, 9, 5];

/// The turns that the file lists.
static OWN_SLOTS: [u16; 7] = [5, 9, 9, 5, 9, 5, 9];

/// Checks the report after some turns.
fn check_run(rt: &impl Abort, alloc: Global, config: &Config, slots: &[u16], text: &str) {
    let mut sink = sink_of(rt, alloc, usize::MAX, 1024);
    let end = run_steps(alloc, config, slots, &mut sink);
    expect_text(rt, end, Status::Marked, &sink, text);
}

#[test]
fn runs_slots_in_the_order_given(rt: HostRuntime) {
    let config = config_of(&rt, rt.alloc(), FILE);
    check_run(&rt, rt.alloc(), &config, &[], NONE);
    check_run(&rt, rt.alloc(), &config, &[5], FIRST);
    check_run(&rt, rt.alloc(), &config, &ALL_SLOTS, ALL);
    check_run(&rt, rt.alloc(), &config, &OWN_SLOTS, OWN);
}

#[test]
fn runs_the_turns_of_the_file(rt: HostRuntime) {
    let config = config_of(&rt, rt.alloc(), FILE);
    let mut sink = sink_of(&rt, rt.alloc(), usize::MAX, 1024);
    let end = run_configured(rt.alloc(), &config, &mut sink);
    expect_text(&rt, end, Status::Marked, &sink, OWN);
}

#[test]
fn writes_a_prefix_where_the_sink_fails(rt: HostRuntime) {
    let config = config_of(&rt, rt.alloc(), FILE);
    for capacity in 0..ALL.len() {
        let mut sink = sink_of(&rt, rt.alloc(), 7, capacity);
        let end = run_steps(rt.alloc(), &config, &ALL_SLOTS, &mut sink);
        expect_prefix(&rt, end, &sink, ALL, capacity);
    }
}

/// If an allocation fails, the run writes a prefix of the report.
#[test]
fn reports_or_lacks_memory(rt: HostRuntime) {
    let Ok(config) = Config::read(rt.alloc(), FILE.as_bytes()) else {
        return;
    };
    let Ok(mut sink) = RoomSink::new(rt.alloc(), usize::MAX, 1024) else {
        return;
    };
    let end = run_steps(rt.alloc(), &config, &ALL_SLOTS, &mut sink);
    expect_text_or_refusal(&rt, end, Status::Marked, &sink, ALL);
}
