//! Processors that add to one word: four of them, and one in each of the 21 slots.
use crate::runs::{Open, configured, expect_bytes, push_board, report_of};
use std::alloc::{AllocError, Global};
use std::process::Abort;
use std::sync::Wait;
use std::test::Fail;
use std::thread::Threads;
use vme_master::Outcome;
use vme_shared::LineReply;
use vme_threads::Report;

/// The number of times that each processor adds one, with a short script.
const FEW: u16 = 100;

/// The number of times that each processor adds one, with the longest script.
const MOST: u16 = 1000;

/// The offset of the word in its board.
const OFFSET: u32 = 16;

/// How the boards share the bus: the arbiter's kind, and the levels that the slots request on, in
/// rotation.
struct Bus {
    arbiter: &'static str,
    levels: [&'static str; 4],
}

/// A priority arbiter, with all slots on the highest level.
static BY_PRIORITY: Bus = Bus {
    arbiter: "arbiter = 'priority'\n",
    levels: ["", "", "", ""],
};

/// A rotating arbiter, with the slots spread over all levels.
static ROTATING: Bus = Bus {
    arbiter: "arbiter = 'rotating'\n",
    levels: ["level = 3\n", "level = 2\n", "level = 1\n", "level = 0\n"],
};

/// Returns a file of boards in the first `count` slots, each with `lines` lines that add.
fn boards(alloc: Global, bus: &Bus, count: u32, lines: u16) -> Result<String, AllocError> {
    let mut text = String::new(alloc);
    text.push_str(bus.arbiter)?;
    for number in 0..count {
        let level = bus.levels[number as usize % 4];
        let slot = number.wrapping_add(1);
        let base = number.wrapping_mul(0x1000);
        let keys = format!(in alloc; "slot = {slot}\nbase = {base}\nsize = 32\n{level}")?;
        push_board(
            &mut text,
            keys.as_str(),
            "m 09 00000010 4 add 00000001\n",
            usize::from(lines),
        )?;
    }
    Ok(text)
}

/// Returns the value of these bytes, most significant byte first.
fn number_of(bytes: &[u8]) -> u32 {
    let mut number = 0_u32;
    for byte in bytes {
        number = number.wrapping_mul(256).wrapping_add(u32::from(*byte));
    }
    number
}

/// Returns the old values that the lines of a report read, in ascending order.
fn found(alloc: Global, report: &Report) -> Result<Vec<u32>, AllocError> {
    let mut numbers = Vec::new(alloc);
    for lines in &report.lines {
        for (_, reply) in lines {
            if let LineReply::Transfer(Outcome::Old(bytes)) = reply {
                numbers.push(number_of(bytes.as_slice()))?;
            }
        }
    }
    numbers.sort()?;
    Ok(numbers)
}

/// Checks that the word's board made one step for each line, as many for each processor, that the
/// other boards made none, and that the arbiter made at least two for each line.
fn expect_steps(rt: &impl Abort, report: &Report, sum: u32, lines: u16) {
    let [board, others @ ..] = report.boards.as_slice() else {
        panic!(rt; "no board")
    };
    assert_eq!(rt; board.steps, u64::from(sum));
    for made in &board.made {
        assert_eq!(rt; *made, u64::from(lines));
    }
    for other in others {
        assert_eq!(rt; other.steps, 0);
    }
    let mut arbiter_steps = 0_u64;
    for made in &report.arbiter_made {
        assert!(rt; 2 * u64::from(lines) <= *made);
        arbiter_steps = arbiter_steps.wrapping_add(*made);
    }
    assert_eq!(rt; report.arbiter_steps, arbiter_steps);
}

/// Checks that the lines read each number below the final value once, and that the word has the
/// final value.
fn expect_sum(
    rt: &impl Abort,
    alloc: Global,
    report: &Report,
    word: [u8; 4],
    lines: u16,
) -> Result<(), AllocError> {
    let sum = number_of(word.as_slice());
    let numbers = found(alloc, report)?;
    assert_eq!(rt; numbers.len(), sum as usize);
    for (i, number) in numbers.iter().enumerate() {
        assert_eq!(rt; *number as usize, i);
    }
    expect_steps(rt, report, sum, lines);
    expect_bytes(rt, report, OFFSET, &word);
    Ok(())
}

/// Runs `count` boards that each add `lines` times, and checks the report against the final value.
fn add_up<R: Threads + Wait + Abort + Sync>(
    rt: &R,
    alloc: Global,
    bus: &Bus,
    count: u32,
    lines: u16,
    word: [u8; 4],
) -> Result<(), AllocError> {
    let file = boards(alloc, bus, count, lines)?;
    let config = configured(rt, alloc, file.as_str());
    let report = report_of(rt, alloc, &config, &Open);
    expect_sum(rt, alloc, &report, word, lines)
}

#[test]
fn four_boards_add(rt: HostRuntime) -> Result<(), Fail> {
    for (bus, lines, word) in [
        (&BY_PRIORITY, FEW, [0, 0, 0x01, 0x90]),
        (&BY_PRIORITY, MOST, [0, 0, 0x0f, 0xa0]),
        (&ROTATING, MOST, [0, 0, 0x0f, 0xa0]),
    ] {
        add_up(&rt, rt.alloc(), bus, 4, lines, word)?;
    }
    Ok(())
}

#[test]
fn a_board_in_each_slot_adds(rt: HostRuntime) -> Result<(), Fail> {
    for bus in [&BY_PRIORITY, &ROTATING] {
        add_up(&rt, rt.alloc(), bus, 21, FEW, [0, 0, 0x08, 0x34])?;
    }
    Ok(())
}
