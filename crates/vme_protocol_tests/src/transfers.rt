//! Transfers of one datum and more: the data that they show, and the rule that they break.
use crate::course::scope;
use std::process::Abort;
use vme_protocol::{Datum, Mode, Rule, Sample, Scope, Watch};

/// A handshake: WRITE*, DS1*, DS0*, and whether BERR* answers.
#[derive(Clone, Copy, Debug, PartialEq, Eq)]
struct Cycle(bool, bool, bool, bool);

const READ: Cycle = Cycle(true, false, false, false);

const WRITE: Cycle = Cycle(false, false, false, false);

const READ_ODD: Cycle = Cycle(true, true, false, false);

const READ_EVEN: Cycle = Cycle(true, false, true, false);

const WRITE_ODD: Cycle = Cycle(false, true, false, false);

const ERROR: Cycle = Cycle(true, false, false, true);

/// Transfers by code, A31 to A01 with LWORD* as the lowest bit, and cycles; the addresses and lengths of
/// their data, or the rule that they break.
static TRANSFERS: [(u8, u32, &[Cycle], &[(u32, u8)], Option<Rule>); 24] = [
    (0x09, 0x1000, &[READ], &[(0x1000, 4)], None),
    (0x09, 0x1001, &[READ], &[(0x1000, 2)], None),
    (0x09, 0x1003, &[READ], &[(0x1002, 2)], None),
    (0x09, 0x1002, &[READ], &[(0x1001, 2)], None),
    (0x0d, 0x1000, &[READ_EVEN], &[(0x1000, 3)], None),
    (0x0e, 0x1000, &[READ_ODD], &[(0x1001, 3)], None),
    (0x29, 0xffff_1001, &[READ_EVEN], &[(0x1000, 1)], None),
    (0x39, 0xff12_1003, &[READ_ODD], &[(0x12_1003, 1)], None),
    (0x09, 0x1002, &[READ_ODD], &[], Some(Rule::Transfer)),
    (
        0x09,
        0x1001,
        &[READ_ODD, WRITE_ODD],
        &[(0x1001, 1), (0x1001, 1)],
        None,
    ),
    (
        0x09,
        0x1001,
        &[READ_ODD, READ_ODD],
        &[(0x1001, 1)],
        Some(Rule::Transfer),
    ),
    (
        0x09,
        0x1001,
        &[WRITE_ODD, WRITE_ODD],
        &[(0x1001, 1)],
        Some(Rule::Transfer),
    ),
    (
        0x09,
        0x1001,
        &[READ, WRITE_ODD],
        &[(0x1000, 2)],
        Some(Rule::Transfer),
    ),
    (
        0x09,
        0x1000,
        &[READ, WRITE, WRITE],
        &[(0x1000, 4), (0x1000, 4)],
        Some(Rule::Transfer),
    ),
    (
        0x09,
        0x1000,
        &[ERROR, WRITE],
        &[(0x1000, 4)],
        Some(Rule::Transfer),
    ),
    (
        0x0b,
        0x10f8,
        &[READ, READ],
        &[(0x10f8, 4), (0x10fc, 4)],
        None,
    ),
    (
        0x0b,
        0x10f8,
        &[READ, READ, READ],
        &[(0x10f8, 4), (0x10fc, 4)],
        Some(Rule::Transfer),
    ),
    (
        0x0b,
        0x1001,
        &[READ_EVEN, READ_ODD],
        &[(0x1000, 1), (0x1001, 1)],
        None,
    ),
    (
        0x0b,
        0x1001,
        &[READ_EVEN, READ_EVEN],
        &[(0x1000, 1)],
        Some(Rule::Transfer),
    ),
    (0x0b, 0x1000, &[READ_EVEN], &[], Some(Rule::Transfer)),
    (
        0x0b,
        0x1000,
        &[READ, WRITE],
        &[(0x1000, 4)],
        Some(Rule::Transfer),
    ),
    (0x0c, 0x17f8, &[READ, READ], &[(0x17f8, 8)], None),
    (
        0x0c,
        0x17f8,
        &[READ, READ, READ],
        &[(0x17f8, 8)],
        Some(Rule::Transfer),
    ),
    (0x08, 0x1000, &[ERROR], &[(0x1000, 8)], None),
];

/// Takes a sample, and notes its datum.
fn take(
    watch: &mut Watch,
    s: &Sample,
    data: &[(u32, u8)],
    count: &mut usize,
) -> Result<bool, Rule> {
    let Some(datum) = watch.push(s)? else {
        return Ok(true);
    };
    let Datum { addr, len, .. } = datum;
    let is_next = match data.get(*count) {
        Some(next) => *next == (addr, len),
        None => false,
    };
    *count = count.saturating_add(1);
    Ok(is_next)
}

/// The lines at rest, with the names of a transfer.
fn named(am: u8, lines: u32) -> Sample {
    Sample {
        am,
        am_undefined: false,
        write_undefined: false,
        lines: u64::from(lines) * 0x1_0000_0000,
        lines_undefined: 0,
        ..Sample::rest()
    }
}

/// The samples of a cycle under AS*.
fn samples_of(open: Sample, cycle: Cycle) -> [Sample; 5] {
    let Cycle(write, ds1, ds0, berr) = cycle;
    let ready = Sample { write, ..open };
    let low = Sample { ds1, ds0, ..ready };
    let answered = Sample {
        dtack: berr,
        berr: !berr,
        lines_undefined: if berr { 0xffff_ffff } else { 0 },
        ..low
    };
    let high = Sample {
        ds1: true,
        ds0: true,
        ..answered
    };
    [ready, low, answered, high, ready]
}

/// Takes the samples of a cycle, and returns whether its data are the next ones of a list.
fn take_cycle(
    watch: &mut Watch,
    samples: &[Sample; 5],
    data: &[(u32, u8)],
    count: &mut usize,
) -> Result<bool, Rule> {
    let mut are_next = true;
    for s in samples {
        are_next = take(watch, s, data, count)? && are_next;
    }
    Ok(are_next)
}

/// Runs a transfer: returns whether its data are the next ones of a list.
fn run(
    name: Sample,
    cycles: &[Cycle],
    data: &[(u32, u8)],
    count: &mut usize,
) -> Result<bool, Rule> {
    let open = Sample {
        address_strobe: false,
        ..name
    };
    let mut watch = Watch::new(lone_scope(), Sample::rest());
    let mut are_next = take(&mut watch, &name, data, count)?;
    are_next = take(&mut watch, &open, data, count)? && are_next;
    for cycle in cycles {
        let samples = samples_of(open, *cycle);
        are_next = take_cycle(&mut watch, &samples, data, count)? && are_next;
    }
    are_next = take(&mut watch, &name, data, count)? && are_next;
    Ok(are_next)
}

/// The scope of a trace without BBSY* and grants.
fn lone_scope() -> Scope {
    Scope {
        busy: false,
        drivers: false,
        grants: false,
        ..scope(Mode::Model)
    }
}

#[test]
fn transfers_show_their_data(rt: HostRuntime) {
    for (am, lines, cycles, data, rule) in &TRANSFERS {
        let mut count = 0;
        let ran = run(named(*am, *lines), cycles, data, &mut count);
        let expected = match rule {
            Some(rule) => Err(*rule),
            None => Ok(true),
        };
        assert!(rt; ran == expected, "{am:02x} {lines:08x}: {ran:?}");
        assert!(rt; count == data.len(), "{am:02x} {lines:08x}: {count} data");
    }
}
