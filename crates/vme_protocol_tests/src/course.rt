//! A course of samples that breaks no rule: slot 1 takes the bus, writes a byte and reads it.
use vme_protocol::{Mode, Sample, Scope};

/// The number of samples.
pub const STEPS: usize = 19;

/// The scope of a trace that has all lines.
pub fn scope(mode: Mode) -> Scope {
    Scope {
        mode,
        busy: true,
        drivers: true,
        busy_line: true,
        grants: true,
        ignored: 1 << 0x2f,
        timeout: 100,
    }
}

/// Address 1000 and a high LWORD*, with a byte on D15 to D08.
const WITH_BYTE: u64 = 0x1001_0000_5a00;

/// The same, with zero on all data lines.
const WITH_ZERO: u64 = 0x1001_0000_0000;

const REST: Sample = Sample {
    time: 0,
    address_strobe: true,
    ds1: true,
    ds0: true,
    dtack: true,
    berr: true,
    iack: true,
    busy: true,
    undefined: false,
    write: true,
    write_undefined: true,
    am: 0,
    am_undefined: true,
    lines: 0,
    lines_undefined: u64::MAX,
    drivers: 0,
    requests: 0,
    grants: 0,
};

const REQUESTED: Sample = Sample {
    time: 1,
    requests: 1,
    ..REST
};

const GRANTED: Sample = Sample {
    time: 2,
    grants: 1,
    ..REQUESTED
};

const TAKEN: Sample = Sample {
    time: 3,
    drivers: 1,
    busy: false,
    ..GRANTED
};

const HELD: Sample = Sample {
    time: 4,
    requests: 0,
    grants: 0,
    ..TAKEN
};

const ADDRESSED: Sample = Sample {
    time: 5,
    am: 0x09,
    am_undefined: false,
    write: false,
    write_undefined: false,
    lines: WITH_BYTE,
    lines_undefined: 0,
    ..HELD
};

const OPENED: Sample = Sample {
    time: 6,
    address_strobe: false,
    ..ADDRESSED
};

const STROBED: Sample = Sample {
    time: 7,
    ds1: false,
    ..OPENED
};

const WRITTEN: Sample = Sample {
    time: 8,
    dtack: false,
    ..STROBED
};

const RISEN: Sample = Sample {
    time: 9,
    ds1: true,
    ..WRITTEN
};

const ENDED: Sample = Sample {
    time: 10,
    dtack: true,
    address_strobe: true,
    ..RISEN
};

const AGAIN: Sample = Sample {
    time: 11,
    write: true,
    lines: WITH_ZERO,
    ..ENDED
};

const REOPENED: Sample = Sample {
    time: 12,
    address_strobe: false,
    ..AGAIN
};

const ASKED: Sample = Sample {
    time: 13,
    ds1: false,
    ..REOPENED
};

const WAITS: Sample = Sample { time: 14, ..ASKED };

const ANSWERED: Sample = Sample {
    time: 15,
    dtack: false,
    lines: WITH_BYTE,
    ..WAITS
};

const STANDS: Sample = Sample {
    time: 16,
    ..ANSWERED
};

const FOUND: Sample = Sample {
    time: 17,
    ds1: true,
    ..STANDS
};

const CLOSED: Sample = Sample {
    time: 18,
    dtack: true,
    address_strobe: true,
    ..FOUND
};

/// The course. Sample n has the time n.
pub static COURSE: [Sample; STEPS] = [
    REST, REQUESTED, GRANTED, TAKEN, HELD, ADDRESSED, OPENED, STROBED, WRITTEN, RISEN, ENDED,
    AGAIN, REOPENED, ASKED, WAITS, ANSWERED, STANDS, FOUND, CLOSED,
];
