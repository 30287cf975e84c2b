//! One line edited in some samples of the course, and the verdict on the whole.
use crate::course::{COURSE, STEPS, scope};
use std::process::Abort;
use vme_protocol::{Mode, Rule, Sample, Scope, Verdict, judge};

/// A line with the level or the levels that it gets.
#[derive(Clone, Copy, Debug, PartialEq, Eq)]
enum Edit {
    AddressStrobe(bool),
    Ds1(bool),
    Ds0(bool),
    Dtack(bool),
    Berr(bool),
    Iack(bool),
    Busy(bool),
    Write(bool),
    Undefined,
    WriteUndefined,
    AmUndefined,
    Am(u8),
    Lines(u64),
    LinesUndefined(u64),
    Drivers(u32),
    Requests(u32),
    Grants(u32),
    Time(u64),
}

/// Returns a sample with a line edited.
fn edited(edit: Edit, s: Sample) -> Sample {
    match edit {
        Edit::AddressStrobe(address_strobe) => Sample {
            address_strobe,
            ..s
        },
        Edit::Ds1(ds1) => Sample { ds1, ..s },
        Edit::Ds0(ds0) => Sample { ds0, ..s },
        Edit::Dtack(dtack) => Sample { dtack, ..s },
        Edit::Berr(berr) => Sample { berr, ..s },
        Edit::Iack(iack) => Sample { iack, ..s },
        Edit::Busy(busy) => Sample { busy, ..s },
        Edit::Write(write) => Sample { write, ..s },
        Edit::Undefined => Sample {
            undefined: true,
            ..s
        },
        Edit::WriteUndefined => Sample {
            write_undefined: true,
            ..s
        },
        Edit::AmUndefined => Sample {
            am_undefined: true,
            ..s
        },
        Edit::Am(am) => Sample { am, ..s },
        Edit::Lines(lines) => Sample { lines, ..s },
        Edit::LinesUndefined(lines_undefined) => Sample {
            lines_undefined,
            ..s
        },
        Edit::Drivers(drivers) => Sample { drivers, ..s },
        Edit::Requests(requests) => Sample { requests, ..s },
        Edit::Grants(grants) => Sample { grants, ..s },
        Edit::Time(time) => Sample { time, ..s },
    }
}

/// The first and the last sample that are edited, the edit, and the sample and rule by which both
/// modes find it.
static BROKEN: [(usize, usize, Edit, usize, Rule); 37] = [
    (1, 1, Edit::Undefined, 1, Rule::Undefined),
    (6, 10, Edit::AmUndefined, 6, Rule::Undefined),
    (
        6,
        6,
        Edit::LinesUndefined(0x2_0000_0000),
        6,
        Rule::Undefined,
    ),
    (7, 7, Edit::WriteUndefined, 7, Rule::Undefined),
    (8, 8, Edit::LinesUndefined(0x100), 8, Rule::Undefined),
    (6, 6, Edit::LinesUndefined(0x8000), 8, Rule::Undefined),
    (16, 16, Edit::LinesUndefined(0x8000), 17, Rule::Undefined),
    (5, 10, Edit::Am(0x10), 8, Rule::CodeUnknown),
    (5, 10, Edit::Am(0x00), 8, Rule::CodeUnknown),
    (5, 10, Edit::Busy(true), 5, Rule::TwoHolders),
    (6, 9, Edit::AddressStrobe(true), 7, Rule::LoneStrobe),
    (
        14,
        14,
        Edit::AddressStrobe(true),
        14,
        Rule::AddressStrobeRises,
    ),
    (6, 10, Edit::Am(0x0d), 6, Rule::AddressChanges),
    (
        6,
        10,
        Edit::Lines(0x1003_0000_5a00),
        6,
        Rule::AddressChanges,
    ),
    (
        7,
        10,
        Edit::Lines(0x1000_0000_5a00),
        7,
        Rule::AddressChanges,
    ),
    (8, 8, Edit::Am(0x0d), 8, Rule::AddressChanges),
    (7, 9, Edit::Write(true), 7, Rule::DataChange),
    (8, 9, Edit::Write(true), 8, Rule::DataChange),
    (7, 10, Edit::Lines(0x1001_0000_5b00), 7, Rule::DataChange),
    (8, 10, Edit::Lines(0x1001_0000_5b00), 8, Rule::DataChange),
    (6, 7, Edit::Dtack(false), 6, Rule::AnswerAlone),
    (6, 6, Edit::Berr(false), 6, Rule::AnswerAlone),
    (8, 9, Edit::Dtack(true), 9, Rule::StrobeRises),
    (9, 9, Edit::Ds0(false), 9, Rule::StrobeRises),
    (16, 16, Edit::Ds0(false), 16, Rule::StrobeRises),
    (8, 8, Edit::Berr(false), 8, Rule::TwoAnswers),
    (16, 17, Edit::Berr(false), 16, Rule::TwoAnswers),
    (16, 17, Edit::Dtack(true), 16, Rule::AnswerRises),
    (5, 10, Edit::Lines(0x1002_0000_5a00), 8, Rule::Transfer),
    (6, 8, Edit::Drivers(3), 6, Rule::TwoHolders),
    (5, 5, Edit::Drivers(0), 5, Rule::TwoHolders),
    (1, 2, Edit::Requests(0), 3, Rule::Grant),
    (2, 2, Edit::Grants(0), 3, Rule::Grant),
    (2, 4, Edit::Grants(3), 3, Rule::Grant),
    (8, 8, Edit::Grants(1), 8, Rule::Grant),
    (8, 18, Edit::Time(108), 8, Rule::Timeout),
    (3, 18, Edit::Busy(true), 3, Rule::TwoHolders),
];

/// Edits that break no rule in either mode.
static LEGAL: [(usize, usize, Edit); 14] = [
    (5, 5, Edit::WriteUndefined),
    (10, 10, Edit::AmUndefined),
    (9, 11, Edit::LinesUndefined(0xffff)),
    (6, 10, Edit::LinesUndefined(0xff)),
    (7, 10, Edit::Lines(0x1001_0000_5aff)),
    (12, 13, Edit::Lines(0x1001_00ff_ff00)),
    (10, 10, Edit::Dtack(false)),
    (2, 2, Edit::Requests(3)),
    (1, 18, Edit::Time(107)),
    (5, 18, Edit::Am(0x0d)),
    (5, 18, Edit::Am(0x2f)),
    (5, 18, Edit::Iack(false)),
    (5, 10, Edit::Lines(0x1003_0000_5a00)),
    (18, 18, Edit::Dtack(true)),
];

/// Edits that the rules of the bus allow, and those of the model do not.
static MODEL: [(usize, usize, Edit, usize, Rule); 5] = [
    (
        8,
        10,
        Edit::AddressStrobe(true),
        8,
        Rule::AddressStrobeRises,
    ),
    (10, 12, Edit::Dtack(false), 12, Rule::AddressStrobeFalls),
    (9, 10, Edit::Am(0x0d), 9, Rule::AddressChanges),
    (16, 16, Edit::Lines(0x1001_0000_5b00), 16, Rule::DataChange),
    (
        16,
        18,
        Edit::AddressStrobe(true),
        16,
        Rule::AddressStrobeRises,
    ),
];

/// Edits that both find by the rules of the bus, in a trace that has the BBSY* of the bus alone.
static LINE: [(usize, usize, Edit, usize, Rule); 3] = [
    (6, 6, Edit::Busy(true), 6, Rule::AddressStrobeFalls),
    (10, 13, Edit::Dtack(false), 13, Rule::StrobeUnderAnswer),
    (12, 18, Edit::Busy(true), 12, Rule::AddressStrobeFalls),
];

/// Returns a course with a line edited from one sample to another.
fn course_with(course: &[Sample; STEPS], first: usize, last: usize, edit: Edit) -> [Sample; STEPS] {
    let mut samples = *course;
    for (at, sample) in samples.iter_mut().enumerate() {
        if first <= at && at <= last {
            *sample = edited(edit, *sample);
        }
    }
    samples
}

#[test]
fn the_course_breaks_no_rule(rt: HostRuntime) {
    for mode in [Mode::Bus, Mode::Model] {
        assert!(rt; judge(scope(mode), &COURSE) == Verdict::Legal);
    }
}

#[test]
fn each_rule_is_broken_alone(rt: HostRuntime) {
    for (first, last, edit, at, rule) in &BROKEN {
        let samples = course_with(&COURSE, *first, *last, *edit);
        for mode in [Mode::Bus, Mode::Model] {
            let verdict = judge(scope(mode), &samples);
            let expected = Verdict::Illegal {
                at: *at,
                rule: *rule,
            };
            assert!(rt; verdict == expected, "{edit:?} at {first}: {verdict:?}");
        }
    }
}

#[test]
fn what_the_bus_allows_breaks_no_rule(rt: HostRuntime) {
    for (first, last, edit) in &LEGAL {
        let samples = course_with(&COURSE, *first, *last, *edit);
        for mode in [Mode::Bus, Mode::Model] {
            let verdict = judge(scope(mode), &samples);
            assert!(rt;
                verdict == Verdict::Legal,
                "{edit:?} at {first}: {verdict:?}"
            );
        }
    }
}

#[test]
fn the_model_has_more_rules(rt: HostRuntime) {
    for (first, last, edit, at, rule) in &MODEL {
        let samples = course_with(&COURSE, *first, *last, *edit);
        let legal = judge(scope(Mode::Bus), &samples);
        assert!(rt; legal == Verdict::Legal, "{edit:?} at {first}: {legal:?}");
        let verdict = judge(scope(Mode::Model), &samples);
        let expected = Verdict::Illegal {
            at: *at,
            rule: *rule,
        };
        assert!(rt; verdict == expected, "{edit:?} at {first}: {verdict:?}");
    }
}

#[test]
fn the_line_of_the_bus_is_enough(rt: HostRuntime) {
    let scope = Scope {
        drivers: false,
        grants: false,
        ..scope(Mode::Bus)
    };
    for (first, last, edit, at, rule) in &LINE {
        let verdict = judge(scope, &course_with(&COURSE, *first, *last, *edit));
        let expected = Verdict::Illegal {
            at: *at,
            rule: *rule,
        };
        assert!(rt; verdict == expected, "{edit:?} at {first}: {verdict:?}");
    }
}
