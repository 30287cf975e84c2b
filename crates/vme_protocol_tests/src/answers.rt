//! The answers of two boards, J21 to J24, and refused allocations.
use std::alloc::Global;
use std::process::Abort;
use vme_am::Space;
use vme_answers::{Answers, BoardRule};
use vme_decode::{Entry, MapFault};
use vme_memory::{Class, Width8To32};
use vme_protocol::{Datum, Local, Rule};

/// What comes to the boards.
#[derive(Clone, Copy, Debug, PartialEq, Eq)]
enum Event {
    /// A datum of a transfer.
    Bus(Datum),
    /// An access by the local port of the first board.
    Port(Local),
    /// The first bytes of the first board may have changed unseen.
    Unseen,
}

/// Sixteen bytes of D32 with all cycles, and eight of D16 with single ones, for supervisors.
static BOARDS: [BoardRule; 2] = [
    BoardRule {
        entry: Entry {
            space: Space::A32,
            base: 0x1000,
            size: 16,
            supervisory: false,
        },
        class: Class {
            width: Width8To32::D32,
            uat: true,
            blt: true,
            rmw: true,
        },
    },
    BoardRule {
        entry: Entry {
            space: Space::A24,
            base: 0,
            size: 8,
            supervisory: true,
        },
        class: Class {
            width: Width8To32::D16,
            uat: false,
            blt: false,
            rmw: false,
        },
    },
];

/// A read of four bytes of the first board that DTACK* answers.
const QUAD: Datum = Datum {
    am: 0x09,
    base: 0x1000,
    first: 0x1000,
    index: 0,
    addr: 0x1000,
    len: 4,
    lane: 4,
    ds1: false,
    ds0: false,
    a01: false,
    lword: false,
    write: true,
    dtack: false,
    lines: 0x0102_0304,
};

/// A read of two bytes of the second board.
const PAIR: Datum = Datum {
    am: 0x3d,
    base: 4,
    first: 4,
    addr: 4,
    len: 2,
    lane: 6,
    lword: true,
    ..QUAD
};

const READ: Event = Event::Bus(QUAD);

const READ_OTHER: Event = Event::Bus(Datum {
    lines: 0x0102_0305,
    ..QUAD
});

const WRITE: Event = Event::Bus(Datum {
    write: false,
    ..QUAD
});

/// The write half of a read-modify-write.
const WRITE_HALF: Event = Event::Bus(Datum {
    write: false,
    index: 1,
    ..QUAD
});

/// A read and a write that BERR* answers.
const READ_ERROR: Event = Event::Bus(Datum {
    dtack: true,
    ..QUAD
});

const WRITE_ERROR: Event = Event::Bus(Datum {
    dtack: true,
    write: false,
    ..PAIR
});

/// The same address in a space without a board there.
const NO_BOARD: Event = Event::Bus(Datum { am: 0x39, ..QUAD });

/// The datum of a block past the end of the board.
const PAST_END: Event = Event::Bus(Datum {
    am: 0x0b,
    index: 4,
    addr: 0x1010,
    ..QUAD
});

/// A code that is not supervisory.
const USER_PAIR: Event = Event::Bus(Datum { am: 0x39, ..PAIR });

/// Local accesses to the first two bytes.
const PORT_READ: Local = Local {
    write: false,
    offset: 0,
    len: 2,
    data: 0x0102,
};

const PORT_WRITE: Local = Local {
    write: true,
    ..PORT_READ
};

/// The first event that breaks a rule, and the rule.
type First = Option<(usize, Rule)>;

/// Events, whether memory is zero at first, whether other boards may answer, and the first that breaks a
/// rule.
static EVENTS: [(&[Event], bool, bool, First); 24] = [
    (&[READ, READ, WRITE, READ], false, false, None),
    (&[READ], true, false, Some((0, Rule::WrongBytes))),
    (
        &[READ, READ_OTHER],
        false,
        false,
        Some((1, Rule::WrongBytes)),
    ),
    (
        &[WRITE, READ_OTHER],
        false,
        false,
        Some((1, Rule::WrongBytes)),
    ),
    (&[WRITE, Event::Port(PORT_READ)], false, false, None),
    (
        &[
            WRITE,
            Event::Port(Local {
                data: 0x0103,
                ..PORT_READ
            }),
        ],
        false,
        false,
        Some((1, Rule::WrongBytes)),
    ),
    (&[READ, Event::Unseen, READ_OTHER], false, false, None),
    (&[READ], true, true, Some((0, Rule::WrongBytes))),
    (&[Event::Unseen, READ], true, false, None),
    (&[READ_ERROR], false, false, Some((0, Rule::BusError))),
    (&[WRITE_ERROR], false, false, Some((0, Rule::BusError))),
    (
        &[Event::Bus(Datum {
            dtack: true,
            ..PAIR
        })],
        false,
        false,
        None,
    ),
    (&[Event::Bus(PAIR)], false, false, None),
    (&[NO_BOARD], false, false, Some((0, Rule::NoBoard))),
    (&[NO_BOARD], false, true, None),
    (&[PAST_END], false, true, Some((0, Rule::NoBoard))),
    (&[USER_PAIR], false, false, Some((0, Rule::NoBoard))),
    (
        &[Event::Bus(Datum {
            len: 4,
            lane: 4,
            lword: false,
            ..PAIR
        })],
        false,
        false,
        Some((0, Rule::NoBoard)),
    ),
    (
        &[Event::Bus(Datum { am: 0x3f, ..PAIR })],
        false,
        false,
        Some((0, Rule::NoBoard)),
    ),
    (&[READ, WRITE_HALF, READ], false, false, None),
    (
        &[READ, Event::Port(PORT_WRITE), WRITE_HALF],
        false,
        false,
        Some((2, Rule::TornModify)),
    ),
    (
        &[READ, Event::Port(PORT_READ), WRITE_HALF],
        false,
        false,
        None,
    ),
    (
        &[
            READ,
            Event::Port(Local {
                offset: 4,
                ..PORT_WRITE
            }),
            WRITE_HALF,
        ],
        false,
        false,
        None,
    ),
    (
        &[READ, Event::Port(PORT_WRITE), WRITE, READ],
        false,
        false,
        None,
    ),
];

/// Takes an event, and returns the rule that it breaks.
fn take(answers: &mut Answers, event: &Event) -> Result<(), Rule> {
    let taken = match event {
        Event::Bus(datum) => answers.take(datum),
        Event::Port(access) => answers.take_local(0, access),
        Event::Unseen => {
            answers.forget(0, 0, 4);
            Ok(())
        }
    };
    match taken {
        Ok(()) => Ok(()),
        Err(wrong) => Err(wrong.rule),
    }
}

/// The first event that breaks a rule.
///
/// # Errors
///
/// The map of the boards, or an allocation failed.
fn first_wrong(
    alloc: Global,
    events: &[Event],
    zero: bool,
    others: bool,
) -> Result<First, MapFault> {
    let mut answers = Answers::new(alloc, &BOARDS, &[], zero, others)?;
    for (at, event) in events.iter().enumerate() {
        if let Err(rule) = take(&mut answers, event) {
            return Ok(Some((at, rule)));
        }
    }
    Ok(None)
}

#[test]
fn answers_are_judged_or_lack_memory(rt: HostRuntime) {
    for (events, zero, others, expected) in &EVENTS {
        let found = first_wrong(rt.alloc(), events, *zero, *others);
        let is_right = found == Ok(*expected) || found == Err(MapFault::OutOfMemory);
        assert!(rt; is_right, "{events:?}: {found:?}");
    }
}

#[test]
fn addresses_select_their_boards(rt: HostRuntime) {
    let Ok(answers) = Answers::new(rt.alloc(), &BOARDS, &[], false, false) else {
        return;
    };
    assert!(rt; answers.board_at(0x09, 0x1004) == Some((0, 4)));
    assert!(rt; answers.board_at(0x3d, 0x04) == Some((1, 4)));
    assert!(rt; answers.board_at(0x39, 0x04) == None);
    assert!(rt; answers.board_at(0x09, 0x1010) == None);
    assert!(rt; answers.board_at(0x10, 0x1004) == None);
}
