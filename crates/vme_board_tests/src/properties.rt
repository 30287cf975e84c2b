//! Properties of every code, strobe pattern and byte location: lines make signals that show the
//! same lines, and bytes that are placed on data lanes are picked again.
use crate::support::datum;
use std::process::Abort;
use vme_am::Am;
use vme_cycle::{Plan, Request, Signals};
use vme_lanes::{DataLines, Datum, Location, Strobes, pick, place};

/// The address and the number of the bytes that a pattern of DS1*, DS0*, A01 and LWORD* selects,
/// by the table of byte locations. DS1* is bit 3 of a pattern's index, LWORD* is bit 0.
static SELECTED: [Option<(u8, u8)>; 16] = [
    Some((0, 4)),
    Some((0, 2)),
    Some((1, 2)),
    Some((2, 2)),
    Some((0, 3)),
    Some((0, 1)),
    None,
    Some((2, 1)),
    Some((1, 3)),
    Some((1, 1)),
    None,
    Some((3, 1)),
    None,
    None,
    None,
    None,
];

fn strobes_of(pattern: u8) -> Strobes {
    Strobes {
        ds1: pattern & 8 != 0,
        ds0: pattern & 4 != 0,
        a01: pattern & 2 != 0,
        lword: pattern & 1 != 0,
    }
}

/// What signals show: the code, the address, the strobes, the level of WRITE*, the data lanes, and
/// the first byte and the number of the bytes that the strobes select.
type Seen = (Am, u32, Strobes, bool, DataLines, (u8, u8));

fn shown(signals: &Signals) -> Seen {
    let location = signals.location();
    (
        signals.am(),
        signals.addr(),
        signals.strobes(),
        signals.write(),
        signals.lines(),
        (location.first(), location.len()),
    )
}

/// Checks that signals of these lines show the same lines, and select the bytes of the table, if
/// any.
fn check_lines(rt: &impl Abort, am: Am, addr: u32, pattern: u8, write: bool) {
    let strobes = strobes_of(pattern);
    let lines = DataLines::of([Some(pattern); 8]);
    assert!(rt; addr % 4 == 0 && u64::from(addr) < am.space().addresses());
    let made = Signals::from_lines(am, addr, strobes, write, lines);
    let selected = SELECTED.get(usize::from(pattern)).expect(rt, "no pattern");
    match (made, *selected) {
        (None, None) => {}
        (Some(signals), Some(selected)) => assert_eq!(rt;
            shown(&signals),
            (am, addr, strobes, write, lines, selected)
        ),
        (made, _) => panic!(rt; "{pattern}: {made:?}"),
    }
}

/// Checks the signals of all patterns, with a code and an address.
fn check_patterns(rt: &impl Abort, am: Am, addr: u32) {
    for pattern in 0..16u8 {
        check_lines(rt, am, addr, pattern, true);
        check_lines(rt, am, addr, pattern, false);
    }
}

#[test]
fn signals_show_the_lines_that_they_are_made_of(rt: HostRuntime) {
    let mut codes = 0u8;
    for code in 0..64u8 {
        if let Ok(am) = Am::from_code(code) {
            codes = codes.wrapping_add(1);
            for group in 0..4u32 {
                check_patterns(&rt, am, 4 * group);
            }
        }
    }
    assert_eq!(&rt; codes, 18);
}

static PUT: [u8; 4] = [0xa1, 0xb2, 0xc3, 0xd4];

/// Returns whether a code is one of single transfers.
fn is_single(code: u8) -> bool {
    match Am::from_code(code) {
        Ok(am) => !am.kind().is_block(),
        Err(_) => false,
    }
}

/// Returns the number of cycles of a request, whether it reads, and the signals of its first cycle,
/// or `None` if it is refused.
fn planned(request: &Request) -> Option<(u16, bool, Signals)> {
    match Plan::of(request) {
        Ok(plan) => Some((plan.len(), plan.reads(), plan.signals(0))),
        Err(_) => None,
    }
}

/// Returns the bytes on the data lanes of a location, or none if one of these data lanes carries
/// nothing.
fn carried(location: Location, lines: DataLines) -> Datum {
    if lines.carries(location) {
        pick(location, lines)
    } else {
        Datum::new()
    }
}

/// Checks that the data lanes carry nothing in a read, and `bytes` in a write.
fn check_data(rt: &impl Abort, signals: Signals, reads: bool, bytes: &[u8]) {
    let lines = signals.lines();
    if reads {
        assert_eq!(rt; lines, DataLines::idle());
    } else {
        assert_eq!(rt; carried(signals.location(), lines).as_slice(), bytes);
    }
}

/// Checks that a request has signals exactly if its code is one of single transfers and one cycle
/// has its bytes, and that the signals then show what the request asks for.
fn check_request(rt: &impl Abort, request: &Request, code: u8, addr: u32, bytes: &[u8]) {
    let location = Location::of(addr, bytes.len().min(255) as u8);
    let wanted = is_single(code) && location.is_some();
    let Some((len, reads, signals)) = planned(request) else {
        assert!(rt; !wanted, "{code:02x} {addr:x}");
        return;
    };
    assert!(rt; wanted, "{code:02x} {addr:x}");
    assert_eq!(rt;
        (
            len,
            signals.am().code(),
            signals.addr(),
            Location::sense(signals.strobes()),
            signals.write()
        ),
        (1, code, addr - addr % 4, location, reads)
    );
    check_data(rt, signals, reads, bytes);
}

/// Checks a read and a write of the first `n` bytes of `PUT`, at most four.
fn check_transfers(rt: &impl Abort, am: u8, addr: u32, n: u8) {
    assert!(rt; n <= 4);
    let bytes = &PUT[..usize::from(n)];
    check_request(rt, &Request::Read { am, addr, n }, am, addr, bytes);
    let write = Request::Write {
        am,
        addr,
        bytes: datum(bytes),
    };
    check_request(rt, &write, am, addr, bytes);
}

#[test]
fn signals_show_what_a_request_asks_for(rt: HostRuntime) {
    for am in 0..64u8 {
        for addr in 0x40..0x44u32 {
            for n in 1..=4u8 {
                check_transfers(&rt, am, addr, n);
            }
        }
    }
}

/// By location, the bytes on the data lanes from D31-D24 to D07-D00 if its bytes are `PUT`, by the
/// table of byte locations. A data lane that carries nothing is zero.
static LANES: [(Location, [u8; 4]); 10] = [
    (Location::Byte0, [0, 0, 0xa1, 0]),
    (Location::Byte1, [0, 0, 0, 0xa1]),
    (Location::Byte2, [0, 0, 0xa1, 0]),
    (Location::Byte3, [0, 0, 0, 0xa1]),
    (Location::Bytes01, [0, 0, 0xa1, 0xb2]),
    (Location::Bytes23, [0, 0, 0xa1, 0xb2]),
    (Location::Bytes03, [0xa1, 0xb2, 0xc3, 0xd4]),
    (Location::Bytes02, [0xa1, 0xb2, 0xc3, 0]),
    (Location::Bytes13, [0, 0xa1, 0xb2, 0xc3]),
    (Location::Bytes12, [0, 0xa1, 0xb2, 0]),
];

/// Returns the bytes on the data lanes from D31-D24 to D07-D00, zero for one that carries nothing.
fn lower_lanes(lines: &DataLines) -> [u8; 4] {
    let [_, _, _, _, first, second, third, last] = lines.lanes();
    [
        first.unwrap_or(0),
        second.unwrap_or(0),
        third.unwrap_or(0),
        last.unwrap_or(0),
    ]
}

/// Checks that the first bytes of `PUT` are on these data lanes at a location, and are picked
/// again.
fn check_lanes(rt: &impl Abort, location: Location, lanes: [u8; 4]) {
    let len = usize::from(location.len());
    assert!(rt; len <= 4);
    let bytes = &PUT[..len];
    let lines = place(location, bytes);
    assert_eq!(rt; lower_lanes(&lines), lanes);
    assert_eq!(rt; carried(location, lines).as_slice(), bytes);
}

#[test]
fn placed_bytes_are_on_their_lanes_and_are_picked(rt: HostRuntime) {
    for (location, lanes) in &LANES {
        check_lanes(&rt, *location, *lanes);
    }
}
