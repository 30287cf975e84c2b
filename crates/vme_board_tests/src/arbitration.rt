//! The replies of the arbiter to commands in order.
use crate::support::reply;
use std::process::Abort;
use vme_arbiter::{ArbCmd, ArbReply, Arbiter, ArbiterKind};

/// Commands in order to one priority arbiter, each with its reply.
static CALLS: [(ArbCmd, ArbReply); 15] = [
    (ArbCmd::Ask { slot: 9, level: 0 }, ArbReply::Granted),
    (ArbCmd::Ask { slot: 5, level: 3 }, ArbReply::Waiting),
    (ArbCmd::Ask { slot: 1, level: 2 }, ArbReply::Waiting),
    (ArbCmd::Ask { slot: 2, level: 3 }, ArbReply::Waiting),
    (ArbCmd::Done { slot: 9 }, ArbReply::Freed),
    (ArbCmd::Look { slot: 1 }, ArbReply::Waiting),
    (ArbCmd::Look { slot: 5 }, ArbReply::Waiting),
    (ArbCmd::Look { slot: 2 }, ArbReply::Granted),
    (ArbCmd::Done { slot: 2 }, ArbReply::Freed),
    (ArbCmd::Look { slot: 5 }, ArbReply::Granted),
    (ArbCmd::Done { slot: 5 }, ArbReply::Freed),
    (ArbCmd::Look { slot: 1 }, ArbReply::Granted),
    (ArbCmd::Done { slot: 1 }, ArbReply::Freed),
    (ArbCmd::Done { slot: 1 }, ArbReply::Denied),
    (ArbCmd::Ask { slot: 22, level: 0 }, ArbReply::Denied),
];

/// Four slots request the bus, and the first has it at once. Then each holder gives the bus back,
/// and each slot that waits checks.
static ROTATING_CALLS: [(ArbCmd, ArbReply); 16] = [
    (ArbCmd::Ask { slot: 9, level: 3 }, ArbReply::Granted),
    (ArbCmd::Ask { slot: 1, level: 3 }, ArbReply::Waiting),
    (ArbCmd::Ask { slot: 2, level: 1 }, ArbReply::Waiting),
    (ArbCmd::Ask { slot: 3, level: 2 }, ArbReply::Waiting),
    (ArbCmd::Done { slot: 9 }, ArbReply::Freed),
    (ArbCmd::Look { slot: 1 }, ArbReply::Waiting),
    (ArbCmd::Look { slot: 2 }, ArbReply::Waiting),
    (ArbCmd::Look { slot: 3 }, ArbReply::Granted),
    (ArbCmd::Done { slot: 3 }, ArbReply::Freed),
    (ArbCmd::Look { slot: 1 }, ArbReply::Waiting),
    (ArbCmd::Look { slot: 2 }, ArbReply::Granted),
    (ArbCmd::Done { slot: 2 }, ArbReply::Freed),
    (ArbCmd::Look { slot: 1 }, ArbReply::Granted),
    (ArbCmd::Done { slot: 1 }, ArbReply::Freed),
    (ArbCmd::Ask { slot: 4, level: 0 }, ArbReply::Granted),
    (ArbCmd::Done { slot: 4 }, ArbReply::Freed),
];

/// The replies to checks by the three waiting slots, after the holder on level 3 gave the bus back.
/// They wait on the levels 3, 1 and 2.
fn second_holder(kind: ArbiterKind) -> [ArbReply; 3] {
    let mut arbiter = Arbiter::of(kind);
    for (cmd, _) in &ROTATING_CALLS[..5] {
        reply(&mut arbiter, cmd);
    }
    [1, 2, 3].map(|slot| reply(&mut arbiter, &ArbCmd::Look { slot }))
}

#[test]
fn the_kind_says_where_a_grant_begins(rt: HostRuntime) {
    let granted_to_one = [ArbReply::Granted, ArbReply::Waiting, ArbReply::Waiting];
    let granted_to_three = [ArbReply::Waiting, ArbReply::Waiting, ArbReply::Granted];
    assert_eq!(&rt; second_holder(ArbiterKind::Priority), granted_to_one);
    assert_eq!(&rt; second_holder(ArbiterKind::Rotating), granted_to_three);
}

/// Commands at the ends of the ranges of slots and levels.
static ENDS: [(ArbCmd, ArbReply); 11] = [
    (ArbCmd::Ask { slot: 0, level: 0 }, ArbReply::Denied),
    (ArbCmd::Ask { slot: 22, level: 3 }, ArbReply::Denied),
    (
        ArbCmd::Ask {
            slot: 65535,
            level: 3,
        },
        ArbReply::Denied,
    ),
    (ArbCmd::Ask { slot: 1, level: 4 }, ArbReply::Denied),
    (
        ArbCmd::Ask {
            slot: 1,
            level: 255,
        },
        ArbReply::Denied,
    ),
    (ArbCmd::Look { slot: 65535 }, ArbReply::Denied),
    (ArbCmd::Done { slot: 65535 }, ArbReply::Denied),
    (ArbCmd::Ask { slot: 21, level: 3 }, ArbReply::Granted),
    (ArbCmd::Ask { slot: 21, level: 3 }, ArbReply::Denied),
    (ArbCmd::Ask { slot: 1, level: 0 }, ArbReply::Waiting),
    (ArbCmd::Ask { slot: 1, level: 0 }, ArbReply::Denied),
];

#[test]
fn answers_commands_in_order(rt: HostRuntime) {
    for (mut arbiter, calls) in [
        (Arbiter::new(), &CALLS[..]),
        (Arbiter::rotating(), &ROTATING_CALLS[..]),
        (Arbiter::new(), &ENDS[..]),
        (Arbiter::rotating(), &ENDS[..]),
    ] {
        for (cmd, wanted) in calls {
            assert_eq!(&rt; reply(&mut arbiter, cmd), *wanted, "{cmd:?}");
        }
    }
}
