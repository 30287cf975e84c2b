//! The accesses that local ports show between two samples, and J17.
use std::process::Abort;
use vme_protocol::{Local, Port, Rule, local_access};

/// A port that does nothing.
const IDLE: Port = Port {
    done: false,
    write: false,
    undefined: false,
    offset: 0,
    lanes: 0,
    data: 0,
};

/// A read of two bytes that is answered.
const READS: Port = Port {
    done: true,
    write: false,
    undefined: false,
    offset: 4,
    lanes: 3,
    data: 0x1234,
};

/// The same read.
const READ: Local = Local {
    write: false,
    offset: 4,
    len: 2,
    data: 0x1234,
};

/// The ports of two samples, and the access between them or the rule that is broken.
static PORTS: [(Port, Port, Result<Option<Local>, Rule>); 11] = [
    (IDLE, IDLE, Ok(None)),
    (IDLE, READS, Ok(Some(READ))),
    (READS, READS, Ok(None)),
    (READS, IDLE, Ok(None)),
    (
        IDLE,
        Port {
            write: true,
            lanes: 15,
            ..READS
        },
        Ok(Some(Local {
            write: true,
            len: 4,
            ..READ
        })),
    ),
    (
        IDLE,
        Port { lanes: 1, ..READS },
        Ok(Some(Local { len: 1, ..READ })),
    ),
    (
        IDLE,
        Port {
            undefined: true,
            ..READS
        },
        Err(Rule::PortUndefined),
    ),
    (IDLE, Port { lanes: 0, ..READS }, Err(Rule::PortUndefined)),
    (IDLE, Port { lanes: 2, ..READS }, Err(Rule::PortUndefined)),
    (IDLE, Port { lanes: 7, ..READS }, Err(Rule::PortUndefined)),
    (
        IDLE,
        Port {
            done: false,
            undefined: true,
            ..READS
        },
        Ok(None),
    ),
];

#[test]
fn ports_show_their_accesses(rt: HostRuntime) {
    for (before, after, expected) in &PORTS {
        let found = local_access(before, after);
        assert!(rt; found == *expected, "{after:?}: {found:?}");
    }
}
