//! What accesses show of bytes, and a refused allocation.
use std::alloc::Global;
use std::process::Abort;
use vme_known::{Access, Byte, KnownBytes};

/// Accesses to four bytes, of which the last is open, and whether they may come.
static ACCESSES: [(&[Access], bool); 6] = [
    (
        &[
            Access::Finds { at: 0, byte: 1 },
            Access::Finds { at: 0, byte: 1 },
        ],
        true,
    ),
    (
        &[
            Access::Finds { at: 0, byte: 1 },
            Access::Finds { at: 0, byte: 2 },
        ],
        false,
    ),
    (
        &[
            Access::Stores { at: 1, byte: 3 },
            Access::Finds { at: 1, byte: 4 },
        ],
        false,
    ),
    (
        &[
            Access::Finds { at: 1, byte: 4 },
            Access::Stores { at: 1, byte: 3 },
            Access::Finds { at: 1, byte: 3 },
        ],
        true,
    ),
    (
        &[
            Access::Stores { at: 3, byte: 3 },
            Access::Finds { at: 3, byte: 4 },
        ],
        true,
    ),
    (
        &[
            Access::Stores { at: 2, byte: 3 },
            Access::Finds { at: 0, byte: 4 },
        ],
        true,
    ),
];

/// Returns four bytes of which the last is open, or `None` if an allocation fails.
fn four(alloc: Global) -> Option<KnownBytes> {
    let mut known = KnownBytes::new(alloc, 4, Byte::Unseen).ok()?;
    if known.len() == 4 {
        known.make_open(3, 4);
    }
    Some(known)
}

/// Whether accesses to four bytes may come; `None` if an allocation fails.
fn may_come(alloc: Global, accesses: &[Access]) -> Option<bool> {
    let mut known = four(alloc)?;
    for access in accesses {
        let at = match access {
            Access::Finds { at, .. } | Access::Stores { at, .. } => *at,
        };
        if at >= known.len() || !known.take(*access) {
            return Some(false);
        }
    }
    Some(true)
}

#[test]
fn accesses_are_explained_or_not(rt: HostRuntime) {
    for (accesses, expected) in &ACCESSES {
        let may = may_come(rt.alloc(), accesses);
        assert!(rt; may == Some(*expected) || may.is_none(), "{may:?}");
    }
}
