//! Address maps: the entries that cycles select, and the refusals of maps.
use crate::support::{map_of, signals_of};
use std::alloc::{AllocError, Global};
use std::process::Abort;
use vme_am::Space;
use vme_cycle::Request;
use vme_decode::{AddressMap, Entry, MapFault};

/// Returns an entry that admits all codes.
fn entry(space: Space, base: u32, size: u32) -> Entry {
    Entry {
        space,
        base,
        size,
        supervisory: false,
    }
}

/// Returns the fault of some entries, or `None` if they make a map.
fn fault(alloc: Global, entries: &[Entry]) -> Option<MapFault> {
    AddressMap::new(alloc, entries).err()
}

/// One entry in each space. Only supervisory codes select the second.
static MIXED: [Entry; 3] = [
    Entry {
        space: Space::A32,
        base: 0,
        size: 4096,
        supervisory: false,
    },
    Entry {
        space: Space::A24,
        base: 0x20_0000,
        size: 64,
        supervisory: true,
    },
    Entry {
        space: Space::A16,
        base: 0xc000,
        size: 16,
        supervisory: false,
    },
];

/// Reads on the map of `MIXED`, by code, address and length, and what they select.
static BYTES: [(u8, u32, u8, Option<(usize, u32)>); 5] = [
    (0x39, 0x20_0004, 1, None),
    (0x3d, 0x20_0004, 1, Some((1, 4))),
    (0x29, 0xc00f, 1, Some((2, 15))),
    (0x2d, 0xc010, 1, None),
    (0x0e, 0x0000_0fff, 1, Some((0, 4095))),
];

/// Entries that are sorted neither by space nor by base. The last one covers nothing.
static UNSORTED: [Entry; 4] = [
    Entry {
        space: Space::A32,
        base: 0x2000,
        size: 16,
        supervisory: false,
    },
    Entry {
        space: Space::A32,
        base: 0x1000,
        size: 16,
        supervisory: false,
    },
    Entry {
        space: Space::A24,
        base: 0x1000,
        size: 16,
        supervisory: false,
    },
    Entry {
        space: Space::A32,
        base: 0x1008,
        size: 0,
        supervisory: false,
    },
];

/// Reads on the map of `UNSORTED`, by code, address and length, and what they select.
static PLACES: [(u8, u32, u8, Option<(usize, u32)>); 5] = [
    (0x09, 0x1008, 1, Some((1, 8))),
    (0x39, 0x1008, 1, Some((2, 8))),
    (0x09, 0x200f, 1, Some((0, 15))),
    (0x09, 0x1010, 1, None),
    (0x09, 0x0fff, 1, None),
];

/// Entries of a few bytes, one of them at the end of the space.
static SMALL: [Entry; 4] = [
    Entry {
        space: Space::A32,
        base: 4,
        size: 2,
        supervisory: false,
    },
    Entry {
        space: Space::A32,
        base: 8,
        size: 0,
        supervisory: false,
    },
    Entry {
        space: Space::A32,
        base: 8,
        size: 4,
        supervisory: false,
    },
    Entry {
        space: Space::A32,
        base: 0xffff_fffc,
        size: 4,
        supervisory: false,
    },
];

/// Reads on the map of `SMALL`, by code, address and length, and what their first byte selects.
static READS: [(u8, u32, u8, Option<(usize, u32)>); 9] = [
    (0x09, 3, 1, None),
    (0x09, 4, 4, Some((0, 0))),
    (0x09, 5, 1, Some((0, 1))),
    (0x09, 5, 3, Some((0, 1))),
    (0x09, 6, 2, None),
    (0x09, 8, 4, Some((2, 0))),
    (0x09, 11, 1, Some((2, 3))),
    (0x09, 12, 4, None),
    (0x09, 0xffff_ffff, 1, Some((3, 3))),
];

/// Reads by code, address and length, each with the index of the selected entry and the offset.
type Reads = &'static [(u8, u32, u8, Option<(usize, u32)>)];

/// Checks what a read selects.
fn check_read(
    rt: &impl Abort,
    map: &AddressMap,
    am: u8,
    addr: u32,
    n: u8,
    place: Option<(usize, u32)>,
) {
    let signals = signals_of(rt, &Request::Read { am, addr, n });
    assert_eq!(rt; map.select(&signals), place, "{am:02x} {addr:x} {n}");
}

/// Checks what some reads select on a map of these entries.
fn check_reads(rt: &impl Abort, alloc: Global, entries: &[Entry], reads: Reads) {
    let map = map_of(rt, alloc, entries);
    for (am, addr, n, place) in reads {
        check_read(rt, &map, *am, *addr, *n, *place);
    }
}

#[test]
fn the_first_byte_selects_by_space_range_and_privilege(rt: HostRuntime) {
    check_reads(&rt, rt.alloc(), &MIXED, &BYTES);
    check_reads(&rt, rt.alloc(), &UNSORTED, &PLACES);
    check_reads(&rt, rt.alloc(), &SMALL, &READS);
}

/// Entries by space, base and size, and the fault of their map.
static MAPS: [(&[(Space, u32, u32)], Option<MapFault>); 13] = [
    (&[], None),
    (&[(Space::A16, 0xfffc, 8)], Some(MapFault::OutsideSpace)),
    (&[(Space::A16, 0xfffc, 4)], None),
    (&[(Space::A32, 6, 4)], Some(MapFault::Misaligned)),
    (
        &[(Space::A32, 0, 4096), (Space::A32, 0xffc, 4)],
        Some(MapFault::Overlap),
    ),
    (&[(Space::A32, 0, 4096), (Space::A32, 16, 0)], None),
    (&[(Space::A32, 16, 0), (Space::A32, 0, 4096)], None),
    (&[(Space::A32, 0, 4096), (Space::A24, 0, 4096)], None),
    (
        &[(Space::A16, 0xfffc, 8), (Space::A32, 6, 4)],
        Some(MapFault::OutsideSpace),
    ),
    (
        &[(Space::A32, 6, 4), (Space::A16, 0xfffc, 8)],
        Some(MapFault::Misaligned),
    ),
    (&[(Space::A16, 0xfffe, 8)], Some(MapFault::Misaligned)),
    (
        &[
            (Space::A32, 0, 4096),
            (Space::A32, 0xffc, 4),
            (Space::A32, 6, 4),
        ],
        Some(MapFault::Misaligned),
    ),
    (
        &[
            (Space::A32, 0, 4096),
            (Space::A32, 0xffc, 4),
            (Space::A16, 0xfffc, 8),
        ],
        Some(MapFault::OutsideSpace),
    ),
];

/// Returns the entries of these spaces, bases and sizes.
fn entries_of(alloc: Global, places: &[(Space, u32, u32)]) -> Result<Vec<Entry>, AllocError> {
    let mut entries = Vec::new(alloc);
    for (space, base, size) in places {
        entries.push(entry(*space, *base, *size))?;
    }
    Ok(entries)
}

#[test]
fn refuses_entries_in_order(rt: HostRuntime) {
    for (places, wanted) in &MAPS {
        let entries = entries_of(rt.alloc(), places).expect(&rt, "no memory");
        assert_eq!(rt; fault(rt.alloc(), entries.as_slice()), *wanted);
    }
}

/// Numbers of equal entries, with their base, and the fault of their map.
static COUNTS: [(usize, u32, Option<MapFault>); 3] = [
    (21, 0, None),
    (22, 0, Some(MapFault::TooMany)),
    (22, 6, Some(MapFault::TooMany)),
];

#[test]
fn a_map_has_21_entries_at_most(rt: HostRuntime) {
    for (count, base, wanted) in &COUNTS {
        let entries = vec![in rt.alloc(); entry(Space::A24, *base, 0); *count];
        let entries = entries.expect(&rt, "no memory");
        assert_eq!(rt; fault(rt.alloc(), entries.as_slice()), *wanted);
    }
}
