//! A file of two boards: truncated at each byte, with each byte replaced, and with a failed
//! allocation.
ghost use Rattle.std.specs.Prelude.{◌<◌};

use std::alloc::Global;
use std::process::Abort;
use vme_script::{Config, ConfigFault};

/// A file of two boards. The second board's processor reads what the first board's writes.
static TWO_BOARDS: &str = "schedule = [[2, 2], [1, 1], [2, 2]]
[[board]]
slot = 1
base = 0
size = 16
script = \"lw 00000004 aabbccdd\"
[[board]]
slot = 2
base = 0x1000
size = 16
script = \"br 0b 00000000 4 2\"
";

/// Returns the number of a fault, 15 for a failed allocation.
fn fault_number(fault: ConfigFault) -> usize
    ensures { result < 16 }
{
    match fault {
        ConfigFault::Overlap => 1,
        ConfigFault::OutsideSpace => 2,
        ConfigFault::Misaligned => 3,
        ConfigFault::TooMany => 4,
        ConfigFault::BadSize => 5,
        ConfigFault::NotToml => 6,
        ConfigFault::BadKey => 7,
        ConfigFault::BadSlot => 8,
        ConfigFault::BadLevel => 9,
        ConfigFault::BadWord => 10,
        ConfigFault::NoBoard => 11,
        ConfigFault::BadSchedule => 12,
        ConfigFault::BadMailbox => 13,
        ConfigFault::BadScript { .. } => 14,
        ConfigFault::OutOfMemory => 15,
    }
}

/// Returns the number of a file's fault, 0 if it is lawful.
fn number_of(alloc: Global, file: &[u8]) -> usize
    ensures { result < 16 }
{
    match Config::read(alloc, file) {
        Ok(_) => 0,
        Err(fault) => fault_number(fault),
    }
}

/// By the number of a fault, the number of prefixes of the file with it. Another TOML parser produced
/// these.
static PREFIXES: [u32; 16] = [4, 0, 0, 0, 0, 2, 151, 16, 0, 0, 0, 3, 4, 0, 0, 0];

#[test]
fn reads_or_refuses_each_prefix(rt: HostRuntime) {
    let mut reported = [0_u32; 16];
    for end in 0..=TWO_BOARDS.len() {
        let number = number_of(rt.alloc(), &TWO_BOARDS.as_bytes()[..end]);
        reported[number] = reported[number].wrapping_add(1);
    }
    assert_eq!(rt; reported, PREFIXES);
}

/// A byte and, by the number of a fault, the number of files with it among those in which the byte
/// replaces another. Another TOML parser produced these.
static CHANGES: [(u8, [u32; 16]); 4] = [
    (0x00, [0, 0, 0, 0, 0, 0, 179, 0, 0, 0, 0, 0, 0, 0, 0, 0]),
    (0x0a, [17, 0, 0, 0, 0, 2, 148, 12, 0, 0, 0, 0, 0, 0, 0, 0]),
    (0x22, [4, 0, 0, 0, 0, 0, 175, 0, 0, 0, 0, 0, 0, 0, 0, 0]),
    (0xff, [0, 0, 0, 0, 0, 0, 179, 0, 0, 0, 0, 0, 0, 0, 0, 0]),
];

/// Returns, by the number of a fault, the number of files with it among those in which a byte
/// replaces another.
fn changed(alloc: Global, file: &mut [u8], byte: u8) -> [u32; 16] {
    let mut reported = [0_u32; 16];
    for at in 0..file.len() {
        let kept = file[at];
        file[at] = byte;
        let number = number_of(alloc, file);
        reported[number] = reported[number].wrapping_add(1);
        file[at] = kept;
    }
    reported
}

#[test]
fn reads_or_refuses_with_each_byte_changed(rt: HostRuntime) {
    let file = Vec::from_slice(rt.alloc(), TWO_BOARDS.as_bytes());
    let mut file = file.expect(&rt, "no memory");
    for (byte, numbers) in &CHANGES {
        assert_eq!(rt; changed(rt.alloc(), &mut file, *byte), *numbers, "{byte}");
    }
}

/// A file with a mailbox on the second board, and a word that is put into it.
static MAILBOX: &str = "[[board]]
slot = 1
base = 0
size = 16
script = \"put 1 00000007\"
[[board]]
slot = 2
base = 0x1000
size = 20
[[mailbox]]
am = 9
addr = 0x1000
slots = 1
";

/// Checks the configuration of the file with a mailbox.
fn check_mailbox(rt: &impl Abort, config: &Config) {
    assert!(rt; config.boards() == 2);
    assert_eq!(rt; (config.script(0).len(), config.mailboxes().len()), (1, 1));
}

/// If an allocation fails, the result is that fault; otherwise it is the whole configuration.
#[test]
fn is_read_with_a_mailbox_or_lacks_memory(rt: HostRuntime) {
    match Config::read(rt.alloc(), MAILBOX.as_bytes()) {
        Ok(config) => check_mailbox(&rt, &config),
        Err(fault) => assert_eq!(rt; fault, ConfigFault::OutOfMemory),
    }
}

/// Checks the configuration of the file of two boards.
fn check_two_boards(rt: &impl Abort, config: &Config) {
    assert!(rt; config.boards() == 2);
    assert_eq!(rt; (config.script(0).len(), config.script(1).len()), (1, 1));
    assert_eq!(rt; config.schedule(), [(2, 2), (1, 1), (2, 2)].as_slice());
}

/// If an allocation fails, the result is that fault; otherwise it is the whole configuration.
#[test]
fn is_read_or_lacks_memory(rt: HostRuntime) {
    match Config::read(rt.alloc(), TWO_BOARDS.as_bytes()) {
        Ok(config) => check_two_boards(&rt, &config),
        Err(fault) => assert_eq!(rt; fault, ConfigFault::OutOfMemory),
    }
}
