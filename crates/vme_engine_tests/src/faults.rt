//! The texts of faults, and the limits of the engines' inputs.
use crate::support::{Engine, run_on};
use std::alloc::{AllocError, Global};
use std::process::Abort;
use std::sync::Wait;
use std::thread::Threads;
use vme_engines::{FILE_LIMIT, INPUT_LIMIT, ProgramFault, Status, WordsFault, exit_status};
use vme_grammar::LineFault;
use vme_runner::RunFault;
use vme_script::ConfigFault;

const NO_BOARD: Result<Status, ProgramFault> = Err(ProgramFault::Config(ConfigFault::NoBoard));

const TOO_LONG: Result<Status, ProgramFault> = Err(ProgramFault::TooLong);

/// The number of line ends of an input of an engine, and how the run ends.
static LIMITS: [(Engine, usize, Result<Status, ProgramFault>); 6] = [
    (Engine::Cycles, INPUT_LIMIT, Ok(Status::Clean)),
    (Engine::Cycles, INPUT_LIMIT + 1, TOO_LONG),
    (Engine::Step, FILE_LIMIT, NO_BOARD),
    (Engine::Step, FILE_LIMIT + 1, TOO_LONG),
    (Engine::Run, FILE_LIMIT, NO_BOARD),
    (Engine::Run, FILE_LIMIT + 1, TOO_LONG),
];

#[test]
fn inputs_are_limited(rt: HostRuntime) {
    for (engine, count, wanted) in &LIMITS {
        let input = vec![in rt.alloc(); b'\n'; *count].expect(&rt, "no memory");
        let (end, sink) = run_on(&rt, rt.alloc(), *engine, input.as_slice()).expect(
            &rt,
            "no memory",
        );
        assert_eq!(rt; end, *wanted, "{engine:?} {count}");
        assert!(rt; sink.bytes().is_empty());
    }
}

/// Faults, each with its text and the status that the program ends with.
static FAULTS: [(ProgramFault, &str, u8); 7] = [
    (ProgramFault::Read, "read", 3),
    (ProgramFault::TooLong, "too long", 3),
    (ProgramFault::Write, "write", 3),
    (ProgramFault::Memory, "memory", 3),
    (ProgramFault::Thread, "thread", 3),
    (ProgramFault::Spent, "spent", 3),
    (ProgramFault::Config(ConfigFault::NoBoard), "C11", 2),
];

/// Faults of the command line, each with its text and the status that the program ends with.
static WORDS_FAULTS: [(WordsFault, &str, u8); 2] = [
    (
        WordsFault::Usage,
        "usage: vme cycles | vme step FILE | vme run FILE",
        2,
    ),
    (WordsFault::Memory, "memory", 3),
];

/// Faults of a run of scripts, each with its text.
static RUN_FAULTS: [(RunFault, &str); 4] = [
    (RunFault::Thread, "U1"),
    (RunFault::Memory, "U2"),
    (RunFault::Spent, "U3"),
    (RunFault::Write, "U4"),
];

/// Faults of lines, each with its text.
static LINE_FAULTS: [(LineFault, &str); 8] = [
    (LineFault::LineTooLong, "S1"),
    (LineFault::UnknownWord, "S2"),
    (LineFault::WordCount, "S3"),
    (LineFault::BadCode, "S4"),
    (LineFault::BadAddress, "S5"),
    (LineFault::BadNumber, "S6"),
    (LineFault::BadBytes, "S7"),
    (LineFault::MailboxBytes, "S9"),
];

/// Checks the text of a fault.
fn check_text(rt: &impl Abort, text: Result<String, AllocError>, wanted: &str) {
    let text = text.expect(rt, "no memory");
    assert_eq!(rt; text.as_str(), wanted);
}

#[test]
fn each_fault_has_its_text_and_status(rt: HostRuntime) {
    assert_eq!(rt; exit_status(&Ok(Status::Clean)), 0);
    assert_eq!(rt; exit_status(&Ok(Status::Marked)), 1);
    for (fault, text, status) in &FAULTS {
        check_text(&rt, fault.to_string(rt.alloc()), text);
        assert_eq!(rt; exit_status(&Err(*fault)), *status);
    }
    for (fault, text, status) in &WORDS_FAULTS {
        check_text(&rt, fault.to_string(rt.alloc()), text);
        assert_eq!(rt; fault.exit_status(), *status);
    }
    for (fault, text) in &RUN_FAULTS {
        check_text(&rt, fault.to_string(rt.alloc()), text);
    }
    for (fault, text) in &LINE_FAULTS {
        check_text(&rt, fault.to_string(rt.alloc()), text);
    }
}
