//! Each use of `vme_uses`, run once, except `port_array` and `run`.
ghost use Rattle.std.specs.Prelude.{◌==◌, true, false, if◌then◌else◌};

use std::alloc::{AllocError, Global};
use std::test::Fail;
use vme_am::{Am, Space};
use vme_arbiter::{ArbReply, Arbiter};
use vme_bus_wait::{BusWaiters, WaitState};
use vme_core::{Core, EventReply};
use vme_cycle::Request;
use vme_decode::{AddressMap, Entry};
use vme_explore::{NoParts, System};
use vme_io::RoomSink;
use vme_memory::BoardCmd;
use vme_object::{Counter, Object};
use vme_port::Port;
use vme_report::BoardReportRef;
use vme_runner::{Gate, Status};
use vme_script::{Config, Line};
use vme_shared::{LineReply, SharedTodo};
use vme_uses::{
    am, arbiter, bus_objects, bus_wait, config_toml, cores, cycle, decode, devices, engines,
    explore, grammar, lanes, lexer, line_task, mailbox_laws, master, memory, object, port, report,
    runner, script, shared, states, stepper, threads,
};

static FILE: &str = "[[board]]
slot = 2
base = 0
size = 16
script = '''
# a comment has no line in the report
lw 00000004 aabbccdd
r 0d 00000004 4
'''
";

struct Open;

impl Gate for Open {
    fn before(&self, _slot: u16, _line: u16) {}

    fn after(&self, _slot: u16, _line: u16) {}
}

const BOARD: Entry = Entry {
    space: Space::A32,
    base: 0x100,
    size: 16,
    supervisory: false,
};

#[test]
fn tables_of_the_bus(rt: HostRuntime) -> Result<(), Fail> {
    assert_eq!(&rt; am::reach(0x3d), Ok(1 << 24));
    let datum = lanes::over_the_lanes(5, &[0xa1, 0xa2]).unwrap_or_default();
    assert_eq!(&rt; datum.as_slice(), [0xa1, 0xa2].as_slice());
    let request = Request::Read {
        am: 0x0d,
        addr: 0x104,
        n: 4,
    };
    let Ok(Some(signals)) = cycle::signals_of(&request, 0) else {
        panic!(&rt; "no signals")
    };
    assert_eq!(&rt; signals.addr(), 0x104);
    assert_eq!(&rt;
        cycle::signals_of(&request, 1).map(|found| found.is_some()),
        Ok(false)
    );
    let am: Am = signals.am();
    assert_eq!(&rt;
        decode::offset_on(rt.alloc(), BOARD, am, 0x104),
        Ok(Some(4))
    );
    Ok(())
}

#[test]
fn objects_and_ports(rt: HostRuntime) -> Result<(), Fail> {
    let mut latch = object::Latch { is_set: false };
    assert!(&rt; !latch.apply(&()));
    assert!(&rt; latch.apply(&()));
    assert_eq!(&rt;
        arbiter::two_requests(),
        (ArbReply::Granted, ArbReply::Waiting)
    );
    let EventReply::Bus(ArbReply::Granted) = bus_objects::first_request() else {
        panic!(&rt; "not granted")
    };
    let Ok((port, mut passes)) = Port::new(rt.alloc(), Counter { number: 7 }, 1) else {
        panic!(&rt; "no port")
    };
    let Some(mut pass) = passes.pop() else {
        panic!(&rt; "no pass")
    };
    assert_eq!(&rt; port::bump(&rt, &port, &mut pass).ok(), Some(7));
    let all = Vec::from_array(rt.alloc(), [pass])?;
    assert_eq!(&rt; port::total(port, all), Some(1));
    Ok(())
}

#[test]
fn a_core_and_its_tasks(rt: HostRuntime) -> Result<(), Fail> {
    let alloc = rt.alloc();
    let Ok(board) = memory::full_board(alloc, 16) else {
        panic!(&rt; "no memory")
    };
    let Ok(mut core) = Core::new(alloc, Vec::from_array(alloc, [board])?, 1) else {
        panic!(&rt; "no memory")
    };
    let read = BoardCmd::LocalRead { offset: 0, n: 4 };
    assert!(&rt; master::perform_local(&mut core, read));
    assert_eq!(&rt; cores::request_bus(&mut core, 2), Ok(1));
    let map = AddressMap::new(alloc, &[BOARD])?;
    let Ok(SharedTodo::Call(_)) = shared::lock(&map, 2, 0x104) else {
        panic!(&rt; "no event")
    };
    Ok(())
}

#[test]
fn texts_and_lines(rt: HostRuntime) -> Result<(), Fail> {
    assert_eq!(&rt; lexer::second_number(b"lr 0000001f 1"), Some(0x1f));
    let mut text = Vec::new(rt.alloc());
    assert!(&rt; grammar::is_request(b"take 1", &mut text)?);
    assert!(&rt; !grammar::is_request(b"give 1", &mut text)?);
    assert_eq!(&rt; text.as_slice(), b"line refused S2\n".as_slice());
    let mut sink = RoomSink::new(rt.alloc(), 3, 16)?;
    assert!(&rt; devices::write_done(&mut sink).is_ok());
    assert_eq!(&rt; sink.bytes(), b"done\n".as_slice());
    Ok(())
}

#[test]
fn files_and_their_runs(rt: HostRuntime) -> Result<(), Fail> {
    let alloc = rt.alloc();
    assert_eq!(&rt;
        config_toml::first_size(alloc, FILE.as_bytes()).ok(),
        Some(Some(16))
    );
    let config = Config::read(alloc, FILE.as_bytes())?;
    if config.boards() == 0 {
        panic!(&rt; "no board")
    }
    assert_eq!(&rt; script::slot_and_lines(&config, 0), (2, 2));
    assert!(&rt; line_task::buffer_for(alloc, &Line::Take { mailbox: 1 }).is_ok());
    assert_eq!(&rt; stepper::three_turns(alloc, &config), Ok(Status::Marked));
    assert!(&rt; threads::run(&rt, alloc, &config).is_ok());
    assert!(&rt; runner::run_to_the_end(&rt, alloc, &config, &Open).is_ok());
    assert!(&rt; states::all_states(alloc, &config).is_ok());
    mailbox_laws::no_entry_no_word();
    let mut cycles = RoomSink::new(alloc, usize::MAX, 4096)?;
    assert_eq!(&rt;
        engines::cycles_of(alloc, b"r 0d 00000000 1", &mut cycles).ok(),
        Some(Status::Clean)
    );
    let waiters = BusWaiters::new(alloc, 1)?;
    let mut state = WaitState::new();
    bus_wait::poll(&rt, &waiters, &mut state, &mut Arbiter::new());
    Ok(())
}

#[test]
fn the_report_of_one_board(rt: HostRuntime) -> Result<(), Fail> {
    let alloc = rt.alloc();
    let config = Config::read(alloc, FILE.as_bytes())?;
    if config.boards() == 0 {
        panic!(&rt; "no board")
    }
    let Ok(memory) = config.memory(alloc, 0) else {
        panic!(&rt; "no memory")
    };
    let board = BoardReportRef {
        slot: 2,
        lines: &[(1, LineReply::Met)],
        memory: &memory,
        steps: 1,
        made: &[1],
    };
    let mut printed = RoomSink::new(alloc, usize::MAX, 64)?;
    assert_eq!(&rt;
        report::report_of_one(alloc, board, &mut printed),
        Ok(Status::Clean)
    );
    assert_eq!(&rt;
        printed.bytes(),
        b"2:1 met\nboard 2 steps 1 made 1\n".as_slice()
    );
    Ok(())
}

/// Two latches. One actor sets the first latch, the other copies the first into the second. All
/// states have one digest, so `is_same` alone distinguishes them.
#[derive(Drop)]
pub struct Latches;

impl System for Latches {
    type State = (bool, bool);

    type Parts = NoParts;

    ghost initial = { λ _. (false, false) };

    ghost count = { λ _. 2 };

    ghost step = { λ _ latches actor. if actor == 0 then (true, latches.1) else (latches.0, latches.0) };

    fn actors(&self) -> usize {
        2
    }

    fn initial_state(&self, _alloc: Global) -> Result<(bool, bool), AllocError> {
        Ok((false, false))
    }

    fn turn(
        &self,
        _alloc: Global,
        latches: &(bool, bool),
        actor: usize,
    ) -> Result<Option<(bool, bool)>, AllocError> {
        let (first, second) = *latches;
        Ok(Some(if actor == 0 {
            (true, second)
        } else {
            (first, first)
        }))
    }

    fn is_same(&self, a: &(bool, bool), b: &(bool, bool)) -> bool {
        a.0 == b.0 && a.1 == b.1
    }

    fn digest(&self, _latches: &(bool, bool)) -> u64 {
        7
    }
}

#[test]
fn a_search(rt: HostRuntime) -> Result<(), Fail> {
    let Ok(turns) = explore::turns_to_the_last(rt.alloc(), &Latches) else {
        panic!(&rt; "not explored")
    };
    assert_eq!(&rt; turns.as_slice(), [0, 1].as_slice());
    Ok(())
}
