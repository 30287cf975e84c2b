//! Public types and functions of the crates below `vme_runner`, each through the crate that exports
//! it: types in signatures, and each function once.
ghost use Rattle.std.specs.Prelude.{◌≡◌, ◌<◌, ◌≤◌, IsTrue, IsSome, Ok, [], length, All};
ghost use Rattle.vme_cycle.specs.Requests.{datum_len, function_of, read_len};
ghost use Rattle.vme_cycle.specs.Functions.{has_len};
ghost use Rattle.vme_cycle.specs.Lawful.{Transfer as LawfulRequest, transfer_of};
ghost use Rattle.vme_lanes.specs.Lanes.{carries};
ghost use Rattle.vme_lanes.specs.Rows.{row_of};
ghost use Rattle.vme_core.specs.Machines.{process_count, IsThere};
ghost use Rattle.vme_core.specs.Runs.{target_of};
ghost use Rattle.vme_port.specs.Ports.{IsPassOf};
ghost use Rattle.vme_shared.specs.Mailboxes.{IsMailbox};

use crate::support::torn_block;
use crate::surface_runs::check_runs;
use std::alloc::{AllocError, Global};
use std::process::Abort;
use std::sync::Wait;
use vme_am::{Am, AmFault, Kind, Space};
use vme_arbiter::{ArbCmd, ArbReply, Arbiter};
use vme_core::{Core, Event, EventReply, OutOfMemory, RunStop, Target};
use vme_cycle::{BlockBuffer, CycleFault, Modify, Plan, Request, Signals};
use vme_decode::{AddressMap, Entry, MapFault};
use vme_io::{Failed, Io, RoomSink, Sink, Source};
use vme_lanes::{DataLines, Datum, Location, Strobes, pick, place};
use vme_master::{Outcome, Task, Todo};
use vme_memory::{BoardCmd, ByteMemory, Class, MemoryFault, Reply, Width8To32};
use vme_object::{Counter, CounterCmd, Object};
use vme_port::{Pass, Port, PortFault, TryFault, Unsettled};
use vme_script::{
    Config, ConfigFault, Line, LineFault, LineReply, Mailbox, Script, ScriptFault, parse_line,
    reply_line,
};
use vme_shared::{LockTask, PutTask, SharedOutcome, SharedTodo, TakeTask};

// vme_am
fn code(number: u8) -> Result<(u8, Space, Kind, bool), AmFault> {
    let am = Am::from_code(number)?;
    Ok((am.code(), am.space(), am.kind(), am.is_supervisory()))
}

// vme_lanes
fn location(addr: u32, n: u8) -> Option<(u8, u8)> {
    let location = Location::of(addr, n)?;
    let sensed = Location::sense(Strobes::of(location))?;
    Some((sensed.first(), sensed.len()))
}

fn placed(location: Location, bytes: &[u8]) -> DataLines
    requires { length bytes.now ≡ (row_of location).len }
{
    place(location, bytes)
}

fn picked(location: Location, lines: DataLines) -> Datum
    requires { IsTrue (carries location lines.lanes) }
{
    pick(location, lines)
}

// vme_cycle
fn datum(bytes: &[u8]) -> Datum {
    Datum::try_from(bytes).unwrap_or_default()
}

fn first_signals(request: &Request) -> Result<Option<Signals>, CycleFault> {
    let plan = Plan::of(request)?;
    if plan.len() == 0 {
        return Ok(None);
    }
    Ok(Some(plan.signals(0)))
}

fn write_half(plan: &Plan<'_>, bytes: &Datum) -> Signals
    requires modify { IsSome (function_of plan.now.request) }
    requires len { length bytes.now.items ≡ datum_len plan.now.request }
{
    plan.write_half(bytes)
}

fn value(f: &Modify, old: &Datum) -> Datum
    requires { IsTrue (has_len f.now (length old.now.items)) }
{
    f.value(old)
}

// vme_decode
fn selected(
    alloc: Global,
    entry: Entry,
    signals: &Signals,
) -> Result<Option<(usize, u32)>, MapFault> {
    Ok(AddressMap::new(alloc, &[entry])?.select(signals))
}

// vme_memory and vme_object
const CLASS: Class = Class {
    width: Width8To32::D32,
    uat: true,
    blt: true,
    rmw: true,
};

fn board(alloc: Global) -> Result<ByteMemory, MemoryFault> {
    let mut memory = ByteMemory::new(alloc, 16, CLASS)?;
    let read = BoardCmd::LocalRead { offset: 0, n: 4 };
    let _local: Reply = memory.local(&read);
    let _applied: Reply = memory.apply(&read);
    Ok(memory)
}

fn cycle(memory: &mut ByteMemory, signals: &Signals) -> Option<u8> {
    let _: Reply = memory.cycle(signals, 0, None);
    memory.byte(memory.size())
}

// vme_arbiter
fn ask(arbiter: &mut Arbiter) -> ArbReply {
    arbiter.apply(&ArbCmd::Ask { slot: 1, level: 3 })
}

// vme_port
fn port_of(alloc: Global, count: usize) -> Result<(Port<Counter>, Vec<Pass<Counter>>), PortFault> {
    Port::new(alloc, Counter { number: 0 }, count)
}

fn call<R: Wait>(rt: &R, port: &Port<Counter>, pass: &mut Pass<Counter>) -> Option<(usize, u64)>
    requires { IsPassOf port.now pass.old }
{
    let tried: Result<u64, TryFault> = port.try_call(pass, &CounterCmd::Show);
    tried.ok()?;
    port.call(rt, pass, &CounterCmd::Bump).ok()?;
    Some((pass.who(), pass.made()))
}

fn settle(
    port: Port<Counter>,
    passes: Vec<Pass<Counter>>,
) -> Result<(Counter, u64), Unsettled<Counter>>
    requires { All (IsPassOf port) passes.items }
{
    port.settle(passes)
}

// vme_core
fn apply(core: &mut Core, event: &Event) -> Result<EventReply, vme_core::Spent>
    requires who { 0 < process_count core.old }
    requires there { IsThere core.old (target_of event.now) }
{
    core.apply(0, event)
}

fn run_events(alloc: Global, core: &mut Core) -> Result<u64, RunStop>
    requires who { 0 < process_count core.old }
{
    let mut replies = Vec::new(alloc);
    core.run(&[], &mut replies)?;
    Ok(core.steps(Target::Bus))
}

fn counts(core: &Core) -> (u64, Option<u8>)
    requires who { 0 < process_count core.now }
    requires board { 0 < length core.now.boards }
{
    (core.made(0, Target::Bus), core.memory(0).byte(0))
}

fn core_of(alloc: Global, memory: ByteMemory) -> Result<Core, OutOfMemory> {
    let Ok(memories) = Vec::from_array(alloc, [memory]) else {
        return Err(OutOfMemory);
    };
    Core::new(alloc, memories, 1)
}

// vme_master
fn bus_task<'a>(
    map: &AddressMap,
    request: &'a Request,
    buffer: BlockBuffer,
) -> Result<Task<'a>, CycleFault>
    requires empty { buffer.items ≡ [] }
    requires enough { (t : LawfulRequest) → transfer_of request.now ≡ Ok t →
        read_len t.request ≤ buffer.capacity }
{
    Task::start(map, 1, 3, request, buffer)
}

fn local_task() -> Option<Outcome> {
    let mut task = Task::local(0, BoardCmd::LocalRead { offset: 0, n: 1 });
    let _: Todo = task.next(None);
    match task.next(Some(EventReply::Board(Reply::Berr))) {
        Todo::Finished => task.into_outcome(),
        Todo::Call(_) => None,
    }
}

// vme_shared
fn locks(map: &AddressMap) -> Result<Option<SharedOutcome>, CycleFault> {
    let mut lock = LockTask::lock(map, 1, 3, 0x0d, 0)?;
    let mut unlock = LockTask::unlock(map, 1, 3, 0x0d, 0)?;
    let _: SharedTodo = lock.next(None);
    match unlock.next(None) {
        SharedTodo::Finished(outcome) => Ok(Some(outcome)),
        SharedTodo::Call(_) => Ok(None),
    }
}

fn put_and_take(map: &AddressMap, mailbox: Mailbox) -> Result<(SharedTodo, SharedTodo), CycleFault>
    requires { IsMailbox mailbox }
{
    let mut put = PutTask::start(map, 1, 3, mailbox, 7)?;
    let mut take = TakeTask::start(map, 1, 3, mailbox)?;
    Ok((put.next(None), take.next(None)))
}

// vme_script
fn line(text: &[u8]) -> Result<Option<Line>, LineFault> {
    parse_line(text)
}

fn script(alloc: Global, text: &[u8]) -> Result<Option<u16>, ScriptFault> {
    let script = Script::read(alloc, text)?;
    if script.len() == 0 {
        return Ok(None);
    }
    let _: &Line = script.line(0);
    Ok(Some(script.number(0)))
}

fn config(alloc: Global, file: &[u8]) -> Result<Config, ConfigFault> {
    Config::read(alloc, file)
}

fn replied(alloc: Global) -> Result<Vec<u8>, AllocError> {
    let mut text = Vec::new(alloc);
    reply_line(1, 2, &LineReply::Met, &mut text)?;
    Ok(text)
}

// vme_io
fn copy<S: Source, W: Sink>(source: &mut S, sink: &mut W, buffer: &mut [u8]) -> Result<(), Failed>
    requires { 0 < length buffer.old }
{
    let count = source.read(buffer)?;
    if let Some(bytes) = buffer.get(..count) {
        if !bytes.is_empty() {
            sink.write(bytes)?;
        }
    }
    Ok(())
}

/// A board of 16 bytes at address 0.
const ENTRY: Entry = Entry {
    space: Space::A32,
    base: 0,
    size: 16,
    supervisory: false,
};

/// Returns the signals of a write of two bytes at address 0.
fn signals(rt: &impl Abort) -> Signals {
    let request = Request::Write {
        am: 0x0d,
        addr: 0,
        bytes: datum(&[1, 2]),
    };
    let signals = first_signals(&request).expect(rt, "refused");
    signals.expect(rt, "no signals")
}

fn check_bus(rt: &impl Abort, alloc: Global) {
    assert!(rt; code(0x0d).is_ok());
    assert_eq!(rt; location(4, 4), Some((0, 4)));
    assert_eq!(rt; selected(alloc, ENTRY, &signals(rt)), Ok(Some((0, 0))));
    assert_eq!(rt; ask(&mut Arbiter::new()), ArbReply::Granted);
}

fn check_objects(rt: &impl Abort, alloc: Global) {
    let mut memory = board(alloc).expect(rt, "no memory");
    assert_eq!(rt; cycle(&mut memory, &signals(rt)), None);
    assert!(rt; core_of(alloc, memory).is_ok());
    assert!(rt; port_of(alloc, 2).is_ok());
}

fn check_tasks(rt: &impl Abort, alloc: Global) {
    let map = AddressMap::new(alloc, &[ENTRY]).expect(rt, "no map");
    assert!(rt; local_task().is_some());
    assert!(rt; locks(&map).is_ok());
}

fn check_scripts(rt: &impl Abort, alloc: Global) {
    assert!(rt; line(b"take 1").is_ok());
    assert!(rt; script(alloc, b"take 1").is_ok());
    assert!(rt; config(alloc, torn_block().input.as_bytes()).is_ok());
    let text = replied(alloc).expect(rt, "no memory");
    assert_eq!(rt; text.as_slice(), b"1:2 met\n".as_slice());
}

fn check_copy(rt: &impl Abort, alloc: Global) {
    let mut sink = RoomSink::new(alloc, usize::MAX, 16).expect(rt, "no memory");
    assert!(rt; copy(&mut Io::new(&b"abc"[..]), &mut sink, &mut [0; 4]).is_ok());
}

#[test]
fn each_name_is_in_its_crate(rt: HostRuntime) {
    check_bus(&rt, rt.alloc());
    check_objects(&rt, rt.alloc());
    check_tasks(&rt, rt.alloc());
    check_scripts(&rt, rt.alloc());
    check_copy(&rt, rt.alloc());
    check_runs(&rt, rt.alloc());
}
