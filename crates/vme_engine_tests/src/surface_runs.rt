//! Each public name of `vme_runner`: types in signatures, and each function and law once.
ghost use Rattle.std.specs.Prelude.{◌<◌, length};
ghost use Rattle.vme_script.specs.Configurations.{Configuration};
ghost use Rattle.vme_runner.specs.Ports.{IsBuilt, IsWorkerOf};
ghost use Rattle.vme_runner.specs.Reports.{CanGather};

use crate::support::torn_block;
use std::alloc::Global;
use std::process::Abort;
use std::sync::Wait;
use std::thread::Threads;
use vme_core::{EventReply, OutOfMemory};
use vme_io::RoomSink;
use vme_runner::{
    BoardReport, Gate, LineTask, LineTodo, Ports, Ran, Report, RunFault, Status, Worker,
    a_run_of_threads_is_a_run_of_turns, a_turn_makes_its_call_alone, blocks_do_not_interleave,
    commands_are_the_holders, data_move_for_the_holder, declared_mailboxes_are_queues,
    each_transition_is_a_turn, gather, no_line_is_denied, no_line_is_unfinished,
    one_order_has_a_history_of_each_object, report_text, run_steps, run_threads, texts_show_queues,
    the_arbiter_denies_no_command, turns_are_a_run_of_transitions,
};
use vme_script::Config;

fn stepped(alloc: Global, config: &Config) -> Result<Status, RunFault> {
    let mut sink = RoomSink::new(alloc, usize::MAX, 4096)?;
    run_steps(alloc, config, &[2, 1], &mut sink)
}

fn built(alloc: Global, config: &Config) -> Result<(Ports, Vec<Worker>), OutOfMemory> {
    Ports::build(alloc, config)
}

fn worked<R: Wait, G: Gate>(
    rt: &R,
    worker: Worker,
    config: &Config,
    ports: &Ports,
    gate: &G,
) -> Result<Ran, RunFault>
    requires built { IsBuilt config.now ports.now }
    requires worker { IsWorkerOf config.now ports.now 0 worker }
    requires board { 0 < length config.now.boards }
{
    worker.run(rt, config, ports, gate)
}

fn gathered(ports: Ports, rans: Vec<Ran>) -> Report
    requires { (config : Configuration) × CanGather config ports rans.items }
{
    gather(ports, rans)
}

fn next_of_line(task: &mut LineTask<'_>, reply: Option<EventReply>) -> LineTodo {
    task.next(reply)
}

/// A gate that is always open.
struct Open;

impl Gate for Open {
    fn before(&self, _slot: u16, _line: u16) {}

    fn after(&self, _slot: u16, _line: u16) {}
}

fn steps_of(board: &BoardReport) -> (u16, u64, usize, Option<u8>) {
    (
        board.slot,
        board.steps,
        board.made.len(),
        board.memory.byte(0),
    )
}

fn reported<R: Threads + Wait + Sync>(
    rt: &R,
    alloc: Global,
    config: &Config,
) -> Result<Status, RunFault> {
    let report = run_threads(rt, alloc, config, &Open)?;
    let mut sink = RoomSink::new(alloc, usize::MAX, 4096)?;
    if report.lines.len() != report.boards.len() {
        return Err(RunFault::Write);
    }
    report_text(alloc, &report, &mut sink)
}

fn laws() {
    no_line_is_denied();
    the_arbiter_denies_no_command();
    no_line_is_unfinished();
    commands_are_the_holders();
    data_move_for_the_holder();
    blocks_do_not_interleave();
    a_turn_makes_its_call_alone();
    each_transition_is_a_turn();
    turns_are_a_run_of_transitions();
    declared_mailboxes_are_queues();
    texts_show_queues();
    a_run_of_threads_is_a_run_of_turns();
    one_order_has_a_history_of_each_object();
}

/// Builds the ports of a configuration and runs it by turns and on threads.
pub fn check_runs<R: Threads + Wait + Abort + Sync>(rt: &R, alloc: Global) {
    let config = Config::read(alloc, torn_block().input.as_bytes()).expect(rt, "refused");
    assert!(rt; built(alloc, &config).is_ok());
    assert_eq!(rt; stepped(alloc, &config), Ok(Status::Marked));
    assert_eq!(rt; reported(rt, alloc, &config), Ok(Status::Clean));
    laws();
}
