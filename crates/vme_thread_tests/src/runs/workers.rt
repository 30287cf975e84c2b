//! Two workers on two threads of the test's own, whose results are gathered.
ghost use Rattle.std.specs.Prelude.{◌≡◌, ◌+◌, ◌∷◌, [], length, IfOk};
ghost use Rattle.vme_object.specs.Each.{Each};
ghost use Rattle.vme_threads.specs.Ports.{IsBuilt, IsWorkerOf};
ghost use Rattle.vme_threads.specs.Rans.{HasRun, IsEndOfRun};

use crate::runs::meetings::{REPLIES, TWO_BOARDS};
use crate::runs::{Meeting, replies_of};
use std::alloc::{AllocError, Global};
use std::process::Abort;
use std::sync::Wait;
use std::sync::atomic::Ordering;
use std::test::Fail;
use std::thread::{Threads, join};
use vme_report::RunFault;
use vme_script::Config;
use vme_threads::{Ports, Ran, Report, Worker, gather};

/// Removes and returns the last worker.
fn next_worker(rt: &impl Abort, config: &Config, ports: &Ports, workers: &mut Vec<Worker>) -> Worker
    requires { Each (IsWorkerOf config.now ports.now) workers.old.items }
    ensures worker { IsWorkerOf config.now ports.now (length workers.new.items) result }
    ensures rest { Each (IsWorkerOf config.now ports.now) workers.new.items }
    ensures len { length workers.old.items ≡ length workers.new.items + 1 }
{
    match workers.pop() {
        Some(worker) => worker,
        None => panic!(rt; "no worker"),
    }
}

/// Runs both workers at the same time.
fn run_two<R: Threads + Wait + Sync>(
    rt: &R,
    config: &Config,
    ports: &Ports,
    gate: &Meeting,
    first: Worker,
    second: Worker,
) -> (Result<Ran, RunFault>, Result<Ran, RunFault>)
    requires built { IsBuilt config.now ports.now }
    requires two { length config.now.boards ≡ 2 }
    requires first { IsWorkerOf config.now ports.now 0 first }
    requires second { IsWorkerOf config.now ports.now 1 second }
    ensures first { IsEndOfRun config.entry.now ports.entry.now 0 result.0 }
    ensures second { IsEndOfRun config.entry.now ports.entry.now 1 result.1 }
{
    join(
        rt,
        move || -> Result<Ran, RunFault>
            requires built { IsBuilt config.now ports.now }
            requires two { length config.now.boards ≡ 2 }
            requires worker { IsWorkerOf config.now ports.now 0 first }
            ensures { IsEndOfRun config.entry.now ports.entry.now 0 result }
        { first.run(rt, config, ports, gate) },
        move || -> Result<Ran, RunFault>
            requires built { IsBuilt config.now ports.now }
            requires two { length config.now.boards ≡ 2 }
            requires worker { IsWorkerOf config.now ports.now 1 second }
            ensures { IsEndOfRun config.entry.now ports.entry.now 1 result }
        { second.run(rt, config, ports, gate) },
    )
}

/// Gathers the results of both workers. The lines of the report are theirs.
fn gather_two(
    alloc: Global,
    config: &Config,
    ports: Ports,
    first: Ran,
    second: Ran,
) -> Result<Report, AllocError>
    requires built { IsBuilt config.now ports }
    requires two { length config.now.boards ≡ 2 }
    requires first { HasRun config.now ports 0 first }
    requires second { HasRun config.now ports 1 second }
    ensures { IfOk result (λ report. report.lines.items ≡ first.lines ∷ second.lines ∷ []) }
{
    let mut rans = Vec::with_capacity(alloc, 2)?;
    rans.push_reserved(first);
    rans.push_reserved(second);
    Ok(gather(ports, rans))
}

#[test]
fn two_workers_meet(rt: HostRuntime) -> Result<(), Fail> {
    let Ok(config) = Config::read(rt.alloc(), TWO_BOARDS.as_bytes()) else {
        panic!(&rt; "refused")
    };
    let Ok((ports, mut workers)) = Ports::build(rt.alloc(), &config) else {
        panic!(&rt; "no memory")
    };
    assert_eq!(&rt; config.boards(), 2);
    let second = next_worker(&rt, &config, &ports, &mut workers);
    let first = next_worker(&rt, &config, &ports, &mut workers);
    let gate = Meeting::new();
    let (first, second) = run_two(&rt, &config, &ports, &gate, first, second);
    let Ok(first) = first else {
        panic!(&rt; "spent")
    };
    let Ok(second) = second else {
        panic!(&rt; "spent")
    };
    assert!(&rt; !gate.missed.load(Ordering::SeqCst));
    let report = gather_two(rt.alloc(), &config, ports, first, second)?;
    let text = replies_of(rt.alloc(), &report)?;
    assert_eq!(&rt; text.as_slice(), REPLIES.as_bytes());
    Ok(())
}
