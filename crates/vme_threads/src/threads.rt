//! Scripts on threads, one thread for each processor.
ghost use Rattle.std.specs.Prelude.{◌≡◌, ◌≢◌, ◌≤◌, length, vec_len, vec_capacity, IfOk, IfErr};
ghost use Rattle.vme_object.specs.Each.{Each};
ghost use Rattle.vme_report.specs.declared.fault.RunFault.TheVariants.{Write};
ghost use Rattle.vme_threads.specs.Ports.{IsBuilt, AreWorkers};
ghost use Rattle.vme_threads.specs.Rans.{IsEndOfRun};
ghost use Rattle.vme_threads.specs.Reports.{HaveRun};
ghost use Rattle.vme_threads.specs.OneOrder.{IsReportOfOneOrder};
ghost use Rattle.vme_threads.specs.Threads.{IsPromiseOf};

use crate::gate::Gate;
use crate::gather_report::gather;
use crate::ports::Ports;
use crate::report::Report;
use crate::worker::{Ran, Worker};
use std::alloc::Global;
use std::sync::Wait;
use std::sync::atomic::Ordering;
use std::thread;
use std::thread::{Promise, PromisedHandle, Scope, Threads};
use vme_report::RunFault;
use vme_script::Config;

/// The promise of a thread: its result is the end of one worker's run.
#[derive(Clone, Copy)]
pub struct WorkerPromise<'a> {
    /// The configuration.
    pub config: &'a Config,
    /// The ports that the worker calls.
    pub ports: &'a Ports,
    /// The number of the worker.
    pub who: usize,
}

impl<'a> Promise<Result<Ran, RunFault>> for WorkerPromise<'a> {
    ghost kept_by = { λ p r. IsEndOfRun p.config.now p.ports.now p.who r };
}

/// The handle of a thread that runs one worker.
type Child<'a> = PromisedHandle<Result<Ran, RunFault>, WorkerPromise<'a>>;

/// Runs all scripts of a configuration, each processor on a thread of its own, and calls the gate
/// before and after each line. It allocates everything that the run needs before the first thread
/// starts.
///
/// # Errors
/// `Memory` if an allocation fails, `Thread` if a thread can't be started, and `Spent` if an object
/// has made 2^64 - 1 steps. All started threads have ended when it returns.
pub fn run_threads<R: Threads + Wait + Sync, G: Gate + Sync>(
    rt: &R,
    alloc: Global,
    config: &Config,
    gate: &G,
) -> Result<Report, RunFault>
    ensures report { IfOk result (IsReportOfOneOrder config.now) }
    ensures fault { IfErr result (λ fault. fault ≢ Write) }
{
    let Ok((ports, workers)) = Ports::build(alloc, config) else {
        return Err(RunFault::Memory);
    };
    let rans = run_all(rt, alloc, config, &ports, gate, workers)?;
    Ok(gather(ports, rans))
}

/// Runs each worker on a thread of its own, and returns the finished workers in order.
///
/// # Errors
/// `Memory` if an allocation fails, `Thread` if a thread can't be started, and `Spent` if a worker
/// returns it. All started threads have ended when it returns.
fn run_all<R: Threads + Wait + Sync, G: Gate + Sync>(
    rt: &R,
    alloc: Global,
    config: &Config,
    ports: &Ports,
    gate: &G,
    workers: Vec<Worker>,
) -> Result<Vec<Ran>, RunFault>
    requires built { IsBuilt config.now ports.now }
    requires workers { AreWorkers config.now ports.now workers.items }
    ensures count { IfOk result (λ rans. vec_len rans ≡ vec_len workers) }
    ensures runs { IfOk result (λ rans. HaveRun config.entry.now ports.entry.now rans.items) }
    ensures fault { IfErr result (λ fault. fault ≢ Write) }
{
    thread::scope(
        thread::scope_env(),
        rt,
        move |scope| -> Result<Vec<Ran>, RunFault>
            requires built { IsBuilt config.now ports.now }
            requires workers { AreWorkers config.now ports.now workers.items }
            ensures count { IfOk result (λ rans. vec_len rans ≡ vec_len workers) }
            ensures runs { IfOk result (λ rans.
                HaveRun config.entry.now ports.entry.now rans.items) }
            ensures fault { IfErr result (λ fault. fault ≢ Write) }
        {
            let count = workers.len();
            let mut children = Vec::with_capacity(alloc, count)?;
            let mut rans = Vec::with_capacity(alloc, count)?;
            start_all(scope, rt, config, ports, gate, workers, &mut children)?;
            join_all(rt, config, ports, children, &mut rans)?;
            Ok(rans)
        },
    )
}

/// Starts a thread for each worker, in order.
///
/// # Errors
/// `Thread` if a thread can't be started. The running workers then stop before their next event.
fn start_all<'s, E, R: Threads + Wait + Sync, G: Gate + Sync>(
    scope: &'s Scope<'s, E>,
    rt: &'s R,
    config: &'s Config,
    ports: &'s Ports,
    gate: &'s G,
    workers: Vec<Worker>,
    children: &mut Vec<Child<'s>>,
) -> Result<(), RunFault>
    requires built { IsBuilt config.now ports.now }
    requires workers { AreWorkers config.now ports.now workers.items }
    requires none { vec_len children.old ≡ 0 }
    requires capacity { vec_len workers ≤ vec_capacity children.old }
    ensures count { IfOk result (λ _. vec_len children.new ≡ vec_len workers) }
    ensures promised { Each (λ k c. IsPromiseOf config.entry.now ports.entry.now k c.promise)
        children.new.items }
    ensures fault { IfErr result (λ fault. fault ≢ Write) }
{
    for worker in workers {
        let promise = WorkerPromise {
            config,
            ports,
            who: worker.processor_pass.who,
        };
        let Ok(child) = scope.spawn_with(promise, move || worker.run(rt, config, ports, gate))
        else {
            ports.stop.store(true, Ordering::SeqCst);
            return Err(RunFault::Thread);
        };
        children.push_reserved(child);
    }
    Ok(())
}

/// Joins each thread, in order, and appends its finished worker.
///
/// # Errors
/// `Spent` if a worker returned it. The threads after that worker's are not joined.
fn join_all<'s, R: Threads>(
    rt: &R,
    config: &'s Config,
    ports: &'s Ports,
    children: Vec<Child<'s>>,
    rans: &mut Vec<Ran>,
) -> Result<(), RunFault>
    requires promised { Each (λ k c. IsPromiseOf config.now ports.now k c.promise) children.items }
    requires none { vec_len rans.old ≡ 0 }
    requires capacity { vec_len children ≤ vec_capacity rans.old }
    ensures count { IfOk result (λ _. vec_len rans.new ≡ vec_len children.entry) }
    ensures runs { IfOk result (λ _. HaveRun config.entry.now ports.entry.now rans.new.items) }
    ensures fault { IfErr result (λ fault. fault ≢ Write) }
{
    for child in children {
        let ran = child.join(rt)?;
        rans.push_reserved(ran);
    }
    Ok(())
}
