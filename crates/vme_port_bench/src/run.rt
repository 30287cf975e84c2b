ghost use Rattle.std.specs.Prelude.{◌≡◌, ◌↔◌, ◌⊎◌, ◌<◌, ◌*◌, ◌^◌, ◌≤◌, All, IfOk, vec_len, vec_capacity};
ghost use Rattle.vme_port.specs.Ports.{IsPassOf, opening, passes_of};
ghost use Rattle.vme_port_bench.specs.Ends.{IsUsage};
ghost use Rattle.vme_port_bench.specs.Workers.{HasBumped, IsSameWork};

use crate::arguments::Arguments;
use crate::fault::BenchFault;
use crate::worker::{CallsOf, work};
use std::alloc::Global;
use std::sync::Wait;
use std::thread;
use std::thread::{PromisedHandle, Scope, Threads};
use vme_object::Counter;
use vme_port::{Pass, Port, PortFault, calls_make_one_history};

/// The result of a run.
#[derive(Clone, Copy)]
pub struct Outcome {
    /// The counter's number after the run.
    pub number: u64,
    /// The number of entries in the counter's history.
    pub steps: u64,
}

impl Outcome {
    /// Returns the outcome for this counter and this number of entries.
    fn of(counter: Counter, steps: u64) -> Outcome
        ensures number { result.number ≡ counter.number }
        ensures steps { result.steps ≡ steps }
        ensures fits { steps < 2 ^ 64 }
    {
        let Counter { number } = counter;
        Outcome { number, steps }
    }
}

/// A thread that makes its calls and returns its pass.
type Child<'a> = PromisedHandle<Option<Pass<Counter>>, CallsOf<'a>>;

/// Opens a port of a counter, lets the threads make their calls at the same time, and closes the
/// port. Returns the counter's number and the length of its history.
///
/// # Errors
/// `Usage` if the number of threads is not 1 to 21, `Memory` if an allocation fails, `Thread` if a
/// thread can't be started, and `Spent` if the history has 2^64 - 1 entries before all calls are
/// made.
pub fn run<R: Threads + Wait + Sync>(
    rt: &R,
    alloc: Global,
    arguments: Arguments,
) -> Result<Outcome, BenchFault>
    ensures number { IfOk result (λ o. o.number ≡ arguments.threads * arguments.calls) }
    ensures steps { IfOk result (λ o. o.steps ≡ arguments.threads * arguments.calls) }
    ensures usage { IsUsage result ↔ ((arguments.threads ≡ 0) ⊎ (21 < arguments.threads)) }
{
    let (port, passes) = open(alloc, arguments.threads)?;
    let passes = call_all(rt, alloc, &port, passes, arguments.calls)?;
    let Ok((counter, steps)) = port.settle(passes) else {
        unreachable!()
    };
    calls_make_one_history::<Counter>();
    Ok(Outcome::of(counter, steps))
}

/// Opens a port of a counter at 0, with its passes.
fn open(alloc: Global, threads: usize) -> Result<(Port<Counter>, Vec<Pass<Counter>>), BenchFault>
    ensures opening { IfOk result (λ r. (opening r.0).number ≡ 0) }
    ensures passes { IfOk result (λ r. passes_of r.0 ≡ threads) }
    ensures count { IfOk result (λ r. vec_len r.1 ≡ threads) }
    ensures unused { IfOk result (λ r. All (HasBumped r.0 0) r.1.items) }
    ensures usage { IsUsage result ↔ ((threads ≡ 0) ⊎ (21 < threads)) }
{
    match Port::new(alloc, Counter { number: 0 }, threads) {
        Ok(opened) => Ok(opened),
        Err(PortFault::BadCount) => Err(BenchFault::Usage),
        Err(PortFault::OutOfMemory) => Err(BenchFault::Memory),
    }
}

/// Makes the calls of each pass on a thread of its own, and returns the passes.
fn call_all<R: Threads + Wait + Sync>(
    rt: &R,
    alloc: Global,
    port: &Port<Counter>,
    passes: Vec<Pass<Counter>>,
    calls: u64,
) -> Result<Vec<Pass<Counter>>, BenchFault>
    requires { All (HasBumped port.now 0) passes.items }
    ensures count { IfOk result (λ r. vec_len r ≡ vec_len passes) }
    ensures made { IfOk result (λ r. All (HasBumped port.entry.now calls) r.items) }
    ensures usage { ¬ (IsUsage result) }
{
    thread::scope(
        thread::scope_env(),
        rt,
        move |scope| -> Result<Vec<Pass<Counter>>, BenchFault>
            requires { All (HasBumped port.now 0) passes.items }
            ensures count { IfOk result (λ r. vec_len r ≡ vec_len passes) }
            ensures made { IfOk result (λ r. All (HasBumped port.entry.now calls) r.items) }
            ensures usage { ¬ (IsUsage result) }
        {
            let promise = CallsOf { port, calls };
            let count = passes.len();
            let Ok(mut children) = Vec::with_capacity(alloc, count) else {
                return Err(BenchFault::Memory);
            };
            let Ok(mut back) = Vec::with_capacity(alloc, count) else {
                return Err(BenchFault::Memory);
            };
            start_all(scope, rt, promise, passes, &mut children)?;
            join_all(rt, promise, children, &mut back)?;
            Ok(back)
        },
    )
}

/// Starts a thread for each pass.
fn start_all<'s, E, R: Threads + Wait + Sync>(
    scope: &'s Scope<'s, E>,
    rt: &'s R,
    promise: CallsOf<'s>,
    passes: Vec<Pass<Counter>>,
    children: &mut Vec<Child<'s>>,
) -> Result<(), BenchFault>
    requires unused { All (HasBumped promise.port.now 0) passes.items }
    requires none { vec_len children.old ≡ 0 }
    requires capacity { vec_len passes ≤ vec_capacity children.old }
    ensures count { IfOk result (λ _. vec_len children.new ≡ vec_len passes) }
    ensures promised { All (λ c. IsSameWork c.promise promise.entry) children.new.items }
    ensures usage { ¬ (IsUsage result) }
{
    let CallsOf { port, calls } = promise;
    for pass in passes {
        let Ok(child) = scope.spawn_with(promise, move || work(rt, port, pass, calls)) else {
            return Err(BenchFault::Thread);
        };
        children.push_reserved(child);
    }
    Ok(())
}

/// Joins each thread and collects its pass.
fn join_all<'s, R: Threads>(
    rt: &R,
    promise: CallsOf<'s>,
    children: Vec<Child<'s>>,
    passes: &mut Vec<Pass<Counter>>,
) -> Result<(), BenchFault>
    requires promised { All (λ c. IsSameWork c.promise promise) children.items }
    requires none { vec_len passes.old ≡ 0 }
    requires capacity { vec_len children ≤ vec_capacity passes.old }
    ensures count { IfOk result (λ _. vec_len passes.new ≡ vec_len children.entry) }
    ensures made { IfOk result (λ _. All (HasBumped promise.entry.port.now promise.entry.calls) passes.new.items) }
    ensures usage { ¬ (IsUsage result) }
{
    for child in children {
        let Some(pass) = child.join(rt) else {
            return Err(BenchFault::Spent);
        };
        passes.push_reserved(pass);
    }
    Ok(())
}
