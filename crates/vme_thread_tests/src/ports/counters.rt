//! Ports of counters, called from one thread and from several.
ghost use Rattle.std.specs.Prelude.{◌≡◌};
ghost use Rattle.vme_port.specs.Ports.{IsPassOf};

use crate::ports::{last_pass, open, reply_to};
use std::alloc::Global;
use std::process::Abort;
use std::sync::{Mutex, Wait};
use std::test::Fail;
use std::thread::map_vec;
use vme_object::{Counter, CounterCmd};
use vme_port::{Pass, Port, PortFault, Unsettled};

/// The number of threads.
const THREADS: usize = 4;

/// The number of calls that each thread makes.
const CALLS: usize = 1_000;

/// Bumps the counter `CALLS` times, appends the replies to those of all threads, and returns the
/// pass.
fn work<R: Wait + Abort>(
    rt: &R,
    alloc: Global,
    port: &Port<Counter>,
    mut pass: Pass<Counter>,
    replies: &Mutex<Vec<u64>>,
) -> Pass<Counter>
    requires { IsPassOf port.now pass }
    ensures { IsPassOf port.entry.now result }
{
    let mut own = Vec::new(alloc);
    for _ in 0..CALLS {
        let Ok(reply) = port.call(rt, &mut pass, &CounterCmd::Bump) else {
            panic!(rt; "spent")
        };
        assert!(rt; own.push(reply).is_ok());
    }
    assert_eq!(rt; pass.made(), CALLS as u64);
    assert!(rt; replies.lock(rt).extend_from_slice(&own).is_ok());
    pass
}

#[test]
fn four_threads_share_a_counter(rt: HostRuntime) -> Result<(), Fail> {
    let alloc = rt.alloc();
    let (port, passes) = open(&rt, alloc, Counter { number: 0 }, THREADS);
    let replies = Mutex::new(Vec::new(alloc));
    let passes = map_vec(
        &rt,
        passes,
        &|pass: Pass<Counter>| -> Pass<Counter>
            requires { IsPassOf port pass }
            ensures { IsPassOf port result }
        { work(&rt, alloc, &port, pass, &replies) },
    )?;
    let mut replies = replies.into_inner();
    replies.sort()?;
    assert_eq!(&rt; replies.len(), THREADS * CALLS);
    for (i, reply) in replies.iter().enumerate() {
        assert_eq!(&rt; *reply, i as u64);
    }
    let Ok((counter, count)) = port.settle(passes) else {
        panic!(&rt; "not settled")
    };
    assert_eq!(&rt; counter.number, 4_000);
    assert_eq!(&rt; count, 4_000);
    Ok(())
}

#[test]
fn a_sole_pass_is_never_busy(rt: HostRuntime) {
    let (port, mut passes) = open(&rt, rt.alloc(), Counter { number: 0 }, 1);
    for i in 0..100u64 {
        let reply = reply_to(&rt, &port, &mut passes, 0, &CounterCmd::Bump);
        assert_eq!(&rt; reply, i);
    }
    let pass = last_pass(&rt, &port, &mut passes);
    assert_eq!(&rt; pass.made(), 100);
    assert_eq!(&rt; pass.who(), 0);
}

#[test]
fn a_count_of_none_and_of_too_many_is_rejected(rt: HostRuntime) {
    for count in [0, 22] {
        match Port::new(rt.alloc(), Counter { number: 0 }, count) {
            Err(PortFault::BadCount) => {}
            _ => panic!(&rt; "{count} is refused"),
        }
    }
}

#[test]
fn a_port_has_up_to_21_passes(rt: HostRuntime) {
    let (port, passes) = open(&rt, rt.alloc(), Counter { number: 7 }, 21);
    assert_eq!(&rt; passes.len(), 21);
    let Ok((counter, count)) = port.settle(passes) else {
        panic!(&rt; "not settled")
    };
    assert_eq!(&rt; counter.number, 7);
    assert_eq!(&rt; count, 0);
}

/// Also run with failing allocations: the port opens with all its passes, or not at all.
#[test]
fn a_port_opens_or_lacks_memory(rt: HostRuntime) {
    match Port::new(rt.alloc(), Counter { number: 7 }, 21) {
        Ok((_, passes)) => assert_eq!(&rt; passes.len(), 21),
        Err(PortFault::OutOfMemory) => {}
        Err(PortFault::BadCount) => panic!(&rt; "21 is a count"),
    }
}

#[test]
fn a_port_without_one_pass_is_not_settled(rt: HostRuntime) {
    let (port, mut passes) = open(&rt, rt.alloc(), Counter { number: 0 }, 3);
    assert_eq!(&rt; reply_to(&rt, &port, &mut passes, 2, &CounterCmd::Bump), 0);
    assert_eq!(&rt; reply_to(&rt, &port, &mut passes, 2, &CounterCmd::Bump), 1);
    drop(last_pass(&rt, &port, &mut passes));
    let Err(Unsettled { port, passes }) = port.settle(passes) else {
        panic!(&rt; "settled without a pass")
    };
    let Err(Unsettled { port, mut passes }) = port.settle(passes) else {
        panic!(&rt; "settled without a pass")
    };
    assert_eq!(&rt; reply_to(&rt, &port, &mut passes, 0, &CounterCmd::Show), 2);
    assert_eq!(&rt; reply_to(&rt, &port, &mut passes, 1, &CounterCmd::Bump), 2);
    assert_eq!(&rt; last_pass(&rt, &port, &mut passes).who(), 1);
}
