//! Ports that are busy, because a command on their object waits for a release.
ghost use Rattle.std.specs.Prelude.{◌≡◌};
ghost use Rattle.vme_port.specs.Ports.{IsPassOf};

use crate::flags::{comes, seen};
use crate::ports::{open, reply_to};
use std::alloc::{AllocError, Global};
use std::process::Abort;
use std::sync::atomic::{AtomicBool, Ordering};
use std::sync::{Arc, Wait};
use std::test::Fail;
use std::thread::map_vec;
use vme_object::{CounterCmd, Held};
use vme_port::{Pass, Port, TryFault};

/// Returns two flags: the one that a command sets when it begins, and the one that it waits for.
fn signs(alloc: Global) -> Result<(Arc<AtomicBool>, Arc<AtomicBool>), AllocError> {
    let entered = Arc::new(alloc, AtomicBool::new(false))?;
    let release = Arc::new(alloc, AtomicBool::new(false))?;
    Ok((entered, release))
}

/// Pass 0 makes a call, and pass 1 a try while that command runs, which it then releases.
fn try_meanwhile<R: Wait + Abort>(
    rt: &R,
    port: &Port<Held>,
    entered: &AtomicBool,
    release: &AtomicBool,
    mut pass: Pass<Held>,
) -> Pass<Held>
    requires { IsPassOf port.now pass }
    ensures { IsPassOf port.entry.now result }
{
    if pass.who() == 0 {
        assert_eq!(rt; port.call(rt, &mut pass, &CounterCmd::Bump).ok(), Some(0));
        return pass;
    }
    assert!(rt; seen(entered), "the call began");
    let Err(TryFault::Busy) = port.try_call(&mut pass, &CounterCmd::Bump) else {
        panic!(rt; "not busy")
    };
    assert_eq!(rt; pass.made(), 0);
    release.store(true, Ordering::SeqCst);
    pass
}

#[test]
fn a_port_is_busy_while_a_call_is_inside(rt: HostRuntime) -> Result<(), Fail> {
    let (entered, release) = signs(rt.alloc())?;
    let held = Held::new(entered.clone()?, release.clone()?);
    let (port, passes) = open(&rt, rt.alloc(), held, 2);
    let mut passes = map_vec(
        &rt,
        passes,
        &|pass: Pass<Held>| -> Pass<Held>
            requires { IsPassOf port pass }
            ensures { IsPassOf port result }
        { try_meanwhile(&rt, &port, &entered, &release, pass) },
    )?;
    assert_eq!(&rt; reply_to(&rt, &port, &mut passes, 1, &CounterCmd::Bump), 1);
    Ok(())
}

/// Pass 0 makes a call, pass 1 another one while that command runs, and pass 2 makes none: it
/// releases the command once the second call is seen to wait.
fn call_meanwhile<R: Wait + Abort>(
    rt: &R,
    port: &Port<Held>,
    entered: &AtomicBool,
    release: &AtomicBool,
    mut pass: Pass<Held>,
) -> Pass<Held>
    requires { IsPassOf port.now pass }
    ensures { IsPassOf port.entry.now result }
{
    let who = pass.who();
    if who == 2 {
        assert!(rt; comes(|| port.is_wanted()), "the second call waits");
        release.store(true, Ordering::SeqCst);
        return pass;
    }
    if who == 1 {
        assert!(rt; seen(entered), "the first call began");
    }
    let reply = port.call(rt, &mut pass, &CounterCmd::Bump).ok();
    assert_eq!(rt; reply, Some(who as u64));
    pass
}

#[test]
fn a_call_that_parks_is_woken(rt: HostRuntime) -> Result<(), Fail> {
    let (entered, release) = signs(rt.alloc())?;
    let held = Held::new(entered.clone()?, release.clone()?);
    let (port, passes) = open(&rt, rt.alloc(), held, 3);
    let passes = map_vec(
        &rt,
        passes,
        &|pass: Pass<Held>| -> Pass<Held>
            requires { IsPassOf port pass }
            ensures { IsPassOf port result }
        { call_meanwhile(&rt, &port, &entered, &release, pass) },
    )?;
    let Ok((held, count)) = port.settle(passes) else {
        panic!(&rt; "not settled")
    };
    assert_eq!(&rt; held.number(), 2);
    assert_eq!(&rt; count, 2);
    Ok(())
}
