//! Arrays of counters, called from one thread and from two.
ghost use Rattle.std.specs.Prelude.{◌≡◌, All};
ghost use Rattle.vme_port_array.specs.Arrays.{IsPassOf};

use std::alloc::{AllocError, Global};
use std::process::Abort;
use std::sync::Wait;
use std::test::Fail;
use std::thread::map_vec;
use vme_object::{Counter, CounterCmd};
use vme_port_array::{ArrayFault, Pass, PortArray, Unsettled};

/// The number of calls that each thread makes of each object.
const CALLS: usize = 1_000;

/// Returns counters with the numbers 0, 10 and 20.
fn three_counters(alloc: Global) -> Result<Vec<Counter>, AllocError> {
    let counters = [
        Counter { number: 0 },
        Counter { number: 10 },
        Counter { number: 20 },
    ];
    Ok(Vec::from_array(alloc, counters)?)
}

/// Opens an array of three counters with two passes, and panics if that fails.
fn open(rt: &impl Abort, alloc: Global) -> (PortArray<Counter>, Vec<Pass<Counter>>)
    ensures { All (IsPassOf result.0) result.1.items }
{
    let Ok(counters) = three_counters(alloc) else {
        panic!(rt; "no memory")
    };
    match PortArray::new(alloc, counters, 2) {
        Ok(opened) => opened,
        Err(ArrayFault::OutOfMemory) => panic!(rt; "no memory"),
        Err(ArrayFault::BadCount) => panic!(rt; "a bad count"),
    }
}

/// Makes one try of the object at an index by the pass at another, and returns the reply.
fn reply_to(
    rt: &impl Abort,
    array: &PortArray<Counter>,
    passes: &mut Vec<Pass<Counter>>,
    who: usize,
    index: usize,
    cmd: CounterCmd,
) -> u64
    requires { All (IsPassOf array.now) passes.old.items }
    ensures { All (IsPassOf array.now) passes.new.items }
{
    if who >= passes.len() || index >= array.len() {
        panic!(rt; "no pass or no object")
    }
    match array.try_call(&mut passes[who], index, &cmd) {
        Ok(reply) => reply,
        Err(_) => panic!(rt; "refused"),
    }
}

/// Settles an array, and returns the number and the count of entries of each object.
fn ends(
    rt: &impl Abort,
    alloc: Global,
    array: PortArray<Counter>,
    passes: Vec<Pass<Counter>>,
) -> Result<Vec<(u64, u64)>, AllocError>
    requires { All (IsPassOf array) passes.items }
{
    let mut homes = Vec::with_capacity(alloc, array.len())?;
    if array.settle(passes, &mut homes).is_err() {
        panic!(rt; "not settled")
    }
    let mut ends = Vec::with_capacity(alloc, homes.len())?;
    for home in homes {
        let (counter, count) = home.into_parts();
        ends.push((counter.number, count))?;
    }
    Ok(ends)
}

#[test]
fn an_array_returns_its_objects_with_their_counts(rt: HostRuntime) -> Result<(), Fail> {
    let (array, mut passes) = open(&rt, rt.alloc());
    for (who, index, cmd, reply) in [
        (1, 2, CounterCmd::Bump, 20),
        (1, 2, CounterCmd::Bump, 21),
        (0, 2, CounterCmd::Show, 22),
        (0, 0, CounterCmd::Bump, 0),
        (0, 1, CounterCmd::Show, 10),
    ] {
        assert_eq!(&rt; reply_to(&rt, &array, &mut passes, who, index, cmd), reply);
    }
    for (i, pass) in passes.iter().enumerate() {
        assert_eq!(&rt; pass.who(), i);
    }
    let ends = ends(&rt, rt.alloc(), array, passes)?;
    assert_eq!(&rt; ends.as_slice(), [(1, 1), (10, 1), (22, 3)].as_slice());
    Ok(())
}

/// Bumps the object at the pass's own number and the object at index 2 alternately, `CALLS` times
/// each, and returns the pass.
fn work<R: Wait + Abort>(
    rt: &R,
    array: &PortArray<Counter>,
    mut pass: Pass<Counter>,
) -> Pass<Counter>
    requires { IsPassOf array.now pass }
    ensures { IsPassOf array.entry.now result }
{
    let own = pass.who();
    if own >= array.len() || array.len() < 3 {
        panic!(rt; "three objects")
    }
    for _ in 0..CALLS {
        for index in [own, 2] {
            let called = array.call(rt, &mut pass, index, &CounterCmd::Bump);
            assert!(rt; called.is_ok(), "spent");
        }
    }
    pass
}

#[test]
fn two_threads_share_an_array(rt: HostRuntime) -> Result<(), Fail> {
    let (array, passes) = open(&rt, rt.alloc());
    let passes = map_vec(
        &rt,
        passes,
        &|pass: Pass<Counter>| -> Pass<Counter>
            requires { IsPassOf array pass }
            ensures { IsPassOf array result }
        { work(&rt, &array, pass) },
    )?;
    let ends = ends(&rt, rt.alloc(), array, passes)?;
    let wanted = [(1_000, 1_000), (1_010, 1_000), (2_020, 2_000)];
    assert_eq!(&rt; ends.as_slice(), wanted.as_slice());
    Ok(())
}

#[test]
fn an_array_without_one_pass_is_not_settled(rt: HostRuntime) -> Result<(), Fail> {
    let (array, mut passes) = open(&rt, rt.alloc());
    assert_eq!(&rt;
        reply_to(&rt, &array, &mut passes, 1, 1, CounterCmd::Bump),
        10
    );
    drop(passes.pop());
    let mut homes = Vec::with_capacity(rt.alloc(), array.len())?;
    let Err(Unsettled { array, mut passes }) = array.settle(passes, &mut homes) else {
        panic!(&rt; "settled without a pass")
    };
    assert_eq!(&rt; homes.len(), 0);
    assert_eq!(&rt;
        reply_to(&rt, &array, &mut passes, 0, 1, CounterCmd::Bump),
        11
    );
    Ok(())
}

#[test]
fn bad_numbers_of_passes_and_objects_are_rejected(rt: HostRuntime) -> Result<(), Fail> {
    for count in [0, 22] {
        match PortArray::new(rt.alloc(), three_counters(rt.alloc())?, count) {
            Err(ArrayFault::BadCount) => {}
            _ => panic!(&rt; "{count} passes are refused"),
        }
    }
    for count in [0, 65] {
        let mut objects = Vec::with_capacity(rt.alloc(), count)?;
        for number in 0..count {
            objects.push(Counter {
                number: number as u64,
            })?;
        }
        match PortArray::new(rt.alloc(), objects, 1) {
            Err(ArrayFault::BadCount) => {}
            _ => panic!(&rt; "{count} objects are refused"),
        }
    }
    Ok(())
}

/// Also run with failing allocations: the array opens with all its passes, or not at all.
#[test]
fn an_array_opens_or_lacks_memory(rt: HostRuntime) {
    let Ok(counters) = three_counters(rt.alloc()) else {
        return;
    };
    match PortArray::new(rt.alloc(), counters, 21) {
        Ok((_, passes)) => assert_eq!(&rt; passes.len(), 21),
        Err(ArrayFault::OutOfMemory) => {}
        Err(ArrayFault::BadCount) => panic!(&rt; "21 is a count"),
    }
}
