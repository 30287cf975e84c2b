//! Waits for the bus: three processors that use the bus in rotation, one that waits for 300
//! milliseconds, and one that sleeps until another wakes it.
use std::sync::Wait;
use std::sync::atomic::{AtomicBool, AtomicU64, Ordering};
use std::test::Fail;
use std::thread::{Threads, join};
use std::time::{Clock, Duration, Instant};
use std::{io, thread};
use vme_bus_wait::{BusWaiters, WaitState};

/// The number of times that each processor proceeds.
const TURNS: u64 = 1000;

/// Proceeds `TURNS` times; among three processors, each proceeds after the previous one.
fn proceed_in_rotation<R: Wait>(rt: &R, waiters: &BusWaiters, turn: &AtomicU64, who: usize) {
    let mut wait_state = WaitState::new();
    for round in 0..TURNS {
        let mine = round.wrapping_mul(3).wrapping_add(who as u64);
        for _ in rt.forever() {
            let seen = waiters.releases();
            if turn.load(Ordering::SeqCst) == mine {
                break;
            }
            waiters.wait(rt, who, seen, &mut wait_state);
        }
        waiters.leave(&mut wait_state);
        turn.fetch_add(1, Ordering::SeqCst);
        waiters.release(&mut wait_state);
    }
}

/// Runs `proceed_in_rotation` for three processors, each on a thread.
fn three<R: Threads + Wait + Sync>(rt: &R, waiters: &BusWaiters, turn: &AtomicU64) {
    join(
        rt,
        || proceed_in_rotation(rt, waiters, turn, 0),
        || {
            join(
                rt,
                || proceed_in_rotation(rt, waiters, turn, 1),
                || proceed_in_rotation(rt, waiters, turn, 2),
            )
        },
    );
}

#[test]
fn three_proceed_in_rotation(rt: HostRuntime) -> Result<(), Fail> {
    let waiters = BusWaiters::new(rt.alloc(), 3)?;
    let turn = AtomicU64::new(0);
    three(&rt, &waiters, &turn);
    assert_eq!(&rt; turn.load(Ordering::SeqCst), 3 * TURNS);
    Ok(())
}

/// How long the bus is held, in milliseconds.
const HELD: u64 = 300;

/// Waits for a flag, and returns the number of rounds that it waited.
fn rounds_until<R: Wait>(rt: &R, waiters: &BusWaiters, sign: &AtomicBool, who: usize) -> u64 {
    let mut wait_state = WaitState::new();
    let mut rounds = 0_u64;
    for _ in rt.forever() {
        let seen = waiters.releases();
        if sign.load(Ordering::SeqCst) {
            break;
        }
        waiters.wait(rt, who, seen, &mut wait_state);
        rounds = rounds.wrapping_add(1);
    }
    waiters.leave(&mut wait_state);
    rounds
}

/// Holds the bus for `HELD` milliseconds, sets the flag, and releases the bus.
fn hold<R: Clock>(rt: &R, waiters: &BusWaiters, sign: &AtomicBool) {
    thread::sleep(rt, Duration::from_millis(HELD));
    sign.store(true, Ordering::SeqCst);
    waiters.release(&mut WaitState::new());
}

/// Returns the number of rounds that one processor waits while the other holds the bus.
fn rounds_while_held<R: Threads + Wait + Clock + Sync>(
    rt: &R,
    waiters: &BusWaiters,
    sign: &AtomicBool,
) -> u64 {
    join(
        rt,
        || rounds_until(rt, waiters, sign, 0),
        || hold(rt, waiters, sign),
    )
    .0
}

/// A processor that does not sleep needs a few microseconds a round, so it would need tens of
/// thousands of rounds.
#[test]
fn who_waits_long_sleeps(rt: HostRuntime) -> Result<(), Fail> {
    for count in 2..4 {
        let waiters = BusWaiters::new(rt.alloc(), count)?;
        let sign = AtomicBool::new(false);
        let rounds = rounds_while_held(&rt, &waiters, &sign);
        assert!(&rt; rounds < 1000, "{rounds} rounds, for {count} processors");
    }
    Ok(())
}

/// How a processor that uses the bus, or waits for it, wakes one that sleeps.
#[derive(Clone, Copy)]
enum Waking {
    /// It releases the bus.
    Release,
    /// It waits for `STILL_ROUNDS` rounds without a release.
    StillRounds,
}

/// The number of rounds without a release after which the sleepers are first woken.
const STILL_ROUNDS: u64 = 8;

/// The number of rounds without a release after which the last processor awake sleeps.
const LONG_STILL_ROUNDS: u64 = 64;

/// The longest sleep, in milliseconds. A sleep that no other processor ends takes this long.
const LONGEST: u64 = 10;

/// The greatest number of sleeps. A busy machine may prolong most of them.
const SLEEPS: u64 = 400;

/// The number of short sleeps that show that the sleeper is woken. A few sleeps are short by chance:
/// the release comes just before them.
const SHORT_SLEEPS: u64 = 5;

/// What the sleeper and the processor that wakes it share.
#[derive(Drop)]
struct Meeting {
    /// Whether the sleeper has to end.
    sign: AtomicBool,
    /// The number of rounds that the sleeper has begun.
    rounds: AtomicU64,
}

/// Waits for the sign, and returns how long the last round took.
fn last_round<R: Wait + Clock>(
    rt: &R,
    waiters: &BusWaiters,
    meeting: &Meeting,
) -> io::Result<Duration> {
    let mut wait_state = WaitState::new();
    let mut last = Duration::from_millis(LONGEST);
    for _ in rt.forever() {
        let seen = waiters.releases();
        if meeting.sign.load(Ordering::SeqCst) {
            break;
        }
        meeting.rounds.fetch_add(1, Ordering::SeqCst);
        let start = Instant::now(rt)?;
        waiters.wait(rt, 0, seen, &mut wait_state);
        last = start.elapsed(rt)?;
    }
    waiters.leave(&mut wait_state);
    Ok(last)
}

/// Lets the other processor begin a round in which it sleeps, and sleep for a millisecond. Then sets
/// the sign and wakes that processor.
fn wake<R: Wait + Clock>(rt: &R, waiters: &BusWaiters, meeting: &Meeting, waking: Waking) {
    for _ in rt.forever() {
        if meeting.rounds.load(Ordering::SeqCst) > LONG_STILL_ROUNDS {
            break;
        }
        thread::yield_now();
    }
    thread::sleep(rt, Duration::from_millis(1));
    meeting.sign.store(true, Ordering::SeqCst);
    let mut wait_state = WaitState::new();
    match waking {
        Waking::Release => waiters.release(&mut wait_state),
        Waking::StillRounds => {
            for _ in 0..STILL_ROUNDS {
                waiters.wait(rt, 1, waiters.releases(), &mut wait_state);
            }
            waiters.leave(&mut wait_state);
        }
    }
}

/// Lets one processor sleep and another wake it. Returns how long the sleeper's last round took.
fn woken_after<R: Threads + Wait + Clock + Sync>(
    rt: &R,
    waiters: &BusWaiters,
    waking: Waking,
) -> io::Result<Duration> {
    let meeting = Meeting {
        sign: AtomicBool::new(false),
        rounds: AtomicU64::new(0),
    };
    join(
        rt,
        || last_round(rt, waiters, &meeting),
        || wake(rt, waiters, &meeting, waking),
    )
    .0
}

/// Lets one processor sleep and another wake it, until `SHORT_SLEEPS` sleeps were short. Returns the
/// number of those that were.
fn short_sleeps<R: Threads + Wait + Clock + Sync>(
    rt: &R,
    waiters: &BusWaiters,
    waking: Waking,
) -> io::Result<u64> {
    let mut short = 0_u64;
    for _ in 0..SLEEPS {
        if short >= SHORT_SLEEPS {
            break;
        }
        if woken_after(rt, waiters, waking)? < Duration::from_millis(LONGEST) {
            short = short.wrapping_add(1);
        }
    }
    Ok(short)
}

/// If no other processor wakes the sleeper, each of its sleeps takes at least `LONGEST`
/// milliseconds, but for those that are short by chance.
#[test]
fn who_sleeps_is_woken(rt: HostRuntime) -> Result<(), Fail> {
    for (count, waking) in [
        (2, Waking::Release),
        (3, Waking::Release),
        (3, Waking::StillRounds),
    ] {
        let waiters = BusWaiters::new(rt.alloc(), count)?;
        let short = short_sleeps(&rt, &waiters, waking)?;
        assert!(&rt;
            short >= SHORT_SLEEPS,
            "{short} of {SLEEPS}, for {count} processors"
        );
    }
    Ok(())
}
