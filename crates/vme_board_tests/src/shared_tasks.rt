//! The outcomes of locks, puts and takes, cycle by cycle.
ghost use Rattle.vme_shared.specs.Mailboxes.{IsMailbox};

use crate::shared_course::{BOARDS, Course, Cycle, MAILBOX, outcome};
use crate::support::{Given, map_of};
use std::process::Abort;
use vme_cycle::CycleFault;
use vme_decode::AddressMap;
use vme_shared::{LockTask, Mailbox, PutTask, SharedOutcome, TakeTask};

const FREE: (Cycle, Given) = (Cycle::Set, Given::Bytes(&[0]));

const UNLOCKED: (Cycle, Given) = (Cycle::Clear, Given::Done);

/// The job of a task.
#[derive(Clone, Copy)]
enum Job {
    Lock,
    Unlock,
    Put(u32),
    Take,
}

/// Jobs, each with its outcome, its cycles and the replies to them.
static COURSES: [(Job, SharedOutcome, Course); 24] = [
    (
        Job::Put(0xdead_beef),
        SharedOutcome::Put,
        &[
            FREE,
            (Cycle::Read(12), Given::Bytes(&[0, 0, 0, 3])),
            (Cycle::Read(16), Given::Bytes(&[0, 0, 0, 2])),
            (Cycle::Write(28, [0xde, 0xad, 0xbe, 0xef]), Given::Done),
            (Cycle::Write(12, [0, 0, 0, 4]), Given::Done),
            UNLOCKED,
        ],
    ),
    (
        Job::Put(0xdead_beef),
        SharedOutcome::Full,
        &[
            FREE,
            (Cycle::Read(12), Given::Bytes(&[0, 0, 0, 4])),
            (Cycle::Read(16), Given::Bytes(&[0, 0, 0, 2])),
            UNLOCKED,
        ],
    ),
    // A mailbox of two words that is full, with counts that wrap around.
    (
        Job::Put(0xdead_beef),
        SharedOutcome::Full,
        &[
            FREE,
            (Cycle::Read(12), Given::Bytes(&[0, 0, 0, 1])),
            (Cycle::Read(16), Given::Bytes(&[0xff, 0xff, 0xff, 0xff])),
            UNLOCKED,
        ],
    ),
    (
        Job::Put(0xdead_beef),
        SharedOutcome::Spent,
        &[
            FREE,
            (Cycle::Read(12), Given::Bytes(&[0xff, 0xff, 0xff, 0xff])),
            (Cycle::Read(16), Given::Bytes(&[0xff, 0xff, 0xff, 0xfe])),
            UNLOCKED,
        ],
    ),
    // The last word that the counts allow.
    (
        Job::Put(0xdead_beef),
        SharedOutcome::Put,
        &[
            FREE,
            (Cycle::Read(12), Given::Bytes(&[0xff, 0xff, 0xff, 0xfe])),
            (Cycle::Read(16), Given::Bytes(&[0xff, 0xff, 0xff, 0xfd])),
            (Cycle::Write(24, [0xde, 0xad, 0xbe, 0xef]), Given::Done),
            (Cycle::Write(12, [0xff, 0xff, 0xff, 0xff]), Given::Done),
            UNLOCKED,
        ],
    ),
    (
        Job::Put(0xdead_beef),
        SharedOutcome::Busy,
        &[(Cycle::Set, Given::Bytes(&[0x80]))],
    ),
    (
        Job::Take,
        SharedOutcome::Took(0xcafe_0001),
        &[
            FREE,
            (Cycle::Read(12), Given::Bytes(&[0, 0, 0, 3])),
            (Cycle::Read(16), Given::Bytes(&[0, 0, 0, 1])),
            (Cycle::Read(28), Given::Bytes(&[0xca, 0xfe, 0, 1])),
            (Cycle::Write(16, [0, 0, 0, 2]), Given::Done),
            UNLOCKED,
        ],
    ),
    // A take count that wraps around.
    (
        Job::Take,
        SharedOutcome::Took(0xcafe_0001),
        &[
            FREE,
            (Cycle::Read(12), Given::Bytes(&[0, 0, 0, 0])),
            (Cycle::Read(16), Given::Bytes(&[0xff, 0xff, 0xff, 0xff])),
            (Cycle::Read(28), Given::Bytes(&[0xca, 0xfe, 0, 1])),
            (Cycle::Write(16, [0, 0, 0, 0]), Given::Done),
            UNLOCKED,
        ],
    ),
    (
        Job::Take,
        SharedOutcome::Empty,
        &[
            FREE,
            (Cycle::Read(12), Given::Bytes(&[0, 0, 0, 3])),
            (Cycle::Read(16), Given::Bytes(&[0, 0, 0, 3])),
            UNLOCKED,
        ],
    ),
    (
        Job::Take,
        SharedOutcome::Busy,
        &[(Cycle::Set, Given::Bytes(&[0x80]))],
    ),
    (
        Job::Lock,
        SharedOutcome::Taken,
        &[(Cycle::Set, Given::Bytes(&[0x7f]))],
    ),
    (
        Job::Lock,
        SharedOutcome::Busy,
        &[(Cycle::Set, Given::Bytes(&[0x80]))],
    ),
    (Job::Lock, SharedOutcome::Berr, &[(Cycle::Set, Given::Berr)]),
    (Job::Unlock, SharedOutcome::Unlocked, &[UNLOCKED]),
    (
        Job::Unlock,
        SharedOutcome::Berr,
        &[(Cycle::Clear, Given::Berr)],
    ),
    // A bus error after the lock unlocks first.
    (
        Job::Put(9),
        SharedOutcome::Berr,
        &[(Cycle::Set, Given::Berr)],
    ),
    (
        Job::Put(9),
        SharedOutcome::Berr,
        &[FREE, (Cycle::Read(12), Given::Berr), UNLOCKED],
    ),
    (
        Job::Put(9),
        SharedOutcome::Berr,
        &[
            FREE,
            (Cycle::Read(12), Given::Bytes(&[0, 0, 0, 0])),
            (Cycle::Read(16), Given::Berr),
            UNLOCKED,
        ],
    ),
    (
        Job::Put(9),
        SharedOutcome::Berr,
        &[
            FREE,
            (Cycle::Read(12), Given::Bytes(&[0, 0, 0, 0])),
            (Cycle::Read(16), Given::Bytes(&[0, 0, 0, 0])),
            (Cycle::Write(24, [0, 0, 0, 9]), Given::Berr),
            UNLOCKED,
        ],
    ),
    (
        Job::Put(9),
        SharedOutcome::Berr,
        &[
            FREE,
            (Cycle::Read(12), Given::Bytes(&[0, 0, 0, 0])),
            (Cycle::Read(16), Given::Bytes(&[0, 0, 0, 0])),
            (Cycle::Write(24, [0, 0, 0, 9]), Given::Done),
            (Cycle::Write(12, [0, 0, 0, 1]), Given::Berr),
            UNLOCKED,
        ],
    ),
    (
        Job::Put(9),
        SharedOutcome::Berr,
        &[
            FREE,
            (Cycle::Read(12), Given::Bytes(&[0, 0, 0, 0])),
            (Cycle::Read(16), Given::Bytes(&[0, 0, 0, 0])),
            (Cycle::Write(24, [0, 0, 0, 9]), Given::Done),
            (Cycle::Write(12, [0, 0, 0, 1]), Given::Done),
            (Cycle::Clear, Given::Berr),
        ],
    ),
    (Job::Take, SharedOutcome::Berr, &[(Cycle::Set, Given::Berr)]),
    (
        Job::Take,
        SharedOutcome::Berr,
        &[
            FREE,
            (Cycle::Read(12), Given::Bytes(&[0, 0, 0, 1])),
            (Cycle::Read(16), Given::Bytes(&[0, 0, 0, 0])),
            (Cycle::Read(24), Given::Berr),
            UNLOCKED,
        ],
    ),
    (
        Job::Take,
        SharedOutcome::Berr,
        &[
            FREE,
            (Cycle::Read(12), Given::Bytes(&[0, 0, 0, 1])),
            (Cycle::Read(16), Given::Bytes(&[0, 0, 0, 0])),
            (Cycle::Read(24), Given::Bytes(&[0, 0, 0, 9])),
            (Cycle::Write(16, [0, 0, 0, 1]), Given::Berr),
            UNLOCKED,
        ],
    ),
];

/// Returns the outcome of a job.
fn outcome_of(rt: &impl Abort, map: &AddressMap, job: Job, course: Course) -> SharedOutcome {
    match job {
        Job::Lock => lock(rt, map, course),
        Job::Unlock => unlock(rt, map, course),
        Job::Put(word) => put(rt, map, word, course),
        Job::Take => take(rt, map, course),
    }
}

fn lock(rt: &impl Abort, map: &AddressMap, course: Course) -> SharedOutcome {
    let mut task = LockTask::lock(map, 2, 3, 0x0d, 0x1008).expect(rt, "refused");
    outcome(rt, &mut task, course)
}

fn unlock(rt: &impl Abort, map: &AddressMap, course: Course) -> SharedOutcome {
    let mut task = LockTask::unlock(map, 2, 3, 0x0d, 0x1008).expect(rt, "refused");
    outcome(rt, &mut task, course)
}

fn put(rt: &impl Abort, map: &AddressMap, word: u32, course: Course) -> SharedOutcome {
    let mut task = PutTask::start(map, 2, 3, MAILBOX, word).expect(rt, "refused");
    outcome(rt, &mut task, course)
}

fn take(rt: &impl Abort, map: &AddressMap, course: Course) -> SharedOutcome {
    let mut task = TakeTask::start(map, 2, 3, MAILBOX).expect(rt, "refused");
    outcome(rt, &mut task, course)
}

fn check(rt: &impl Abort, outcome: SharedOutcome, wanted: SharedOutcome, course: Course) {
    assert_eq!(rt; outcome, wanted, "{course:?}");
}

#[test]
fn each_job_goes_cycle_by_cycle(rt: HostRuntime) {
    let map = map_of(&rt, rt.alloc(), &BOARDS);
    for (job, wanted, course) in &COURSES {
        check(&rt, outcome_of(&rt, &map, *job, course), *wanted, course);
    }
}

#[test]
fn a_lock_is_refused_as_its_transfer_is(rt: HostRuntime) {
    let map = map_of(&rt, rt.alloc(), &BOARDS);
    let program = LockTask::lock(&map, 2, 3, 0x0e, 0x1008).err();
    let block = LockTask::unlock(&map, 2, 3, 0x0b, 0x1008).err();
    let program_write = LockTask::unlock(&map, 2, 3, 0x0e, 0x1008).err();
    assert_eq!(&rt;
        (program, block, program_write),
        (
            Some(CycleFault::ProgramModify),
            Some(CycleFault::WrongKindOfCode),
            None
        )
    );
}

/// A mailbox that ends with the short space.
const LAST: Mailbox = Mailbox {
    am: 0x29,
    addr: 0xffe8,
    slots: 2,
};

/// A mailbox whose last word is outside the short space.
const BEHIND: Mailbox = Mailbox {
    am: 0x29,
    addr: 0xffe8,
    slots: 3,
};

/// A mailbox with a program code, which has no read-modify-write, and with its last word outside
/// the standard space.
const PROGRAM: Mailbox = Mailbox {
    am: 0x3a,
    addr: 0x00ff_ffe8,
    slots: 3,
};

/// Checks the fault of a put and of a take with a mailbox.
fn check_fault(rt: &impl Abort, map: &AddressMap, mailbox: Mailbox, wanted: Option<CycleFault>)
    requires { IsMailbox mailbox }
{
    let put = PutTask::start(map, 2, 3, mailbox, 0).err();
    let take = TakeTask::start(map, 2, 3, mailbox).err();
    assert_eq!(rt; (put, take), (wanted, wanted));
}

#[test]
fn a_mailbox_is_refused_by_its_lock_or_its_last_word(rt: HostRuntime) {
    let map = map_of(&rt, rt.alloc(), &BOARDS);
    check_fault(&rt, &map, LAST, None);
    check_fault(&rt, &map, BEHIND, Some(CycleFault::OutsideSpace));
    check_fault(&rt, &map, PROGRAM, Some(CycleFault::ProgramModify));
}
