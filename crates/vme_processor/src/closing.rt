ghost use Rattle.std.specs.Prelude.{◌≡◌, ◌<◌, ◌≤◌, [], true, length, vec_len, vec_capacity, All, IfOk};
ghost use Rattle.vme_bus_objects.specs.Objects.{bus_object_step};
ghost use Rattle.vme_port_array.specs.Arrays.{opening, passes_of, objects_of};
ghost use Rattle.vme_port_array.specs.Settlements.{Settles};
ghost use Rattle.vme_processor.specs.Processors.{Machine, IsOf, members_of, passes_of_processors};

use crate::processor::Processor;
use std::alloc::Global;
use std::sync::atomic::Ordering;
use vme_bus_objects::BusObject;
use vme_machine::{Member, Unclosed};
use vme_port::Home;
use vme_port_array::Pass;

/// The greatest number of boards of a machine.
const MOST_BOARDS: usize = 21;

/// Notes an index below 21, and returns whether it was not noted before.
fn note(seen: &mut [bool; MOST_BOARDS], index: usize) -> bool {
    if index >= MOST_BOARDS || seen[index] {
        return false;
    }
    seen[index] = true;
    true
}

/// Tests whether these are all processors of one machine, each once, by their indexes and by the
/// mark that the processors of a machine share. No call of these processors may run meanwhile. No
/// clause states that the test suffices.
pub fn are_all_of_one(processors: &[Box<Processor, Global>]) -> bool
    ensures { result ≡ true → 0 < length processors.now }
{
    let Some(first) = processors.first() else {
        return false;
    };
    let mut seen = [false; MOST_BOARDS];
    let mut all = first.boards == processors.len();
    first.mark.store(1, Ordering::SeqCst);
    for processor in processors {
        let with_first = processor.mark.load(Ordering::SeqCst) == 1;
        all = note(&mut seen, processor.index) && with_first && all;
    }
    first.mark.store(0, Ordering::SeqCst);
    all
}

/// Pushes the members of processors, in order.
fn take_members(processors: Vec<Processor>, members: &mut Vec<Member<BusObject>>)
    requires { (members.old.items ≡ []) × (vec_len processors ≤ vec_capacity members.old) }
    ensures { members.new.items ≡ members_of processors.items }
{
    for processor in processors {
        let Processor { member, .. } = processor;
        members.push_reserved(member);
    }
}

/// Closes a machine with all its processors. It pushes the boards and the arbiter as the one history
/// left them onto `homes`, each with the number of its steps. `members` and `passes` are empty and
/// have capacity for all processors, so that nothing is allocated.
///
/// # Errors
/// `Unclosed` if fewer processors are given than the machine has. The processors are dropped.
pub fn close(
    processors: Vec<Processor>,
    mut members: Vec<Member<BusObject>>,
    passes: Vec<Pass<BusObject>>,
    homes: &mut Vec<Home<BusObject>>,
) -> Result<(), Unclosed>
    requires empty { vec_len homes.old ≡ 0 }
    requires members { (members.items ≡ []) × (vec_len processors ≤ vec_capacity members) }
    requires passes { (passes.items ≡ []) × (vec_len processors ≤ vec_capacity passes) }
    requires capacity { (machine : Machine) × All (IsOf machine) processors.items
        × (objects_of machine ≤ vec_capacity homes.old) }
    ensures settled { (machine : Machine) → All (IsOf machine) processors.items →
        IfOk result (λ _. Settles bus_object_step (opening machine) (passes_of machine)
        (passes_of_processors processors.items) homes.new.items) }
{
    take_members(processors, &mut members);
    Member::close(members, passes, homes)
}
