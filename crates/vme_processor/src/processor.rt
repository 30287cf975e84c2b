ghost use Rattle.std.specs.Prelude.{◌≡◌, ◌+◌, ◌-◌, ◌^◌, ◌<◌, ◌≤◌, length};
ghost use Rattle.std.specs.Arc.{arc_value};
ghost use Rattle.vme_port.specs.Calls.{UnlessBusy, IfBusy, IfSpent};
ghost use Rattle.vme_port_array.specs.Arrays.{opening, passes_of, objects_of};
ghost use Rattle.vme_port_array.specs.Parts.{part};
ghost use Rattle.vme_port_array.specs.Calls.{entries_of, Adds};
ghost use Rattle.vme_bus_objects.specs.declared.command.BusCommand.TheVariants as commands;
ghost use Rattle.vme_bus_objects.specs.Objects.{bus_object_step};

use crate::work::Work;
use std::alloc::Global;
use std::sync::Arc;
use std::sync::atomic::AtomicU64;
use vme_bus_objects::{BoardOperation, BusObject};
use vme_core::EventReply;
use vme_decode::AddressMap;
use vme_machine::Member;
use vme_memory::ByteMemory;
use vme_object::Operation;
use vme_port::TryFault;

/// A processor of a machine. It reaches each board by the board's index, and the arbiter by the
/// index `boards`, after all boards.
#[derive(Drop)]
pub struct Processor {
    pub(crate) member: Member<BusObject>,
    pub(crate) boards: usize,
    /// The index of its own board.
    pub(crate) index: usize,
    /// A mark that all processors of the machine share, and no others.
    pub(crate) mark: Arc<AtomicU64, Global>,
    /// The addresses at which the boards respond.
    pub(crate) map: Arc<AddressMap, Global>,
    /// The slot that requests the bus for it.
    pub(crate) slot: u16,
    /// The level of these requests.
    pub(crate) level: u8,
    /// What it does over the bus, or has done last, if it has started anything.
    pub(crate) task: Option<Work>,
    ghost objects: { objects_of (arc_value member.array) ≡ boards + 1 },
    ghost own: { index < boards },
}

impl Processor {
    /// Performs an operation on the processor's own board if no other processor holds it, and
    /// returns the reply. It never waits.
    ///
    /// # Errors
    /// `Busy` if another processor holds the board, and `Spent` if the board has made 2^64 - 1
    /// steps. Neither adds an entry.
    pub fn try_own<A: Operation<ByteMemory>>(
        &mut self,
        operation: &A,
    ) -> Result<EventReply, TryFault>
        ensures array { arc_value self.new.member.array ≡ arc_value self.old.member.array }
        ensures boards { self.new.boards ≡ self.old.boards }
        ensures index { self.new.index ≡ self.old.index }
        ensures task { self.new.task ≡ self.old.task }
        ensures map { arc_value self.new.map ≡ arc_value self.old.map }
        ensures place { (self.new.slot ≡ self.old.slot) × (self.new.level ≡ self.old.level) }
        ensures adds { UnlessBusy result
            (Adds bus_object_step (opening (arc_value self.old.member.array))
            (entries_of self.old.member.pass.who self.old.index (commands.Board (A.command operation.now)) result)
            self.old.member.pass self.new.member.pass) }
        ensures busy { IfBusy result (self.new.member.pass ≡ self.old.member.pass) }
        ensures shared { IfBusy result (2 ≤ passes_of (arc_value self.old.member.array)) }
        ensures full { IfSpent result (length (part self.old.index self.new.member.pass.seen) ≡ 2 ^ 64 - 1) }
    {
        self.member
            .try_operation(self.index, &BoardOperation { operation })
    }
}
