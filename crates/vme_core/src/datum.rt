//! Data of transfers as commands to a board.
ghost use Rattle.std.specs.Prelude.{◌≡◌, ◌<◌, ◌%◌, Some};
ghost use Rattle.vme_cycle.specs.Lawful.{IsLawfulTransfer};
ghost use Rattle.vme_cycle.specs.Requests.{count_of, address_of};
ghost use Rattle.vme_memory.specs.Access.{accessed};
ghost use Rattle.vme_memory.specs.Data.{datum_command};
ghost use Rattle.vme_memory.specs.Locals.{command_given};
ghost use Rattle.vme_core.specs.Data.{datum_cycle};

use std::marker::Model;
use vme_cycle::Plan;
use vme_memory::{Access, BoardCmd, ByteMemory, Reply};
use vme_object::Operation;

/// The cycle of a datum of a lawful transfer, with the offset of its first byte on the selected
/// board. Its signals are not computed: the memory takes the datum directly. Contracts see it as
/// the command.
#[derive(Debug, Drop)]
pub struct DatumCycle<'a> {
    plan: Plan<'a>,
    i: u16,
    at: u32,
}

impl<'a> Model for DatumCycle<'a> {
    ghost use Rattle.std.specs.Prelude.{◌≡◌, ◌<◌, ◌%◌};
    ghost use Rattle.vme_cycle.specs.Lawful.{IsLawfulTransfer};
    ghost use Rattle.vme_cycle.specs.Requests.{count_of, address_of};
    ghost use Rattle.vme_memory.specs.declared.command.BoardCmd.{BoardCmd};
    ghost use Rattle.vme_core.specs.Data.{datum_cycle};

    ghost Value = { BoardCmd };

    ghost view = { λ d. datum_cycle d.plan d.i d.at };

    ghost invariant = { λ d. IsLawfulTransfer d.plan × (d.i < count_of d.plan.request) × (d.at % 4 ≡ address_of d.plan.request d.i % 4) };
}

impl<'a> DatumCycle<'a> {
    /// Returns the cycle of datum `i` of a plan. `at` is the offset of its first byte, and has the
    /// place of the datum's address in the group of four.
    pub fn new(plan: Plan<'a>, i: u16, at: u32) -> DatumCycle<'a>
        requires lawful { IsLawfulTransfer plan }
        requires in_count { i < count_of plan.request }
        requires place { at % 4 ≡ address_of plan.request i % 4 }
        ensures cycle { result ≡ datum_cycle plan.entry i at }
        ensures command { command_given result ≡ Some (datum_command plan.entry.request i at) }
    {
        prove!(i < plan.len());
        DatumCycle { plan, i, at }
    }

    /// The command, with the signals of its cycle computed.
    pub(crate) fn to_command(&self) -> BoardCmd
        ensures { result ≡ self.now }
    {
        prove!(self.i < self.plan.len());
        let f = match self.plan.modify() {
            Some(f) => Some(f.copy()),
            None => None,
        };
        BoardCmd::Cycle {
            signals: self.plan.signals(self.i),
            at: self.at,
            f,
        }
    }

    /// The datum as an access to the memory.
    pub(crate) fn access(&self) -> Access<'a>
        ensures { command_given self.now ≡ Some (accessed result) }
    {
        prove!(self.i < self.plan.len());
        Access::of_datum(self.plan.request(), self.i, self.at)
    }
}

impl Operation<ByteMemory> for DatumCycle<'_> {
    ghost use Rattle.vme_memory.specs.declared.command.BoardCmd.{BoardCmd};

    ghost command = { λ (d : BoardCmd). d };

    fn perform(&self, memory: &mut ByteMemory) -> Reply {
        memory.access(&self.access())
    }
}
