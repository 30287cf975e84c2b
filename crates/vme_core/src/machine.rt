ghost use Rattle.std.specs.Prelude.{◌≡◌, ◌<◌, ◌-◌, ◌^◌, ◌↔◌, ◌∷◌, [], length, map, slice_get, Some, All, IsErr, IfOk, IfErr};
ghost use Rattle.vme_arbiter.specs.declared.kind.ArbiterKind.TheVariants.{Priority};
ghost use Rattle.vme_arbiter.specs.Arbitration.{opening_bus};
ghost use Rattle.vme_core.specs.CountedStates.{fresh_count};
ghost use Rattle.vme_core.specs.Runs.{IsRun, move, target_of};
ghost use Rattle.vme_memory.specs.Locals.{command_given};
ghost use Rattle.vme_core.specs.Calls.{OnBoard, OnBus, call_of, machine_step};
ghost use Rattle.vme_core.specs.EventRefs.{call_asked, target_of_call, CanCount};
ghost use Rattle.vme_core.specs.Machines.{opening, process_count, IsThere, steps_of, counts_of, made_of, HasRun};

use crate::counted::Counted;
use crate::datum::DatumCycle;
use crate::event::{Event, EventRef, EventReply, Target};
use crate::fault::{OutOfMemory, RunStop, Spent};
use std::alloc::Global;
use std::marker::Model;
use vme_arbiter::{ArbCmd, ArbReply, Arbiter};
use vme_memory::{BoardCmd, ByteMemory, Reply};

/// Boards, the arbiter of their bus, and the steps of each, on one thread. Contracts see it as a
/// machine of plain objects with their counts.
#[derive(Drop)]
pub struct Core {
    boards: Vec<Counted<ByteMemory>>,
    bus: Counted<Arbiter>,
}

impl Model for Core {
    ghost use Rattle.std.specs.Prelude.{◌≡◌, length, All};
    ghost use Rattle.vme_core.specs.Runs.{Machine};

    ghost Value = { Machine };

    ghost view = { λ c. record { boards = c.boards.items; bus = c.bus } };

    ghost invariant = { λ c. All (λ b. length b.made ≡ length c.bus.made) c.boards.items };
}

impl Core {
    /// Returns a core of boards with these memories and a priority arbiter of a free bus, for `k`
    /// processors, before any step.
    ///
    /// # Errors
    ///
    /// An allocation failed. The memories are dropped.
    pub fn new(alloc: Global, memories: Vec<ByteMemory>, k: usize) -> Result<Core, OutOfMemory>
        ensures { IfOk result (λ core. core ≡ opening memories.items (opening_bus Priority) k) }
    {
        Core::with_arbiter(alloc, memories, Arbiter::new(), k)
    }

    /// Returns a core of boards with these memories and this arbiter, for `k` processors, before
    /// any step.
    ///
    /// # Errors
    ///
    /// An allocation failed. The memories are dropped.
    pub fn with_arbiter(
        alloc: Global,
        memories: Vec<ByteMemory>,
        arbiter: Arbiter,
        k: usize,
    ) -> Result<Core, OutOfMemory>
        ensures { IfOk result (λ core. core ≡ opening memories.items arbiter k) }
    {
        let boards = fresh_boards(alloc, memories, k)?;
        let bus = Counted::new(alloc, arbiter, k)?;
        Ok(Core { boards, bus })
    }

    /// Performs one event of `who` and returns the reply.
    ///
    /// # Errors
    ///
    /// The object of the event can count no further step, and nothing was done.
    pub fn apply(&mut self, who: usize, event: &Event) -> Result<EventReply, Spent>
        requires who { who < process_count self.old }
        requires there { IsThere self.old (target_of event.now) }
        ensures step { IfOk result (λ reply. (self.new, reply) ≡ machine_step self.old who (call_of event.now)) }
        ensures did { IfOk result (λ reply. IsRun (move who event.now reply ∷ []) self.old self.new) }
        ensures spent { IsErr result ↔ (steps_of self.old (target_of event.now) ≡ Some (2 ^ 64 - 1)) }
        ensures unchanged { IfErr result (λ _. self.new ≡ self.old) }
        ensures boards { length self.new.boards ≡ length self.old.boards }
        ensures process_count { process_count self.new ≡ process_count self.old }
    {
        match event {
            Event::Board { board, cmd } => {
                Ok(EventReply::Board(self.boards[*board].apply(who, cmd)?))
            }
            Event::Bus(cmd) => Ok(EventReply::Bus(self.bus.apply(who, cmd)?)),
        }
    }

    /// Performs one event of `who` that its object can count, given by reference, and returns the
    /// reply.
    pub fn apply_ref(&mut self, who: usize, event_ref: &EventRef<'_>) -> EventReply
        requires who { who < process_count self.old }
        requires can { CanCount self.old (target_of_call (call_asked event_ref.now)) }
        ensures step { (self.new, result) ≡ machine_step self.old who (call_asked event_ref.now) }
        ensures boards { length self.new.boards ≡ length self.old.boards }
        ensures process_count { process_count self.new ≡ process_count self.old }
    {
        match event_ref {
            EventRef::Board { board, cmd } => EventReply::Board(self.apply_board(who, *board, cmd)),
            EventRef::Datum { board, cycle } => EventReply::Board(self.apply_datum(
                who, *board, cycle,
            )),
            EventRef::Bus(cmd) => EventReply::Bus(self.apply_bus(who, *cmd)),
        }
    }

    /// Performs a command of `who` to the arbiter, which can count it, and returns the reply.
    #[inline(always)]
    pub fn apply_bus(&mut self, who: usize, cmd: ArbCmd) -> ArbReply
        requires who { who < process_count self.old }
        requires can { CanCount self.old Target.Bus }
        ensures step { (self.new, EventReply.Bus result) ≡ machine_step self.old who (OnBus cmd) }
        ensures boards { length self.new.boards ≡ length self.old.boards }
        ensures process_count { process_count self.new ≡ process_count self.old }
    {
        self.bus.reply(who, &cmd)
    }

    /// Performs a command of `who` to the board with index `board`, which can count it, and returns
    /// the reply.
    pub fn apply_board(&mut self, who: usize, board: usize, cmd: &BoardCmd) -> Reply
        requires who { who < process_count self.old }
        requires can { CanCount self.old (Target.Board board) }
        ensures step { (self.new, EventReply.Board result)
            ≡ machine_step self.old who (OnBoard board (command_given cmd.now)) }
        ensures boards { length self.new.boards ≡ length self.old.boards }
        ensures process_count { process_count self.new ≡ process_count self.old }
    {
        self.boards[board].reply(who, cmd)
    }

    /// Performs one datum of a transfer of `who` on the board with index `board`, which can count
    /// it, and returns the reply.
    #[inline(always)]
    pub fn apply_datum(&mut self, who: usize, board: usize, cycle: &DatumCycle<'_>) -> Reply
        requires who { who < process_count self.old }
        requires can { CanCount self.old (Target.Board board) }
        ensures step { (self.new, EventReply.Board result)
            ≡ machine_step self.old who (OnBoard board (command_given cycle.now)) }
        ensures boards { length self.new.boards ≡ length self.old.boards }
        ensures process_count { process_count self.new ≡ process_count self.old }
    {
        self.boards[board].datum(who, cycle)
    }

    /// Performs events one after another, each with its processor, and appends their replies. The
    /// capacity for all replies is reserved first.
    ///
    /// # Errors
    ///
    /// `OutOfMemory`: the reservation failed, and nothing was done. `Spent`: the object of an event
    /// can count no further step; the events before it were done.
    #[tactic(auto, using(crate::proofs::lemmas::RunSteps::done_nothing, crate::proofs::lemmas::RunSteps::done_more, crate::proofs::lemmas::RunSteps::run_all, crate::proofs::lemmas::RunSteps::run_spent, crate::proofs::lemmas::RunSteps::run_none))]
    pub fn run(
        &mut self,
        events: &[(usize, Event)],
        replies: &mut Vec<EventReply>,
    ) -> Result<(), RunStop>
        requires { All (λ e. (e.0 < process_count self.old) × IsThere self.old (target_of e.1)) events.now }
        ensures ran { HasRun events.now self.old self.new replies.old.items replies.new.items result }
        ensures out_of_memory { result ≡ Err RunStop.OutOfMemory
            → (self.new ≡ self.old) × (replies.new.items ≡ replies.old.items) }
        ensures boards { length self.new.boards ≡ length self.old.boards }
        ensures process_count { process_count self.new ≡ process_count self.old }
    {
        if replies.reserve(events.len()).is_err() {
            return Err(RunStop::OutOfMemory);
        }
        for (who, event) in events {
            let Ok(reply) = self.apply(*who, event) else {
                return Err(RunStop::Spent);
            };
            replies.push_reserved(reply);
        }
        Ok(())
    }

    /// Returns the number of steps of an object.
    pub fn steps(&self, target: Target) -> u64
        requires { IsThere self.now target }
        ensures { steps_of self.now target ≡ Some result }
    {
        match target {
            Target::Board(board) => self.boards[board].steps(),
            Target::Bus => self.bus.steps(),
        }
    }

    /// Returns the number of steps of `who` on an object.
    pub fn made(&self, who: usize, target: Target) -> u64
        requires who { who < process_count self.now }
        requires there { IsThere self.now target }
        ensures { made_of self.now who target ≡ Some result }
    {
        match target {
            Target::Board(board) => self.boards[board].made(who),
            Target::Bus => self.bus.made(who),
        }
    }

    /// Returns the number of steps of each processor on an object, by processor number.
    pub fn counts(&self, target: Target) -> &[u64]
        requires { IsThere self.now target }
        ensures value { counts_of self.now target ≡ Some result.now }
        ensures process_count { length result.now ≡ process_count self.now }
    {
        match target {
            Target::Board(board) => self.boards[board].counts(),
            Target::Bus => self.bus.counts(),
        }
    }

    /// Returns the arbiter.
    pub fn arbiter(&self) -> &Arbiter
        ensures { result.now ≡ self.now.bus.object }
    {
        self.bus.object()
    }

    /// Returns the memory of a board.
    pub fn memory(&self, board: usize) -> &ByteMemory
        requires { board < length self.now.boards }
        ensures { slice_get (map (λ b. b.object) self.now.boards) board ≡ Some result.now }
    {
        self.boards[board].object()
    }
}

/// Boards with these memories before any step, with a count for each of `k` processors.
fn fresh_boards(
    alloc: Global,
    memories: Vec<ByteMemory>,
    k: usize,
) -> Result<Vec<Counted<ByteMemory>>, OutOfMemory>
    ensures { IfOk result (λ boards. boards.items ≡ map (fresh_count k) memories.items) }
{
    let Ok(mut boards) = Vec::with_capacity(alloc, memories.len()) else {
        return Err(OutOfMemory);
    };
    for memory in memories {
        boards.push_reserved(Counted::new(alloc, memory, k)?);
    }
    Ok(boards)
}
