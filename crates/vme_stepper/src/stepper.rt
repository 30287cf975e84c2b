//! The boards, the arbiter and the processors of a configuration, and their turns.
ghost use Rattle.std.specs.Prelude.{◌≡◌, ◌<◌, ◌-◌, ◌^◌, ℕ, length, map, option_map, false, Some, None, IfOk, IfErr, IfSome, IsSome, OnOk, OnErr};
ghost use Rattle.std.specs.Io.KnownBytes.{Appends};
ghost use Rattle.vme_io.specs.Prefixes.{AppendsPrefix};
ghost use Rattle.vme_report.specs.Reports.{report_text, report_status};
ghost use Rattle.vme_report.specs.Ends.{IsReportFault, is_write_end};
ghost use Rattle.vme_script.specs.Configurations.{opening_memory};
ghost use Rattle.vme_script.specs.Lawful.{IsLawful};
ghost use Rattle.vme_stepper.specs.Turns.{board_in_slot, initial_state, state_after};
ghost use Rattle.vme_stepper.specs.Schedules.{schedule_turns, file_turns};
ghost use Rattle.vme_core.specs.Calls.{Call, machine_step};
ghost use Rattle.vme_core.specs.NextSteps.{Invokes, MakesCall};
ghost use Rattle.vme_line_task.specs.declared.task.LineTask.{LineTask as AnyTask};
ghost use Rattle.vme_line_task.specs.Machine.{line_to_do};
ghost use Rattle.vme_stepper.specs.Lines.{stepper_begun, line_of, call_answered};
ghost use Rattle.vme_stepper.specs.Steppers.{stepper_turn, stepper_of, texts_of_processors, processors_from, IsStepperOf, StepsWithin};

use crate::processor::Processor;
use std::alloc::{AllocError, Global};
use std::marker::Model;
use vme_arbiter::Arbiter;
use vme_core::{Core, EventReply, OutOfMemory, Target};
use vme_io::Sink;
use vme_line_task::LineTask;
use vme_memory::ByteMemory;
use vme_report::{BoardReportRef, RunFault, write_report};
use vme_script::Config;
use vme_shared::Status;

/// The boards and the arbiter of a backplane, and the processors with their scripts.
///
/// A turn of a processor is one call of `turn`, or `begin_line` and then `call` if a line is at
/// work: these show the event before it is performed, and its reply.
#[derive(Drop)]
pub struct Stepper<'a> {
    core: Core,
    processors: Vec<Processor<'a>>,
}

impl<'a> Model for Stepper<'a> {
    ghost use Rattle.vme_stepper.specs.Steppers.{StepperView};

    ghost Value = { StepperView };

    ghost view = { λ d. record { machine = d.core; processors = d.processors.items } };
}

impl<'a> Stepper<'a> {
    /// Returns the stepper before the first turn. It allocates everything that turns need.
    ///
    /// # Errors
    ///
    /// An allocation failed.
    pub fn new(alloc: Global, config: &'a Config) -> Result<Stepper<'a>, OutOfMemory>
        ensures stepper { IfOk result (λ stepper. stepper ≡ stepper_of config.now (initial_state config.now)) }
        ensures sound { IfOk result (IsStepperOf config.now) }
        ensures lawful { IsLawful config.now }
    {
        let boards = config.boards();
        let memories = zero_memories(alloc, config)?;
        let core = Core::with_arbiter(alloc, memories, config.arbiter(), boards)?;
        let processors = match fresh_processors(alloc, config) {
            Ok(processors) => processors,
            Err(_) => return Err(OutOfMemory),
        };
        Ok(Stepper { core, processors })
    }

    /// Performs a turn of the processor of the board with index `board`.
    #[inline(always)]
    pub fn turn(&mut self, config: &'a Config, board: usize)
        requires board { board < length config.now.boards }
        requires stepper { IsStepperOf config.now self.old }
        requires capacity { StepsWithin (2 ^ 64 - 2) self.old.machine }
        ensures turn { self.new ≡ stepper_turn config.now self.old board }
        ensures sound { IsStepperOf config.now self.new }
    {
        self.processors[board].turn(config, &mut self.core, board);
    }

    /// Records the replies of the lines of a board's processor that need no event, up to a line
    /// that needs one. The next turn is the same as before.
    pub fn begin_line(&mut self, config: &'a Config, board: usize)
        requires board { board < length config.now.boards }
        requires stepper { IsStepperOf config.now self.old }
        ensures begun { self.new ≡ stepper_begun config.now self.old board }
        ensures turn { stepper_turn config.now self.new board ≡ stepper_turn config.now self.old board }
        ensures over { line_of self.new board ≡ None → self.new ≡ stepper_turn config.now self.old board }
        ensures sound { IsStepperOf config.now self.new }
    {
        self.processors[board].begin_line(config, board);
    }

    /// Returns the number and the task of the current line of a board's processor, if there is one.
    /// The task has an event next.
    pub fn line(&self, board: usize) -> Option<(u16, &LineTask<'a>)>
        requires { board < length self.now.processors }
        ensures line { option_map (λ line. (line.0, line.1.now)) result ≡ line_of self.now board }
        ensures makes { IfSome result (λ line. MakesCall (line_to_do line.1.now)) }
    {
        self.processors[board].line()
    }

    /// Performs the next event of the current line of a board's processor. Returns the reply, and
    /// whether the line has ended with it.
    pub fn call(&mut self, config: &'a Config, board: usize) -> (EventReply, bool)
        requires board { board < length config.now.boards }
        requires stepper { IsStepperOf config.now self.old }
        requires work { IsSome (line_of self.old board) }
        requires capacity { StepsWithin (2 ^ 64 - 2) self.old.machine }
        ensures turn { self.new ≡ stepper_turn config.now self.old board }
        ensures answered { (line : ℕ × AnyTask) (call : Call) → line_of self.old board ≡ Some line →
            line_to_do line.1 ≡ Invokes call →
            result ≡ call_answered self.old.machine board line.1 call }
        ensures machine { (line : ℕ × AnyTask) (call : Call) → line_of self.old board ≡ Some line →
            line_to_do line.1 ≡ Invokes call →
            self.new.machine ≡ (machine_step self.old.machine board call).0 }
        ensures sound { IsStepperOf config.now self.new }
    {
        prove!(board < config.boards());
        self.processors[board].call(&mut self.core, board).unwrap()
    }

    /// Returns the arbiter of the bus.
    pub fn arbiter(&self) -> &Arbiter
        ensures { result.now ≡ self.now.machine.bus.object }
    {
        self.core.arbiter()
    }

    /// Performs turns of slots, one after another.
    pub(crate) fn run(&mut self, config: &'a Config, slots: &[u16])
        requires opening { self.old ≡ stepper_of config.now (initial_state config.now) }
        requires stepper { IsStepperOf config.now self.old }
        ensures run { self.new ≡ stepper_of config.now (state_after config.now slots.now) }
        ensures sound { IsStepperOf config.now self.new }
    {
        for slot in slots {
            if let Some(board) = board_in_slot(config, *slot) {
                self.turn(config, board);
            }
        }
    }

    /// Performs the turns of the file: those of its schedule, and then its rounds. It makes no list
    /// of them.
    pub(crate) fn run_configured(&mut self, config: &'a Config)
        requires lawful { IsLawful config.now }
        requires opening { self.old ≡ stepper_of config.now (initial_state config.now) }
        requires stepper { IsStepperOf config.now self.old }
        ensures run { self.new ≡ stepper_of config.now (state_after config.now (file_turns config.now)) }
        ensures sound { IsStepperOf config.now self.new }
    {
        self.run_schedule(config);
        self.run_rounds(config);
    }

    /// Performs the turns of the schedule.
    fn run_schedule(&mut self, config: &'a Config)
        requires lawful { IsLawful config.now }
        requires opening { self.old ≡ stepper_of config.now (initial_state config.now) }
        requires stepper { IsStepperOf config.now self.old }
        ensures run { self.new
            ≡ stepper_of config.now (state_after config.now (schedule_turns config.now.schedule)) }
        ensures sound { IsStepperOf config.now self.new }
    {
        for turns in config.schedule() {
            if let Some(board) = board_in_slot(config, turns.0) {
                for _turn in 0..turns.1 {
                    self.turn(config, board);
                }
            }
        }
    }

    /// Performs the rounds over all slots, after the schedule.
    fn run_rounds(&mut self, config: &'a Config)
        requires lawful { IsLawful config.now }
        requires scheduled { self.old
            ≡ stepper_of config.now (state_after config.now (schedule_turns config.now.schedule)) }
        requires stepper { IsStepperOf config.now self.old }
        ensures run { self.new ≡ stepper_of config.now (state_after config.now (file_turns config.now)) }
        ensures sound { IsStepperOf config.now self.new }
    {
        let boards = config.boards();
        for _round in 0..config.rounds() {
            for board in 0..boards {
                self.turn(config, board);
            }
        }
    }

    /// Writes the report and returns the status of the replies.
    pub(crate) fn report<W: Sink>(
        &self,
        alloc: Global,
        config: &Config,
        sink: &mut W,
    ) -> Result<Status, RunFault>
        requires stepper { IsStepperOf config.now self.now }
        requires unmarked { W.is_marked sink.old ≡ false }
        ensures text { OnOk result (Appends (W.contents sink.old) (W.contents sink.new)
            (report_text (texts_of_processors config.now.boards self.now.processors self.now.machine.boards))) }
        ensures prefix { OnErr result (AppendsPrefix (W.contents sink.old) (W.contents sink.new)
            (report_text (texts_of_processors config.now.boards self.now.processors self.now.machine.boards))) }
        ensures status { IfOk result (λ status. status
            ≡ report_status (texts_of_processors config.now.boards self.now.processors self.now.machine.boards)) }
        ensures write { W.is_marked sink.new ≡ is_write_end result }
        ensures faults { IfErr result IsReportFault }
    {
        let boards = self.board_reports(alloc, config)?;
        let status = write_report(alloc, &boards, sink)?;
        Ok(status)
    }

    /// Returns the report's entry for each board.
    fn board_reports<'b>(
        &'b self,
        alloc: Global,
        config: &Config,
    ) -> Result<Vec<BoardReportRef<'b>>, AllocError>
        requires { IsStepperOf config.now self.now }
        ensures { IfOk result (λ reports. reports.items
            ≡ texts_of_processors config.now.boards self.now.processors self.now.machine.boards) }
    {
        let mut reports = Vec::with_capacity(alloc, config.boards())?;
        for (board, processor) in self.processors.iter().enumerate() {
            reports.push(BoardReportRef {
                slot: config.slot(board),
                lines: processor.lines(),
                memory: self.core.memory(board),
                steps: self.core.steps(Target::Board(board)),
                made: self.core.counts(Target::Board(board)),
            })?;
        }
        Ok(reports)
    }
}

/// Returns the index of the board in a slot, if there is one.
pub fn board_in_slot(config: &Config, slot: u16) -> Option<usize>
    ensures place { result ≡ board_in_slot config.now slot }
    ensures there { IfSome result (λ board. board < length config.now.boards) }
{
    for board in 0..config.boards() {
        if config.slot(board) == slot {
            return Some(board);
        }
    }
    None
}

/// Returns the memories of the boards, all zero.
pub fn zero_memories(alloc: Global, config: &Config) -> Result<Vec<ByteMemory>, OutOfMemory>
    ensures { IfOk result (λ memories. memories.items ≡ map opening_memory config.now.boards) }
{
    let count = config.boards();
    let Ok(mut memories) = Vec::with_capacity(alloc, count) else {
        return Err(OutOfMemory);
    };
    for board in 0..count {
        memories.push_reserved(config.memory(alloc, board)?);
    }
    Ok(memories)
}

/// Returns the processors before their first lines.
fn fresh_processors<'a>(alloc: Global, config: &'a Config) -> Result<Vec<Processor<'a>>, AllocError>
    ensures { IfOk result (λ processors. processors.items
        ≡ processors_from config.now 0 (initial_state config.now).script_states) }
{
    let mut processors = Vec::with_capacity(alloc, config.boards())?;
    for board in 0..config.boards() {
        processors.push(Processor::new(alloc, config.script(board))?)?;
    }
    Ok(processors)
}
