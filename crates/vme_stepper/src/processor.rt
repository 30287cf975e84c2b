//! A processor and its script.
ghost use Rattle.std.specs.Prelude.{◌≡◌, ◌<◌, ◌≤◌, ◌-◌, ◌^◌, ℕ, length, map, slice_set, slice_index_or, is_some, true, option_map, Some, None, IfOk, IfSome, IsSome, IsTrue};
ghost use Rattle.vme_shared.specs.declared.reply.LineReply.TheVariants.{Unfinished};
ghost use Rattle.vme_core.specs.Runs.{Machine};
ghost use Rattle.vme_core.specs.Machines.{process_count};
ghost use Rattle.vme_core.specs.Calls.{Call, machine_step};
ghost use Rattle.vme_core.specs.NextSteps.{Invokes, Returns, result_in, MakesCall};
ghost use Rattle.vme_core.specs.Advances.{AdvancesOn};
ghost use Rattle.vme_script.specs.Configurations.{Configuration};
ghost use Rattle.vme_line_task.specs.declared.task.LineTask.{LineTask as AnyTask};
ghost use Rattle.vme_line_task.specs.Machine.{line_advance, line_to_do, IsLineBelow};
ghost use Rattle.vme_stepper.specs.Steppers.{processor_turn, IsProcessorOf, StepsWithin};
ghost use Rattle.vme_stepper.specs.Lines.{processor_begun, line_in, call_answered, bus_refusal};

use std::alloc::{AllocError, Global};
use std::marker::Model;
use vme_core::{Core, EventReply};
use vme_cycle::{CycleFault, Plan};
use vme_grammar::Line;
use vme_line_task::{LineTask, ReadBuffers};
use vme_script::{Config, Script};
use vme_shared::LineReply;

/// A script with the replies of the lines that have ended, and the task of the current line, if it
/// has started.
///
/// `new` allocates all memory, including that for the bytes of the lines. The task of a line is not
/// moved between its calls.
#[derive(Drop)]
pub(crate) struct Processor<'a> {
    script: &'a Script,
    buffers: ReadBuffers,
    lines: Vec<(u16, LineReply)>,
    ended: usize,
    task: Option<LineTask<'a>>,
}

impl<'a> Model for Processor<'a> {
    ghost use Rattle.vme_stepper.specs.Steppers.{ProcessorView, IsSoundProcessor};

    ghost Value = { ProcessorView };

    ghost view = { λ l. record {
      script = l.script.now;
      lines = l.lines.items;
      ended = l.ended;
      at = l.task;
    } };

    ghost invariant = { λ l. IsSoundProcessor l.script.now l.lines.items l.ended l.task l.buffers };
}

impl<'a> Processor<'a> {
    /// Returns a processor before its first line. No line has ended.
    pub(crate) fn new(alloc: Global, script: &'a Script) -> Result<Processor<'a>, AllocError>
        ensures { IfOk result (λ processor. processor ≡ record {
          script = script.now;
          lines = map (λ line. (line.number, Unfinished)) script.now;
          ended = 0;
          at = None;
        }) }
    {
        let buffers = ReadBuffers::new(alloc, script)?;
        let mut lines = Vec::with_capacity(alloc, script.len())?;
        for j in 0..script.len() {
            lines.push_reserved((script.number(j), LineReply::Unfinished));
        }
        Ok(Processor {
            script,
            buffers,
            lines,
            ended: 0,
            task: None,
        })
    }

    /// Returns the numbers of the lines, each with its reply.
    pub(crate) fn lines(&self) -> &[(u16, LineReply)]
        ensures { result.now ≡ self.now.lines }
    {
        self.lines.as_slice()
    }

    /// Records the replies of lines that need no event, and then performs one event, if there is a
    /// line that needs one.
    #[inline(always)]
    pub(crate) fn turn(&mut self, config: &'a Config, core: &mut Core, board: usize)
        requires board { board < length config.now.boards }
        requires processor { IsProcessorOf config.now board self.old }
        requires process_count { process_count core.old ≡ length config.now.boards }
        requires boards { length core.old.boards ≡ length config.now.boards }
        requires capacity { StepsWithin (2 ^ 64 - 2) core.old }
        ensures turn { (core.new, self.new) ≡ processor_turn config.now board core.old self.old }
        ensures processor { IsProcessorOf config.now board self.new }
        ensures process_count { process_count core.new ≡ process_count core.old }
        ensures boards { length core.new.boards ≡ length core.old.boards }
    {
        if self.is_finished() {
            return;
        }
        if self.task.is_none() {
            self.seek(config, board);
        }
        self.advance_on(core, board);
    }

    /// Returns the number and the task of the current line, if there is one. The task has an event
    /// next.
    pub(crate) fn line(&self) -> Option<(u16, &LineTask<'a>)>
        ensures line { option_map (λ line. (line.0, line.1.now)) result ≡ line_in self.now }
        ensures makes { IfSome result (λ line. MakesCall (line_to_do line.1.now)) }
    {
        match &self.task {
            Some(task) => Some((self.lines[self.ended].0, task)),
            None => None,
        }
    }

    /// Records the replies of lines that need no event, up to a line that needs one.
    pub(crate) fn begin_line(&mut self, config: &'a Config, board: usize)
        requires board { board < length config.now.boards }
        requires processor { IsProcessorOf config.now board self.old }
        ensures begun { self.new ≡ processor_begun config.now board self.old }
        ensures turn { (machine : Machine) → processor_turn config.now board machine self.new
            ≡ processor_turn config.now board machine self.old }
        ensures processor { IsProcessorOf config.now board self.new }
        ensures over { self.new.at ≡ None → length self.new.lines ≤ self.new.ended }
    {
        if self.task.is_none() {
            self.seek(config, board);
        }
    }

    /// Performs the next event of the current line, if there is one. Returns the reply, and whether
    /// the line has ended with it.
    pub(crate) fn call(&mut self, core: &mut Core, board: usize) -> Option<(EventReply, bool)>
        requires who { board < process_count core.old }
        requires below { IfSome self.old.at (IsLineBelow (length core.old.boards)) }
        requires capacity { StepsWithin (2 ^ 64 - 2) core.old }
        ensures some { IsSome self.old.at → IsSome result }
        ensures turn { (config : Configuration) → IsProcessorOf config board self.old →
            IsSome self.old.at → (core.new, self.new) ≡ processor_turn config board core.old self.old }
        ensures answered { (task : AnyTask) (call : Call) → self.old.at ≡ Some task →
            line_to_do task ≡ Invokes call → result ≡ Some (call_answered core.old board task call) }
        ensures machine { (task : AnyTask) (call : Call) → self.old.at ≡ Some task →
            line_to_do task ≡ Invokes call → core.new ≡ (machine_step core.old board call).0 }
        ensures below { IfSome self.new.at (IsLineBelow (length core.old.boards)) }
        ensures lines { length self.new.lines ≡ length self.old.lines }
        ensures script { self.new.script ≡ self.old.script }
        ensures process_count { process_count core.new ≡ process_count core.old }
        ensures boards { length core.new.boards ≡ length core.old.boards }
    {
        let Some(task) = &mut self.task else {
            return None;
        };
        let reply = perform(task, core, board);
        if task.is_finished() {
            end_line(&mut self.lines, self.ended, &mut self.task);
            self.ended += 1;
            return Some((reply, true));
        }
        Some((reply, false))
    }

    /// Returns whether each line has ended.
    fn is_finished(&self) -> bool
        ensures { IsTrue result → length self.now.lines ≤ self.now.ended }
    {
        self.ended == self.lines.len()
    }

    /// Records the replies of lines that need no event, up to a line that needs one.
    fn seek(&mut self, config: &'a Config, board: usize)
        requires board { board < length config.now.boards }
        requires processor { IsProcessorOf config.now board self.old }
        requires idle { self.old.at ≡ None }
        ensures turn { (machine : Machine) → processor_turn config.now board machine self.new
            ≡ processor_turn config.now board machine self.old }
        ensures processor { IsProcessorOf config.now board self.new }
        ensures over { self.new.at ≡ None → length self.new.lines ≤ self.new.ended }
        ensures begun { self.new ≡ processor_begun config.now board self.old }
    {
        let mut has_replied = false;
        while self.ended < self.lines.len() {
            let buffer = self.buffers.take();
            if let Some(fault) = refusal_if(has_replied, self.script.line(self.ended)) {
                put_answer(&mut self.lines, self.ended, LineReply::Refused(fault));
                self.ended += 1;
                continue;
            }
            let mut task = LineTask::start(config, board, self.ended, buffer);
            task.advance(None);
            if !task.is_finished() {
                self.task = Some(task);
                return;
            }
            let answer = task.into_reply().unwrap();
            put_answer(&mut self.lines, self.ended, answer);
            self.ended += 1;
            has_replied = true;
        }
    }

    /// Performs the next event of the current line, if it has started.
    #[inline(always)]
    #[tactic(auto, using(crate::proofs::Calls::can_make))]
    fn advance_on(&mut self, core: &mut Core, board: usize)
        requires who { board < process_count core.old }
        requires below { IfSome self.old.at (IsLineBelow (length core.old.boards)) }
        requires capacity { StepsWithin (2 ^ 64 - 2) core.old }
        ensures turn { (config : Configuration) → IsProcessorOf config board self.old →
            (self.old.at ≡ None → length self.old.lines ≤ self.old.ended) →
            (core.new, self.new) ≡ processor_turn config board core.old self.old }
        ensures below { IfSome self.new.at (IsLineBelow (length core.old.boards)) }
        ensures script { self.new.script ≡ self.old.script }
        ensures lines { length self.new.lines ≡ length self.old.lines }
        ensures process_count { process_count core.new ≡ process_count core.old }
        ensures boards { length core.new.boards ≡ length core.old.boards }
    {
        let Some(task) = &mut self.task else {
            return;
        };
        if task.step_on(core, board) {
            end_line(&mut self.lines, self.ended, &mut self.task);
            self.ended += 1;
        }
    }
}

/// Returns the refusal of a line's request over the bus, if it has one and is asked for. The task of
/// a lawful request checks it once more, so `seek` asks only after a line that it has replied to.
fn refusal_if(is_asked: bool, line: &Line) -> Option<CycleFault>
    ensures { IfSome result (λ fault. bus_refusal line.now ≡ Some fault) }
{
    if is_asked { bus_refusal(line) } else { None }
}

/// Returns the refusal of a line's request over the bus, if it has one. It is the line's reply.
fn bus_refusal(line: &Line) -> Option<CycleFault>
    ensures { result ≡ bus_refusal line.now }
{
    match line {
        Line::Bus(request) => Plan::of(request).err(),
        _ => None,
    }
}

/// Performs the next event of a line and gives the line the reply, which it returns.
#[tactic(auto, using(crate::proofs::Calls::can_make))]
fn perform(task: &mut LineTask<'_>, core: &mut Core, board: usize) -> EventReply
    requires work { MakesCall (line_to_do task.old) }
    requires who { board < process_count core.old }
    requires below { IsLineBelow (length core.old.boards) task.old }
    requires capacity { StepsWithin (2 ^ 64 - 2) core.old }
    ensures reply { (call : Call) → line_to_do task.old ≡ Invokes call →
        result ≡ (machine_step core.old board call).1 }
    ensures step { AdvancesOn line_to_do line_advance board core.old core.new task.old task.new }
    ensures below { (n : ℕ) → IsLineBelow n task.old → IsLineBelow n task.new }
{
    let event_ref = task.event_ref().unwrap();
    let reply = core.apply_ref(board, &event_ref);
    task.advance(Some(&reply));
    reply
}

/// Records the reply of the current line, which has ended, and drops its task.
fn end_line(lines: &mut [(u16, LineReply)], place: usize, at_work: &mut Option<LineTask<'_>>)
    requires place { place < length lines.old }
    requires over { (task : AnyTask) → at_work.old ≡ Some task → is_some (result_in (line_to_do task)) ≡ true }
    ensures len { length lines.new ≡ length lines.old }
    ensures idle { at_work.new ≡ None }
    ensures put { (task : AnyTask) (answer : LineReply) → at_work.old ≡ Some task →
        line_to_do task ≡ Returns answer → lines.new
        ≡ slice_set lines.old place ((slice_index_or lines.old place (0, answer)).0, answer) }
{
    if let Some(task) = at_work.take() {
        put_answer(lines, place, task.into_reply().unwrap());
    }
}

/// Records the reply of the line with index `place`.
fn put_answer(lines: &mut [(u16, LineReply)], place: usize, answer: LineReply)
    requires { place < length lines.old }
    ensures { lines.new
        ≡ slice_set lines.old place ((slice_index_or lines.old place (0, answer)).0, answer) }
{
    lines[place].1 = answer;
}
