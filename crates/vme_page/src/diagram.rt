//! The diagrams of a run, event by event.
ghost use Rattle.std.specs.Prelude.{◌≡◌, ◌+◌, ◌≤◌, [], IfOk, OnOk};
ghost use Rattle.vme_page.specs.declared.diagram.window.Window.TheVariants.{Whole};
ghost use Rattle.vme_page.specs.Levels.{idle, levels_past};
ghost use Rattle.vme_page.specs.Layouts.{bars_after_run, layout_past};
ghost use Rattle.vme_page.specs.Diagrams.{IsOneCell, AreTwoCells, IsWholeEvent};

mod access;
mod acting;
mod bars;
mod cell;
mod heading;
mod layout;
mod levels;
mod places;
mod point;
mod row;
mod shape;
mod strip;
mod window;

use crate::diagram::bars::slot_of;
use crate::diagram::heading::{Heading, print_folded, print_heading};
use crate::diagram::layout::Layout;
use crate::diagram::levels::Levels;
use crate::diagram::point::Point;
use crate::diagram::strip::Strip;
use crate::diagram::window::Window;
use std::alloc::{AllocError, Global};
use std::marker::Model;
use vme_script::Config;
use vme_trace::edge::{END, SECOND};
use vme_trace::{Activity, Change, Observation};

/// The number of cells of a strip.
const CELLS: u8 = 10;

/// The diagrams of a run: what the lines show after the events so far, and where the next cell is.
#[derive(Drop)]
pub struct Diagram {
    layout: Layout,
    levels: Levels,
    column: u8,
    datum: u32,
    points: Vec<Point>,
    /// The cells of the open strip.
    strip: Strip,
    /// The heading of the next cell.
    text: Vec<u8>,
    /// The number of the last event.
    number: u32,
    /// How many polls that wait are the last events.
    polls: u32,
    ghost column_fits: { column ≤ 10 },
}

impl Model for Diagram {
    ghost use Rattle.vme_page.specs.Diagrams.{DiagramView};

    ghost Value = { DiagramView };

    ghost view = { λ d. record {
      layout = d.layout;
      levels = d.levels;
      column = d.column;
    } };
}

impl Diagram {
    /// Returns the diagrams of a configuration before the first event.
    ///
    /// # Errors
    ///
    /// An allocation failed.
    pub fn new(alloc: Global, config: &Config) -> Result<Diagram, AllocError>
        ensures levels { IfOk result (λ diagram. diagram.levels ≡ idle) }
        ensures bars { IfOk result (λ diagram. diagram.layout.bars ≡ bars_after_run config.now []) }
    {
        Ok(Diagram {
            layout: Layout::new(alloc, config)?,
            levels: Levels::idle(),
            column: 0,
            datum: 0,
            points: Vec::new(alloc),
            strip: Strip::new(alloc),
            text: Vec::new(alloc),
            number: 0,
            polls: 0,
        })
    }

    /// Draws event `number`, whose changes these are. Polls that wait are one cell, which the next other
    /// event draws.
    ///
    /// # Errors
    ///
    /// An allocation failed.
    #[tactic(auto, using(crate::proofs::Cells::after_kept))]
    pub fn print_event(
        &mut self,
        text: &mut Vec<u8>,
        config: &Config,
        number: u32,
        event: &Observation,
        changes: &[Change],
    ) -> Result<(), AllocError>
        ensures { OnOk result (IsWholeEvent changes.now self.old self.new) }
    {
        if event.waits() {
            self.fold(number);
            self.pass_event(event, changes);
            return Ok(());
        }
        self.print_polls(text)?;
        let heading = Heading {
            number,
            slot: replying_slot(config, event.slot, &event.activity),
            datum: datum_after(&event.activity, self.datum),
        };
        self.print_cells(text, config, heading, event, changes)?;
        self.datum = heading.datum;
        Ok(())
    }

    /// Counts a poll that waits.
    fn fold(&mut self, number: u32)
        ensures { self.new ≡ self.old }
    {
        self.number = number;
        self.polls = self.polls.saturating_add(1);
    }

    /// Draws the polls that wait since the last other event, if there are some.
    fn print_polls(&mut self, text: &mut Vec<u8>) -> Result<(), AllocError>
        ensures levels { self.new.levels ≡ self.old.levels }
        ensures layout { self.new.layout ≡ self.old.layout }
    {
        if self.polls == 0 {
            return Ok(());
        }
        let first = self.number.saturating_sub(self.polls - 1);
        self.open_strip(text, first, 1)?;
        self.text.clear();
        print_folded(&mut self.text, first, self.number, self.polls)?;
        self.strip
            .push(Window::Whole, self.levels, self.text.as_slice(), &[])?;
        self.polls = 0;
        self.column += 1;
        Ok(())
    }

    /// Records an event that is not drawn, whose changes these are.
    pub fn pass_event(&mut self, event: &Observation, changes: &[Change])
        ensures { IsWholeEvent changes.now self.old self.new }
    {
        self.datum = datum_after(&event.activity, self.datum);
        self.levels = self.levels.past(Window::Whole, changes);
        self.layout.pass(Window::Whole, changes);
    }

    /// Appends what is not yet printed: the polls at the end, and the open strip. The next cell begins
    /// another strip.
    ///
    /// # Errors
    ///
    /// An allocation failed.
    pub fn print_end(&mut self, text: &mut Vec<u8>) -> Result<(), AllocError>
        ensures { self.new ≡ record self.old { column = 0 } }
    {
        let printed = self.print_rest(text);
        self.column = 0;
        printed
    }

    /// Appends what is not yet printed.
    fn print_rest(&mut self, text: &mut Vec<u8>) -> Result<(), AllocError>
        ensures levels { self.new.levels ≡ self.old.levels }
        ensures layout { self.new.layout ≡ self.old.layout }
    {
        self.print_polls(text)?;
        self.strip
            .print(text, &mut self.points, self.layout.ports())
    }

    /// Appends the cells of an event.
    fn print_cells(
        &mut self,
        text: &mut Vec<u8>,
        config: &Config,
        heading: Heading,
        event: &Observation,
        changes: &[Change],
    ) -> Result<(), AllocError>
        ensures { OnOk result (IsWholeEvent changes.now self.old self.new) }
    {
        if is_long(changes) {
            self.print_two(text, config, heading, event, changes)
        } else {
            self.print_one(text, config, heading, event, changes)
        }
    }

    /// Appends an event with one cell.
    fn print_one(
        &mut self,
        text: &mut Vec<u8>,
        config: &Config,
        heading: Heading,
        event: &Observation,
        changes: &[Change],
    ) -> Result<(), AllocError>
        ensures { OnOk result (IsWholeEvent changes.now self.old self.new) }
    {
        let window = one_window(&event.activity);
        self.open_strip(text, heading.number, 1)?;
        self.print_cell(config, window, heading, event, changes)?;
        Ok(())
    }

    /// Appends an event with two cells.
    fn print_two(
        &mut self,
        text: &mut Vec<u8>,
        config: &Config,
        heading: Heading,
        event: &Observation,
        changes: &[Change],
    ) -> Result<(), AllocError>
        ensures { OnOk result (IsWholeEvent changes.now self.old self.new) }
    {
        let (first, second) = two_windows(&event.activity);
        self.open_strip(text, heading.number, 2)?;
        self.print_cell(config, first, heading, event, changes)?;
        self.print_cell(config, second, heading, event, changes)?;
        Ok(())
    }

    /// Begins a strip, unless so many cells fit into the open one.
    fn open_strip(&mut self, text: &mut Vec<u8>, number: u32, count: u8) -> Result<(), AllocError>
        requires { count ≤ 2 }
        ensures levels { self.new.levels ≡ self.old.levels }
        ensures layout { self.new.layout ≡ self.old.layout }
        ensures fits { self.new.column + count ≤ 10 }
    {
        self.column = start_of(self.column, count);
        if self.column == 0 {
            self.strip
                .print(text, &mut self.points, self.layout.ports())?;
            return self.strip.begin(number, self.layout.bars());
        }
        Ok(())
    }

    /// Appends a cell of an event in the next column.
    fn print_cell(
        &mut self,
        config: &Config,
        window: Window,
        heading: Heading,
        event: &Observation,
        changes: &[Change],
    ) -> Result<(), AllocError>
        requires { self.old.column + 1 ≤ 10 }
        ensures levels { OnOk result
            (self.new.levels ≡ levels_past window changes.now self.old.levels) }
        ensures layout { OnOk result
            (self.new.layout ≡ layout_past window changes.now self.old.layout) }
        ensures column { OnOk result (self.new.column ≡ self.old.column + 1) }
    {
        self.text.clear();
        print_heading(&mut self.text, config, heading, window, event)?;
        self.strip
            .push(window, self.levels, self.text.as_slice(), changes)?;
        self.column += 1;
        self.levels = self.levels.past(window, changes);
        self.layout.pass(window, changes);
        Ok(())
    }
}

/// Returns whether something changes after the first handshake of an event.
fn is_long(changes: &[Change]) -> bool {
    changes
        .iter()
        .any(|change| SECOND < change.edge && change.edge < END)
}

/// Returns the cell of an event that has one.
fn one_window(activity: &Activity) -> Window
    ensures { IsOneCell result }
{
    match activity {
        Activity::Requests | Activity::Polls | Activity::Releases(_) => Window::Arbitration,
        _ => Window::Whole,
    }
}

/// Returns the cells of an event that has two.
fn two_windows(activity: &Activity) -> (Window, Window)
    ensures { AreTwoCells result.0 result.1 }
{
    match activity {
        Activity::Releases(_) => (Window::Unanswered, Window::Release),
        _ => (Window::First, Window::Second),
    }
}

/// Returns the number of the last datum after an event.
fn datum_after(activity: &Activity, datum: u32) -> u32 {
    match activity {
        Activity::Transfers(transferred) if transferred.first => 1,
        Activity::Transfers(_) if datum < u32::MAX => datum + 1,
        _ => datum,
    }
}

/// Returns the slot of the board that replies to an activity; that of the processor if none does.
fn replying_slot(config: &Config, own: u16, activity: &Activity) -> u16 {
    match activity {
        Activity::Transfers(datum) if datum.board < config.boards() => slot_of(config, datum.board),
        _ => own,
    }
}

/// Returns the column in which so many cells begin: 0 if they do not fit into the open strip.
fn start_of(column: u8, count: u8) -> u8
    requires column { column ≤ 10 }
    requires count { count ≤ 2 }
    ensures { result + count ≤ 10 }
{
    if CELLS < column + count { 0 } else { column }
}
