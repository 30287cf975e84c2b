//! The diagrams of a page, event by event.
ghost use Rattle.std.specs.Prelude.{◌≡◌, ◌≤◌, ◌<◌, ◌+◌, ◌-◌, ◌^◌, ◌∷◌, ◌++◌, [], List, IfOk, OnOk};
ghost use Rattle.vme_trace.specs.declared.observation.Observation.{Observation};
ghost use Rattle.vme_page.specs.Drawings.{ShowsRun, is_left_out};

use crate::diagram::Diagram;
use crate::note::print_note;
use crate::scripts::print_scripts;
use std::alloc::{AllocError, Global};
use std::marker::Model;
use vme_script::Config;
use vme_trace::{Change, EventRange, Observation, push_event};

/// The diagrams of a page so far.
#[derive(Drop)]
pub(crate) struct Drawing {
    diagram: Diagram,
    count: u32,
    changes: Vec<Change>,
}

impl Model for Drawing {
    ghost use Rattle.vme_page.specs.Drawings.{DrawingView};

    ghost Value = { DrawingView };

    ghost view = { λ d. record { diagram = d.diagram; count = d.count } };
}

impl Drawing {
    /// Returns the drawing before the first event.
    pub(crate) fn new(alloc: Global, config: &Config) -> Result<Drawing, AllocError>
        ensures { IfOk result (λ drawing. ShowsRun config.now [] drawing) }
    {
        Ok(Drawing {
            diagram: Diagram::new(alloc, config)?,
            count: 0,
            changes: Vec::new(alloc),
        })
    }

    /// Returns the number of events so far.
    pub(crate) fn count(&self) -> u32
        ensures { result ≡ self.now.count }
    {
        self.count
    }

    /// Counts an event, and draws it if it is shown.
    pub(crate) fn draw(
        &mut self,
        text: &mut Vec<u8>,
        config: &Config,
        range: EventRange,
        event: &Observation,
    ) -> Result<(), AllocError>
        requires { self.old.count < 2 ^ 32 - 1 }
        ensures count { OnOk result (self.new.count ≡ self.old.count + 1) }
        ensures shows { (events : List Observation) → ShowsRun config.now events self.old →
            OnOk result (ShowsRun config.now (events ++ event.now ∷ []) self.new) }
    {
        let number = self.count + 1;
        self.changes.clear();
        push_event(&mut self.changes, config.boards(), number, event)?;
        self.count = number;
        let changes = self.changes.as_slice();
        if is_left_out(range, number) {
            self.diagram.pass_event(event, changes);
            return Ok(());
        }
        self.diagram
            .print_event(text, config, number, event, changes)?;
        Ok(())
    }

    /// Appends what follows the diagrams: the open strip, a note, the scripts, and the begin of the
    /// report.
    pub(crate) fn print_ending(
        &mut self,
        text: &mut Vec<u8>,
        config: &Config,
        range: EventRange,
    ) -> Result<(), AllocError>
        ensures { self.new ≡ record self.old {
          diagram = record self.old.diagram { column = 0 };
        } }
    {
        self.diagram.print_end(text)?;
        print_note(text, range, self.count)?;
        print_scripts(text, config)
    }
}

/// Returns whether an event is not shown.
fn is_left_out(range: EventRange, number: u32) -> bool
    ensures { result ≡ is_left_out range number }
{
    number < range.first || range.last < number
}
