//! The bars and the local ports that strips can show.
ghost use Rattle.std.specs.Prelude.{◌≡◌, ◌≤◌, [], map, vec_len, IfOk};
ghost use Rattle.vme_page.specs.Layouts.{bars_after_run, ports_of, layout_past, bar_past};

use crate::diagram::bars::{bars, ports};
use crate::diagram::point::value_past;
use crate::diagram::window::Window;
use std::alloc::{AllocError, Global};
use std::marker::Model;
use vme_script::Config;
use vme_trace::{Change, Code, Value};

/// A slot whose script has a line over the bus, and the lines of arbitration that it drives.
#[derive(Clone, Copy, Debug, PartialEq, Eq)]
pub(crate) struct Bar {
    /// The slot.
    pub(crate) slot: u16,
    /// The level on which it requests the bus.
    pub(crate) level: u8,
    /// The code of the bus request line.
    pub(crate) request_code: Code,
    /// Its value before a cell.
    pub(crate) request: Value,
    /// The code of BBSY*.
    pub(crate) busy_code: Code,
    /// Its value before a cell.
    pub(crate) busy: Value,
}

/// A slot whose script has a line of the local port.
#[derive(Clone, Copy, Debug, PartialEq, Eq)]
pub(crate) struct LocalPort {
    /// The slot.
    pub(crate) slot: u16,
    /// The code of the write line.
    pub(crate) write: Code,
    /// The code of the offset.
    pub(crate) offset: Code,
    /// The code of the data.
    pub(crate) bytes: Code,
    /// The code of the bus error.
    pub(crate) error: Code,
}

/// A bar for each slot that requests the bus, and the local ports.
#[derive(Drop)]
pub(crate) struct Layout {
    bars: Vec<Bar>,
    ports: Vec<LocalPort>,
    ghost few_bars: { vec_len bars ≤ 26 },
    ghost few_ports: { vec_len ports ≤ 26 },
}

impl Model for Layout {
    ghost use Rattle.vme_page.specs.Layouts.{LayoutView};

    ghost Value = { LayoutView };

    ghost view = { λ l. record { bars = l.bars.items; ports = l.ports.items } };
}

impl Layout {
    /// Returns the layout for a configuration, before the first event.
    pub(crate) fn new(alloc: Global, config: &Config) -> Result<Layout, AllocError>
        ensures bars { IfOk result (λ layout. layout.bars ≡ bars_after_run config.now []) }
        ensures ports { IfOk result (λ layout. layout.ports ≡ ports_of config.now) }
    {
        Ok(Layout {
            bars: bars(alloc, config)?,
            ports: ports(alloc, config)?,
        })
    }

    /// Returns the bars.
    pub(crate) fn bars(&self) -> &[Bar]
        ensures { result.now ≡ self.now.bars }
    {
        self.bars.as_slice()
    }

    /// Returns the local ports.
    pub(crate) fn ports(&self) -> &[LocalPort]
        ensures { result.now ≡ self.now.ports }
    {
        self.ports.as_slice()
    }

    /// Records the changes of the lines of arbitration in a cell.
    pub(crate) fn pass(&mut self, window: Window, changes: &[Change])
        ensures { self.new ≡ layout_past window changes.now self.old }
    {
        record_bars(&mut self.bars, window, changes);
    }
}

impl Bar {
    /// Returns the bar after a cell.
    fn past(self, window: Window, changes: &[Change]) -> Bar
        ensures { result ≡ bar_past window changes.now self }
    {
        Bar {
            request: value_past(window, self.request_code, self.request, changes),
            busy: value_past(window, self.busy_code, self.busy, changes),
            ..self
        }
    }
}

/// Records the changes of bars in a cell.
pub(crate) fn record_bars(bars: &mut [Bar], window: Window, changes: &[Change])
    ensures { bars.new ≡ map (bar_past window changes.now) bars.old }
{
    for bar in bars.iter_mut() {
        *bar = bar.past(window, changes);
    }
}
