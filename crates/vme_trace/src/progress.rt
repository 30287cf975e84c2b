//! How far a dump is.
ghost use Rattle.std.specs.Prelude.{◌≡◌, ◌<◌, ◌≤◌, ◌-◌, ◌^◌};
ghost use Rattle.vme_trace.specs.Selections.{start_progress, comes_before, is_shown, next_progress};

use crate::observation::Observation;
use crate::range::EventRange;

/// Which events a dump shows.
#[derive(Clone, Copy, Debug, PartialEq, Eq)]
pub struct Selection {
    /// Their numbers.
    pub range: EventRange,
    /// Whether polls that wait are shown too.
    pub polls: bool,
}

/// How far a dump is.
#[derive(Clone, Copy, Debug, PartialEq, Eq)]
pub(crate) struct Progress {
    /// Which events it shows.
    pub(crate) selection: Selection,
    /// How many events there were so far.
    pub(crate) number: u32,
    /// How many of them are shown.
    pub(crate) shown: u32,
    /// Whether the header is written.
    pub(crate) opened: bool,
}

impl Progress {
    /// Returns the progress before the first event.
    pub(crate) fn start(selection: Selection) -> Progress
        ensures { result ≡ start_progress selection }
    {
        Progress {
            selection,
            number: 0,
            shown: 0,
            opened: false,
        }
    }

    /// Returns whether the next event comes before those that are shown.
    pub(crate) fn comes_before(self) -> bool
        requires { self.number < 2 ^ 32 - 1 }
        ensures { result ≡ comes_before self }
    {
        self.number + 1 < self.selection.range.first
    }

    /// Returns whether the next event is shown.
    pub(crate) fn shows(self, event: &Observation) -> bool
        requires { self.number < 2 ^ 32 - 1 }
        ensures { result ≡ is_shown self event.now }
    {
        let range = self.selection.range;
        range.first <= self.number + 1
            && self.number + 1 <= range.last
            && (self.selection.polls || !event.waits())
    }

    /// Returns the progress after the next event.
    pub(crate) fn next(self, event: &Observation) -> Progress
        requires few { self.number < 2 ^ 32 - 1 }
        requires within { self.shown ≤ self.number }
        ensures { result ≡ next_progress self event.now }
    {
        Progress {
            number: self.number + 1,
            shown: if self.shows(event) {
                self.shown + 1
            } else {
                self.shown
            },
            opened: self.opened || !self.comes_before(),
            ..self
        }
    }
}
