//! Which edges of an event a cell shows, and where.
ghost use Rattle.std.specs.Prelude.{◌≡◌, ◌<◌, ◌≤◌};
ghost use Rattle.vme_page.specs.Windows.{first_edge, end_edge, shows, place, handshake_place, arbitration_place};

use vme_trace::edge::{BEGIN, EDGES, FIRST, RELEASE, SECOND};

/// The places of the edges of a handshake. They keep the order of the edges; the distances mean
/// nothing.
const HANDSHAKE: [u8; 10] = [4, 10, 18, 24, 34, 60, 72, 84, 92, 97];

/// The places of the edges of arbitration. BRn* rises where BBSY* falls.
const ARBITRATION: [u8; 4] = [12, 30, 48, 48];

/// The edges of an event that a cell shows.
#[derive(Clone, Copy, Debug, PartialEq, Eq)]
pub(crate) enum Window {
    /// All edges of an event with at most one handshake.
    Whole,
    /// The first of two handshakes.
    First,
    /// The second of two handshakes.
    Second,
    /// A request, a poll or a release.
    Arbitration,
    /// The cycle that no board answers.
    Unanswered,
    /// The release after such a cycle.
    Release,
}

impl Window {
    /// Returns the first edge that the cell shows.
    pub(crate) fn first_edge(self) -> u8
        ensures value { result ≡ first_edge self }
        ensures within { result < EDGES }
    {
        match self {
            Window::Second => SECOND,
            Window::Release => RELEASE,
            _ => BEGIN,
        }
    }

    /// Returns the edge after the last one that the cell shows.
    pub(crate) fn end_edge(self) -> u8
        ensures { result ≡ end_edge self }
    {
        match self {
            Window::First => SECOND,
            Window::Unanswered => RELEASE,
            _ => EDGES,
        }
    }

    /// Returns whether the cell shows an edge.
    pub(crate) fn shows(self, edge: u8) -> bool
        ensures { result ≡ shows self edge }
    {
        self.first_edge() <= edge && edge < self.end_edge()
    }

    /// Returns the place of an edge.
    pub(crate) fn place(self, edge: u8) -> u8
        ensures { result ≡ place self edge }
    {
        match self {
            Window::Whole | Window::First | Window::Unanswered => handshake_place(edge),
            Window::Second => handshake_place(edge.saturating_sub(SECOND - FIRST)),
            Window::Arbitration => arbitration_place(edge),
            Window::Release => arbitration_place(edge.saturating_sub(RELEASE)),
        }
    }
}

/// Returns the place of an edge of a handshake.
fn handshake_place(edge: u8) -> u8
    ensures { result ≡ handshake_place edge }
{
    match HANDSHAKE.get(usize::from(edge)) {
        Some(place) => *place,
        None => 100,
    }
}

/// Returns the place of an edge of arbitration.
fn arbitration_place(edge: u8) -> u8
    ensures { result ≡ arbitration_place edge }
{
    match ARBITRATION.get(usize::from(edge)) {
        Some(place) => *place,
        None => 66,
    }
}
