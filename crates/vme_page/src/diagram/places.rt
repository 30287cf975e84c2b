//! Where the lines of a strip are.
ghost use Rattle.std.specs.Prelude.{◌≤◌};

/// The top of the first bar.
const TOP: u16 = 54;
/// The distance between two lines.
pub(crate) const LINE: u16 = 24;
/// The height of a local access.
const LOCAL: u16 = 52;
/// The space between the kinds of lines.
const SPACE: u16 = 6;
/// The height of the lines of the bus.
const BUS: u16 = 9 * LINE;
/// The greatest top of the lines of the bus.
const LOWEST: u16 = 1000;

/// Where the lines of a strip are: a bar for each slot that acts, the slots that wait, the lines of
/// the bus, and the accesses of the local ports.
#[derive(Clone, Copy, Debug, PartialEq, Eq)]
pub(crate) struct Places {
    /// The top of the first bar.
    pub(crate) bars: u16,
    /// The top of the slots that wait, if there are some.
    pub(crate) waiting: Option<u16>,
    /// The top of the lines of the bus.
    pub(crate) bus: u16,
    /// The top of the local accesses, if there are some.
    pub(crate) local: Option<u16>,
    /// The height of the strip.
    pub(crate) height: u16,
}

impl Places {
    /// Returns the places in a strip with so many bars.
    pub(crate) fn of(bars: u16, waits: bool, local: bool) -> Places {
        let below = TOP.saturating_add(bars.saturating_mul(LINE));
        let past = if waits {
            below.saturating_add(LINE)
        } else {
            below
        };
        let bus = past.saturating_add(SPACE).min(LOWEST);
        let end = bus.saturating_add(BUS + SPACE);
        Places {
            bars: TOP,
            waiting: if waits { Some(below) } else { None },
            bus,
            local: if local { Some(end) } else { None },
            height: if local {
                end.saturating_add(LOCAL)
            } else {
                end
            },
        }
    }
}
