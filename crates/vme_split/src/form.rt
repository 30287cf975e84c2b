//! What is split, and why a line stays.
use vme_memory::Width8To32;

/// What is split.
#[derive(Clone, Copy, Debug)]
pub struct SplitForm {
    /// The width of a processor's local port. `None` if no local access is split.
    pub local: Option<Width8To32>,
    /// Whether blocks of eight-byte data become blocks of four-byte data.
    pub wide: bool,
    /// The slot whose script is split. `None` if it is each.
    pub slot: Option<u16>,
}

/// Why a line stays that is made in parts.
#[derive(Clone, Copy, Debug, PartialEq, Eq)]
pub enum Reason {
    /// It is a read-modify-write by the local port.
    LocalModify,
    /// It is a read-modify-write of eight bytes.
    WideModify,
    /// It fills a block with a datum of eight bytes whose halves differ.
    WideFill,
    /// Its bytes are not all on one board.
    Outside,
}

impl Reason {
    /// Returns the reason as it is reported.
    pub fn text(self) -> &'static str {
        match self {
            Reason::LocalModify =>
                "a read-modify-write of the local port is one event; write lr and lw if the port divides it",
            Reason::WideModify => "no read-modify-write has eight bytes; each run refuses it",
            Reason::WideFill =>
                "a bf repeats one datum, and the halves of this one differ; write bw",
            Reason::Outside => "its bytes are not all on one board; each run answers berr",
        }
    }
}
