ghost use Rattle.std.specs.Prelude.{◌≡◌, Option};
ghost use Rattle.vme_protocol.specs.Handshakes.{fresh, moved_after, vague_after, since_after, after_sample, read_lanes, reading_at};

use crate::datum::Datum;
use crate::lines::{moved, vague};
use crate::place::Place;
use crate::sample::{Sample, answer_falls, strobe_rises};
use crate::transfer::Transfer;

/// What is remembered of a handshake, from the sample before the first strobe falls on.
#[derive(Clone, Copy, Debug, PartialEq, Eq)]
pub struct Handshake {
    /// The time of the first strobe's fall.
    pub since: u64,
    /// The lines that have changed.
    pub moved: u64,
    /// The lines that have been undefined.
    pub vague: u64,
    /// In a read that DTACK* has answered, the lines of its data until a strobe rises.
    pub lanes: u64,
    /// In such a read its datum, without its data.
    pub reading: Option<Datum>,
}

impl Handshake {
    /// Returns what is remembered before the first handshake.
    pub fn fresh() -> Handshake
        ensures { result ≡ fresh }
    {
        Handshake {
            since: 0,
            moved: 0,
            vague: 0,
            lanes: 0,
            reading: None,
        }
    }

    /// Returns the time of the first strobe's fall, if one has fallen.
    pub fn since_after(&self, before: &Sample, after: &Sample) -> u64
        ensures { result ≡ since_after self.now before.now after.now }
    {
        if before.has_strobe() {
            self.since
        } else {
            after.time
        }
    }

    /// Returns the lines that have changed, from the sample before the first strobe fell.
    pub fn moved_after(&self, before: &Sample, after: &Sample) -> u64
        ensures { result ≡ moved_after self.now before.now after.now }
    {
        let moved = moved(before, after);
        if before.has_strobe() {
            self.moved | moved
        } else {
            moved
        }
    }

    /// Returns the lines that have been undefined, from the sample before the first strobe fell.
    pub fn vague_after(&self, before: &Sample, after: &Sample) -> u64
        ensures { result ≡ vague_after self.now before.now after.now }
    {
        let vague = vague(before, after);
        if before.has_strobe() {
            self.vague | vague
        } else {
            vague
        }
    }

    /// Takes a sample of a transfer, as it was before an answer of this sample.
    #[tactic(auto, unfolding(crate::specs::Handshakes::after_sample))]
    pub(crate) fn take(&mut self, transfer: &Transfer, before: &Sample, after: &Sample)
        ensures { self.new ≡ after_sample self.old transfer.now before.now after.now }
    {
        self.since = self.since_after(before, after);
        self.moved = self.moved_after(before, after);
        self.vague = self.vague_after(before, after);
        if answer_falls(before, after) {
            let reading = reading_at(transfer, transfer.place_of(after), after);
            self.lanes = read_lanes(transfer, after, reading);
            self.reading = reading;
        } else if strobe_rises(before, after) {
            self.lanes = 0;
            self.reading = None;
        }
    }
}

/// The data lines of a read that is answered.
fn read_lanes(transfer: &Transfer, s: &Sample, reading: Option<Datum>) -> u64
    ensures { result ≡ read_lanes transfer.now s.now reading }
{
    match reading {
        Some(_) => transfer.data_lanes(s),
        None => 0,
    }
}

/// The datum of a read that DTACK* answers at a place.
fn reading_at(transfer: &Transfer, place: Option<Place>, s: &Sample) -> Option<Datum>
    ensures { result ≡ reading_at transfer.now place s.now }
{
    match place {
        Some(place) if s.write && !s.dtack && !transfer.is_address_phase(s) => {
            Some(transfer.datum_at(&place, s))
        }
        _ => None,
    }
}
