//! The lines that a message shows, with their levels.
ghost use Rattle.std.specs.Prelude.{◌≡◌, ◌≤◌, ◌<◌, ◌++◌, ◌-◌, bit_or, codes, string_bytes, Some, OnOk};
ghost use Rattle.vme_judge.specs.Levels.{bits_of, changed, digit_text, digits_of, digits_text, driven, holder, holders, is_same, level, levels_text, lower, name_of, shown_lines, undefined, upper};

use std::alloc::AllocError;
use std::fmt::Write;
use vme_protocol::{Rule, Sample};

/// A line or a group of lines.
#[derive(Clone, Copy, Debug, PartialEq, Eq)]
pub(crate) enum Shown {
    AddressStrobe,
    UpperStrobe,
    LowerStrobe,
    Acknowledge,
    BusError,
    Busy,
    Write,
    Modifier,
    Address,
    LongWord,
    Data,
    /// What a slot drives on BBSY*.
    Driver(u8),
}

/// The greatest number of lines that a message shows.
pub(crate) const MOST_SHOWN: usize = 5;

/// The lines that a message shows.
pub(crate) type ShownLines = [Option<Shown>; MOST_SHOWN];

/// Returns the lines that the message of a rule shows.
pub(crate) fn shown_lines(rule: Rule, before: &Sample, after: &Sample) -> ShownLines
    ensures { result ≡ shown_lines rule before.now after.now }
{
    let strobes = [Some(Shown::UpperStrobe), Some(Shown::LowerStrobe)];
    let answers = [Some(Shown::Acknowledge), Some(Shown::BusError)];
    let [upper, lower] = strobes;
    let [acknowledge, error] = answers;
    let address_strobe = Some(Shown::AddressStrobe);
    match rule {
        Rule::CodeUnknown => [Some(Shown::Modifier), None, None, None, None],
        Rule::AddressStrobeFalls => [address_strobe, Some(Shown::Busy), upper, lower, acknowledge],
        Rule::AddressStrobeRises => [address_strobe, upper, lower, None, None],
        Rule::LoneStrobe => [upper, lower, address_strobe, None, None],
        Rule::AddressChanges => [
            changed(before, after, Shown::Modifier),
            changed(before, after, Shown::Address),
            changed(before, after, Shown::LongWord),
            address_strobe,
            None,
        ],
        Rule::DataChange => [
            changed(before, after, Shown::Write),
            changed(before, after, Shown::Data),
            upper,
            lower,
            None,
        ],
        Rule::Undefined => [
            undefined(after, Shown::Modifier),
            undefined(after, Shown::Write),
            undefined(after, Shown::Address),
            undefined(after, Shown::LongWord),
            undefined(after, Shown::Data),
        ],
        Rule::AnswerAlone | Rule::AnswerRises => [acknowledge, error, upper, lower, None],
        Rule::StrobeUnderAnswer | Rule::StrobeRises | Rule::Timeout => {
            [upper, lower, acknowledge, error, None]
        }
        Rule::TwoAnswers => [acknowledge, error, None, None, None],
        Rule::Transfer => [
            Some(Shown::Modifier),
            Some(Shown::Address),
            Some(Shown::LongWord),
            upper,
            lower,
        ],
        Rule::TwoHolders | Rule::Grant => holders(before, after),
        Rule::BusError | Rule::NoBoard => [acknowledge, error, None, None, None],
        Rule::WrongBytes | Rule::TornModify | Rule::PortUndefined => [None; MOST_SHOWN],
    }
}

/// Whether lines have the same levels at two samples.
fn is_same(shown: Shown, before: &Sample, after: &Sample) -> bool
    ensures { result ≡ is_same shown before.now after.now }
{
    let (levels, vague) = shown.bits(before);
    let (next_levels, next_vague) = shown.bits(after);
    levels == next_levels && vague == next_vague
}

/// A line, if its level changes.
fn changed(before: &Sample, after: &Sample, shown: Shown) -> Option<Shown>
    ensures { result ≡ changed before.now after.now shown }
{
    if is_same(shown, before, after) {
        None
    } else {
        Some(shown)
    }
}

/// A line, if it is undefined.
fn undefined(after: &Sample, shown: Shown) -> Option<Shown>
    ensures { result ≡ undefined after.now shown }
{
    let (_, vague) = shown.bits(after);
    if vague == 0 { None } else { Some(shown) }
}

/// The lowest of slots, and the others; BBSY* after the last one.
fn holder(slots: Option<u32>) -> (Option<Shown>, Option<u32>)
    ensures { result ≡ holder slots }
{
    match slots {
        None => (None, None),
        Some(0) => (Some(Shown::Busy), None),
        Some(slots) => {
            let slot = slots.trailing_zeros() as u8 + 1;
            (Some(Shown::Driver(slot)), Some(slots & (slots - 1)))
        }
    }
}

/// The slots that drive BBSY* before or at a sample, and BBSY*.
fn holders(before: &Sample, after: &Sample) -> ShownLines
    ensures { result ≡ holders 5 (Some (bit_or before.now.drivers after.now.drivers)) }
{
    let (first, slots) = holder(Some(before.drivers | after.drivers));
    let (second, slots) = holder(slots);
    let (third, slots) = holder(slots);
    let (fourth, slots) = holder(slots);
    let (fifth, _) = holder(slots);
    [first, second, third, fourth, fifth]
}

impl Shown {
    /// Appends its name.
    ///
    /// # Errors
    ///
    /// An allocation failed.
    pub(crate) fn write_name(self, to: &mut String) -> Result<(), AllocError>
        ensures { OnOk result (string_bytes to.new ≡ string_bytes to.old ++ name_of self) }
    {
        let name = match self {
            Shown::AddressStrobe => "AS*",
            Shown::UpperStrobe => "DS1*",
            Shown::LowerStrobe => "DS0*",
            Shown::Acknowledge => "DTACK*",
            Shown::BusError => "BERR*",
            Shown::Busy => "BBSY*",
            Shown::Write => "WRITE*",
            Shown::Modifier => "AM5-AM0",
            Shown::Address => "A31-A01",
            Shown::LongWord => "LWORD*",
            Shown::Data => "D31-D00",
            Shown::Driver(slot) => return write!(to, "BBSY* of slot {slot}"),
        };
        to.push_str(name)
    }

    /// The levels of its lines, and which of them are undefined.
    fn bits(self, sample: &Sample) -> (u32, u32)
        ensures { result ≡ bits_of self sample.now }
    {
        let lines = sample.lines;
        let vague = sample.lines_undefined;
        match self {
            Shown::AddressStrobe => (level(sample.address_strobe), 0),
            Shown::UpperStrobe => (level(sample.ds1), 0),
            Shown::LowerStrobe => (level(sample.ds0), 0),
            Shown::Acknowledge => (level(sample.dtack), 0),
            Shown::BusError => (level(sample.berr), 0),
            Shown::Busy => (level(sample.busy), 0),
            Shown::Write => (level(sample.write), level(sample.write_undefined)),
            Shown::Modifier => (
                u32::from(sample.am),
                if sample.am_undefined { 63 } else { 0 },
            ),
            Shown::Address => (upper(lines) & 0xffff_fffe, upper(vague) & 0xffff_fffe),
            Shown::LongWord => (upper(lines) & 1, upper(vague) & 1),
            Shown::Data => (lower(lines), lower(vague)),
            Shown::Driver(slot) => (driven(slot, sample.drivers), 0),
        }
    }

    /// The number of hexadecimal digits of its levels.
    fn digits(self) -> u32
        ensures digits { result ≡ digits_of self }
        ensures few { result ≤ 8 }
    {
        match self {
            Shown::Modifier => 2,
            Shown::Address | Shown::Data => 8,
            _ => 1,
        }
    }

    /// Appends its levels at a sample; `x` stands for four lines of which one is undefined.
    ///
    /// # Errors
    ///
    /// An allocation failed.
    #[tactic(auto, unfolding(crate::specs::Levels::levels_text))]
    pub(crate) fn write_levels(self, sample: &Sample, to: &mut String) -> Result<(), AllocError>
        ensures { OnOk result (string_bytes to.new ≡ string_bytes to.old ++ levels_text self sample.now) }
    {
        let bits = self.bits(sample);
        write_digits(self.digits(), bits, to)
    }
}

/// Appends the last digits of levels, as many as are given.
fn write_digits(digits: u32, bits: (u32, u32), to: &mut String) -> Result<(), AllocError>
    requires { digits ≤ 8 }
    ensures { OnOk result (string_bytes to.new ≡ string_bytes to.old ++ digits_text digits bits) }
{
    if digits == 0 {
        return Ok(());
    }
    let place = digits - 1;
    write_digit(bits, place, to)?;
    write_digits(place, bits, to)
}

/// Appends the digit of four lines.
fn write_digit(bits: (u32, u32), place: u32, to: &mut String) -> Result<(), AllocError>
    requires { place < 8 }
    ensures { OnOk result (string_bytes to.new ≡ string_bytes to.old ++ digit_text bits.0 bits.1 place) }
{
    let (bits, vague) = bits;
    let below = 4 * place;
    if vague >> below & 15 != 0 {
        return to.push_str("x");
    }
    let value = bits >> below & 15;
    write!(to, "{value:x}")
}

/// The level of a line as a digit.
fn level(is_high: bool) -> u32
    ensures { result ≡ level is_high }
{
    if is_high { 1 } else { 0 }
}

/// The level of what a slot drives on BBSY*.
fn driven(slot: u8, drivers: u32) -> u32
    ensures { result ≡ driven slot drivers }
{
    let place = u32::from(slot.saturating_sub(1));
    1 - (drivers.wrapping_shr(place) & 1)
}

/// A31 to A01 and LWORD*.
fn upper(lines: u64) -> u32
    ensures { result ≡ upper lines }
{
    (lines >> 32) as u32
}

/// D31 to D00.
fn lower(lines: u64) -> u32
    ensures { result ≡ lower lines }
{
    (lines & 0xffff_ffff) as u32
}
