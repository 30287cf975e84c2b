//! Levels and data lanes, as C has them.
ghost use Rattle.std.specs.Prelude.{◌≡◌, map};
ghost use Rattle.vme_c_types.specs.Data.{level_of};
ghost use Rattle.vme_ffi.specs.Data.{level_number, lane_of, lane_number};

/// A lane that carries no byte, or a slot without a pending request.
const IDLE: u16 = 0xffff;

/// The number of a level: 1 is high, 0 is low.
pub(crate) fn level_number(level: bool) -> u8
    ensures level { level_of result ≡ level }
    ensures exact { result ≡ level_number level }
{
    if level { 1 } else { 0 }
}

/// What a lane carries: a byte, or nothing if the number is above 255.
fn lane_of(number: u16) -> Option<u8>
    ensures { result ≡ lane_of number }
{
    if number < 256 {
        Some(number as u8)
    } else {
        None
    }
}

/// The number of what a lane carries.
fn lane_number(lane: Option<u8>) -> u16
    ensures lane { lane_of result ≡ lane }
    ensures exact { result ≡ lane_number lane }
{
    match lane {
        Some(byte) => u16::from(byte),
        None => IDLE,
    }
}

/// What each lane carries.
pub(crate) fn lanes_of<const N: usize>(numbers: &[u16; N]) -> [Option<u8>; N]
    ensures { result ≡ map lane_of numbers.now }
{
    let mut lanes = [None; N];
    for (i, number) in numbers.iter().enumerate() {
        lanes[i] = lane_of(*number);
    }
    lanes
}

/// The numbers of what each lane carries.
pub(crate) fn lane_numbers<const N: usize>(lanes: &[Option<u8>; N]) -> [u16; N]
    ensures lanes { map lane_of result ≡ lanes.now }
    ensures exact { result ≡ map lane_number lanes.now }
{
    let mut numbers = [IDLE; N];
    for (i, lane) in lanes.iter().enumerate() {
        numbers[i] = lane_number(*lane);
    }
    numbers
}
