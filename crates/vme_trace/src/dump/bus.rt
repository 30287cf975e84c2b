//! The lines of the bus in the handshakes of an event.
ghost use Rattle.std.specs.Prelude.{◌≡◌, ◌<◌, ◌++◌, OnOk};
ghost use Rattle.vme_trace.specs.Variables.{board_of};
ghost use Rattle.vme_trace.specs.Bus.{is_wide, address_number, drive_edge, upper_number, address_strobe_changes, address_changes, level_changes, data_strobe_changes, data_changes, answer_changes, handshake_changes, some_handshake_changes, address_level_changes, byte_on, lower_lanes, upper_lanes};

use crate::dump::change::{Change, Value, push_if};
use crate::dump::edge::{
    ADDRESS_RELEASED, ANSWER_FALLS, ANSWER_RISES, BEGIN, BOARD_DRIVES, DATA_RELEASED, FIRST,
    MASTER_DRIVES, SECOND, STROBES_FALL, STROBES_RISE,
};
use crate::dump::handshake::Handshake;
use crate::dump::variable::Variable;
use std::alloc::AllocError;
use vme_cycle::Signals;

/// Appends the changes of a handshake, if there is one.
pub(crate) fn push_some_handshake(
    changes: &mut Vec<Change>,
    shake: Option<Handshake>,
) -> Result<(), AllocError>
    ensures { OnOk result (changes.new.items ≡ changes.old.items ++ some_handshake_changes shake) }
{
    match shake {
        Some(shake) => push_handshake(changes, &shake),
        None => Ok(()),
    }
}

/// Appends the changes of a handshake, in order of the variables.
#[tactic(auto, unfolding(crate::specs::Bus::handshake_changes))]
fn push_handshake(changes: &mut Vec<Change>, shake: &Handshake) -> Result<(), AllocError>
    ensures { OnOk result (changes.new.items ≡ changes.old.items ++ handshake_changes shake.now) }
{
    push_address_strobe(changes, shake)?;
    push_address(changes, shake)?;
    push_levels(changes, shake)?;
    push_data_strobes(changes, shake)?;
    push_data(changes, shake)?;
    push_answer(changes, shake)
}

/// AS* and the address modifier.
#[tactic(auto, unfolding(crate::specs::Bus::address_strobe_changes))]
fn push_address_strobe(changes: &mut Vec<Change>, shake: &Handshake) -> Result<(), AllocError>
    ensures { OnOk result (changes.new.items ≡ changes.old.items ++ address_strobe_changes shake.now) }
{
    let (strobe, modifier) = (
        Variable::AddressStrobe.code(),
        Variable::AddressModifier.code(),
    );
    let code = Value::Number {
        width: 6,
        number: u32::from(shake.lines.am().code()),
    };
    push_if(changes, shake.opens, FIRST, strobe, Value::Low)?;
    push_if(
        changes,
        shake.ends,
        shake.edge(STROBES_RISE),
        strobe,
        Value::High,
    )?;
    push_if(changes, shake.opens, BEGIN, modifier, code)?;
    push_if(
        changes,
        shake.ends,
        shake.edge(ADDRESS_RELEASED),
        modifier,
        Value::Released,
    )
}

/// A31 to A01.
#[tactic(auto, unfolding(crate::specs::Bus::address_changes))]
fn push_address(changes: &mut Vec<Change>, shake: &Handshake) -> Result<(), AllocError>
    ensures { OnOk result (changes.new.items ≡ changes.old.items ++ address_changes shake.now) }
{
    let code = Variable::AddressLines.code();
    let wide = is_wide(shake);
    let upper = upper_number(&shake.lines);
    let address = Value::Number {
        width: 32,
        number: address_number(&shake.lines),
    };
    let data = Value::Number {
        width: 32,
        number: upper - upper % 2,
    };
    push_if(changes, shake.opens, BEGIN, code, address)?;
    push_if(changes, shake.clears, SECOND, code, Value::Released)?;
    push_if(changes, wide, drive_edge(shake), code, data)?;
    push_if(
        changes,
        wide,
        shake.edge(DATA_RELEASED),
        code,
        Value::Released,
    )?;
    push_if(
        changes,
        shake.ends,
        shake.edge(ADDRESS_RELEASED),
        code,
        Value::Released,
    )
}

/// LWORD* and WRITE*.
#[tactic(auto, unfolding(crate::specs::Bus::level_changes))]
fn push_levels(changes: &mut Vec<Change>, shake: &Handshake) -> Result<(), AllocError>
    ensures { OnOk result (changes.new.items ≡ changes.old.items ++ level_changes shake.now) }
{
    let strobes = shake.lines.strobes();
    let upper = upper_number(&shake.lines);
    let write = Variable::WriteLine.code();
    push_address_level(
        changes,
        shake,
        Variable::LongWord,
        strobes.lword,
        upper % 2 == 1,
    )?;
    push_if(
        changes,
        shake.opens,
        BEGIN,
        write,
        Value::level(shake.lines.write()),
    )?;
    push_if(changes, shake.falls, SECOND, write, Value::Low)?;
    push_if(
        changes,
        shake.ends,
        shake.edge(ADDRESS_RELEASED),
        write,
        Value::Free,
    )
}

/// A line that shows a level with the address, and a bit of eight-byte data.
fn push_address_level(
    changes: &mut Vec<Change>,
    shake: &Handshake,
    variable: Variable,
    level: bool,
    bit: bool,
) -> Result<(), AllocError>
    requires { board_of variable < 26 }
    ensures { OnOk result (changes.new.items
        ≡ changes.old.items ++ address_level_changes shake.now variable level bit) }
{
    let code = variable.code();
    let wide = is_wide(shake);
    push_if(changes, shake.opens, BEGIN, code, Value::level(level))?;
    push_if(changes, shake.clears, SECOND, code, Value::Free)?;
    push_if(changes, wide, drive_edge(shake), code, Value::level(bit))?;
    push_if(changes, wide, shake.edge(DATA_RELEASED), code, Value::Free)?;
    push_if(
        changes,
        shake.ends,
        shake.edge(ADDRESS_RELEASED),
        code,
        Value::Free,
    )
}

/// DS1* and DS0*.
#[tactic(auto, unfolding(crate::specs::Bus::data_strobe_changes))]
fn push_data_strobes(changes: &mut Vec<Change>, shake: &Handshake) -> Result<(), AllocError>
    ensures { OnOk result (changes.new.items ≡ changes.old.items ++ data_strobe_changes shake.now) }
{
    let strobes = shake.lines.strobes();
    let (first, second) = (Variable::FirstStrobe.code(), Variable::SecondStrobe.code());
    push_if(
        changes,
        !strobes.ds1,
        shake.edge(STROBES_FALL),
        first,
        Value::Low,
    )?;
    push_if(
        changes,
        !strobes.ds1,
        shake.edge(STROBES_RISE),
        first,
        Value::High,
    )?;
    push_if(
        changes,
        !strobes.ds0,
        shake.edge(STROBES_FALL),
        second,
        Value::Low,
    )?;
    push_if(
        changes,
        !strobes.ds0,
        shake.edge(STROBES_RISE),
        second,
        Value::High,
    )
}

/// D31 to D00, and the upper half of eight-byte data.
#[tactic(auto, unfolding(crate::specs::Bus::data_changes))]
fn push_data(changes: &mut Vec<Change>, shake: &Handshake) -> Result<(), AllocError>
    ensures { OnOk result (changes.new.items ≡ changes.old.items ++ data_changes shake.now) }
{
    let lanes = shake.lines.lines().lanes();
    let (lower, upper) = (Variable::DataLines.code(), Variable::UpperDataLines.code());
    let wide = is_wide(shake);
    push_if(
        changes,
        shake.carries,
        drive_edge(shake),
        lower,
        Value::Lanes(lower_lanes(lanes)),
    )?;
    push_if(
        changes,
        shake.carries,
        shake.edge(DATA_RELEASED),
        lower,
        Value::no_lanes(),
    )?;
    push_if(
        changes,
        wide,
        drive_edge(shake),
        upper,
        Value::Lanes(upper_lanes(lanes)),
    )?;
    push_if(
        changes,
        wide,
        shake.edge(DATA_RELEASED),
        upper,
        Value::no_lanes(),
    )
}

/// DTACK* and BERR*.
#[tactic(auto, unfolding(crate::specs::Bus::answer_changes))]
fn push_answer(changes: &mut Vec<Change>, shake: &Handshake) -> Result<(), AllocError>
    ensures { OnOk result (changes.new.items ≡ changes.old.items ++ answer_changes shake.now) }
{
    let (done, error) = (Variable::Acknowledge.code(), Variable::BusError.code());
    let (falls, rises) = (shake.edge(ANSWER_FALLS), shake.edge(ANSWER_RISES));
    push_if(changes, !shake.berr, falls, done, Value::Low)?;
    push_if(changes, !shake.berr, rises, done, Value::High)?;
    push_if(changes, shake.berr, falls, error, Value::Low)?;
    push_if(changes, shake.berr, rises, error, Value::High)
}

/// Whether a handshake moves eight bytes, four of them over the address lines.
fn is_wide(shake: &Handshake) -> bool
    ensures { result ≡ is_wide shake.now }
{
    shake.lines.am().wide() && shake.carries
}

/// The edge at which the data are driven: by the master at the begin, and by the board after the
/// strobes.
fn drive_edge(shake: &Handshake) -> u8
    ensures { result ≡ drive_edge shake.now }
{
    if shake.lines.write() {
        shake.edge(BOARD_DRIVES)
    } else {
        shake.edge(MASTER_DRIVES)
    }
}

/// A31 to A01 as a number, whose lowest bit is 0.
fn address_number(signals: &Signals) -> u32
    ensures { result ≡ address_number signals.now }
{
    if signals.strobes().a01 {
        signals.addr() + 2
    } else {
        signals.addr()
    }
}

/// The lanes D31 to D00.
fn lower_lanes(lanes: [Option<u8>; 8]) -> [Option<u8>; 4]
    ensures { result ≡ lower_lanes lanes }
{
    let [_, _, _, _, e, f, g, h] = lanes;
    [e, f, g, h]
}

/// The lanes D63 to D32 of the address lines.
fn upper_lanes(lanes: [Option<u8>; 8]) -> [Option<u8>; 4]
    ensures { result ≡ upper_lanes lanes }
{
    let [a, b, c, d, _, _, _, _] = lanes;
    [a, b, c, d]
}

/// The number on the lanes of the address lines, the first lane most significant.
fn upper_number(signals: &Signals) -> u32
    ensures { result ≡ upper_number signals.now.lanes }
{
    let [a, b, c, d, _, _, _, _] = signals.lines().lanes();
    16_777_216 * byte_on(a) + 65_536 * byte_on(b) + 256 * byte_on(c) + byte_on(d)
}

/// The byte on a lane; 0 if it carries none.
fn byte_on(lane: Option<u8>) -> u32
    ensures value { result ≡ byte_on lane }
    ensures small { result < 256 }
{
    match lane {
        Some(byte) => u32::from(byte),
        None => 0,
    }
}
