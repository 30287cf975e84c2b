//! The header: the variables, and their values before the first event that is shown.
ghost use Rattle.std.specs.Prelude.{◌≡◌, ◌<◌, ◌++◌, OnOk, flat_map, length};
ghost use Rattle.std.specs.List.{range_with_len};
ghost use Rattle.vme_trace.specs.Variables.{board_of};
ghost use Rattle.vme_trace.specs.Headers.{start_text, arbitration_text, address_text, strobe_text, data_text, upper_data_text, bus_scope_text, middle_text, master_names, grant_names, port_names, port_data_names, scope_name, scope_text, declaration, part, slot_part, variable_code, variable_name, variable_text, slot_scope, header_text};

use crate::dump::print::print_code;
use crate::dump::values::{Shown, print_values};
use crate::dump::variable::Variable;
use std::alloc::AllocError;
use vme_grammar::print_number;
use vme_script::Config;

/// Appends the header of a configuration: the variables, and their values before the first event that
/// is shown.
#[tactic(auto, unfolding(crate::specs::Headers::header_text))]
pub(crate) fn print_header(
    text: &mut Vec<u8>,
    config: &Config,
    values: &[Shown],
) -> Result<(), AllocError>
    ensures { OnOk result (text.new.items ≡ text.old.items ++ header_text config.now values.now) }
{
    print_bus_scope(text)?;
    print_scopes(text, config)?;
    print_middle(text)?;
    print_values(text, values)?;
    text.extend_from_slice(b"$end\n")
}

/// Appends the begin, with the scope of the bus.
#[tactic(auto, unfolding(crate::specs::Headers::bus_scope_text))]
fn print_bus_scope(text: &mut Vec<u8>) -> Result<(), AllocError>
    ensures { OnOk result (text.new.items ≡ text.old.items ++ bus_scope_text) }
{
    print_start(text)?;
    print_arbitration(text)?;
    print_address(text)?;
    print_strobes(text)?;
    print_data(text)?;
    print_upper_data(text)?;
    text.extend_from_slice(b"$upscope $end\n")
}

/// Appends the scopes of the slots.
fn print_scopes(text: &mut Vec<u8>, config: &Config) -> Result<(), AllocError>
    ensures { OnOk result (text.new.items ≡ text.old.items
        ++ flat_map (slot_scope config.now) (range_with_len 0 (length config.now.boards))) }
{
    for board in 0..config.boards() {
        print_scope(text, board, config.slot(board))?;
    }
    Ok(())
}

/// Appends the scope of a slot.
#[tactic(auto, unfolding(crate::specs::Headers::scope_text))]
fn print_scope(text: &mut Vec<u8>, board: usize, slot: u16) -> Result<(), AllocError>
    requires { board < 26 }
    ensures { OnOk result (text.new.items ≡ text.old.items ++ scope_text board slot) }
{
    print_scope_name(text, slot)?;
    print_master_names(text, board, slot)?;
    print_grant_names(text, board, slot)?;
    print_port_names(text, board, slot)?;
    print_port_data_names(text, board, slot)?;
    text.extend_from_slice(b"$upscope $end\n")
}

/// Appends the name of the scope of a slot.
#[tactic(auto, unfolding(crate::specs::Headers::scope_name))]
fn print_scope_name(text: &mut Vec<u8>, slot: u16) -> Result<(), AllocError>
    ensures { OnOk result (text.new.items ≡ text.old.items ++ scope_name slot) }
{
    text.extend_from_slice(b"$scope module slot")?;
    print_number(text, u64::from(slot))?;
    text.extend_from_slice(b" $end\n")
}

/// Appends the line and the request line of a slot, BBSY* as it drives it, and the select.
#[tactic(auto, unfolding(crate::specs::Headers::master_names))]
fn print_master_names(text: &mut Vec<u8>, board: usize, slot: u16) -> Result<(), AllocError>
    requires { board < 26 }
    ensures { OnOk result (text.new.items ≡ text.old.items ++ master_names board slot) }
{
    let line = Variable::CurrentLine(board);
    print_variable(text, b"integer 32", line, slot, b"line")?;
    print_variable(text, b"wire 1", Variable::RequestLine(board), slot, b"br_n")?;
    print_variable(text, b"wire 1", Variable::BusyLine(board), slot, b"bbsy_n")?;
    print_variable(text, b"wire 1", Variable::Selected(board), slot, b"sel")
}

/// Appends BG3IN* to BG0IN* of a slot.
#[tactic(auto, unfolding(crate::specs::Headers::grant_names))]
fn print_grant_names(text: &mut Vec<u8>, board: usize, slot: u16) -> Result<(), AllocError>
    requires { board < 26 }
    ensures { OnOk result (text.new.items ≡ text.old.items ++ grant_names board slot) }
{
    let lines = Variable::GrantLines(board);
    print_slot_part(text, b"wire 1", lines, 3, slot, b"bg3in_n")?;
    print_slot_part(text, b"wire 1", lines, 2, slot, b"bg2in_n")?;
    print_slot_part(text, b"wire 1", lines, 1, slot, b"bg1in_n")?;
    print_slot_part(text, b"wire 1", lines, 0, slot, b"bg0in_n")
}

/// Appends the variables of the local port of a board but the data.
#[tactic(auto, unfolding(crate::specs::Headers::port_names))]
fn print_port_names(text: &mut Vec<u8>, board: usize, slot: u16) -> Result<(), AllocError>
    requires { board < 26 }
    ensures { OnOk result (text.new.items ≡ text.old.items ++ port_names board slot) }
{
    let offset = Variable::PortOffset(board);
    print_variable(text, b"wire 1", Variable::PortSelect(board), slot, b"lp_cs")?;
    print_variable(text, b"wire 1", Variable::PortWrite(board), slot, b"lp_we")?;
    print_variable(text, b"wire 32", offset, slot, b"lp_a [31:0]")?;
    print_variable(text, b"wire 1", Variable::PortDone(board), slot, b"lp_ack")?;
    print_variable(text, b"wire 1", Variable::PortError(board), slot, b"lp_err")
}

/// Appends the data lanes of the local port of a board.
#[tactic(auto, unfolding(crate::specs::Headers::port_data_names))]
fn print_port_data_names(text: &mut Vec<u8>, board: usize, slot: u16) -> Result<(), AllocError>
    requires { board < 26 }
    ensures { OnOk result (text.new.items ≡ text.old.items ++ port_data_names board slot) }
{
    let lanes = Variable::PortData(board);
    print_slot_part(text, b"wire 8", lanes, 0, slot, b"lp_d31_24 [7:0]")?;
    print_slot_part(text, b"wire 8", lanes, 1, slot, b"lp_d23_16 [7:0]")?;
    print_slot_part(text, b"wire 8", lanes, 2, slot, b"lp_d15_08 [7:0]")?;
    print_slot_part(text, b"wire 8", lanes, 3, slot, b"lp_d07_00 [7:0]")
}

/// Appends a variable of a slot.
#[tactic(auto, unfolding(crate::specs::Headers::variable_text))]
fn print_variable(
    text: &mut Vec<u8>,
    kind: &[u8],
    variable: Variable,
    slot: u16,
    name: &[u8],
) -> Result<(), AllocError>
    requires { board_of variable < 26 }
    ensures { OnOk result
        (text.new.items ≡ text.old.items ++ variable_text kind.now variable slot name.now) }
{
    print_variable_code(text, kind, variable)?;
    print_variable_name(text, slot, name)
}

/// Appends one of the lines of a variable of a slot that have names of their own.
#[tactic(auto, unfolding(crate::specs::Headers::slot_part))]
fn print_slot_part(
    text: &mut Vec<u8>,
    kind: &[u8],
    variable: Variable,
    i: u8,
    slot: u16,
    name: &[u8],
) -> Result<(), AllocError>
    requires board { board_of variable < 26 }
    requires few { i < 4 }
    ensures { OnOk result
        (text.new.items ≡ text.old.items ++ slot_part kind.now variable i slot name.now) }
{
    print_variable_code(text, kind, variable)?;
    text.push(b'0' + i)?;
    print_variable_name(text, slot, name)
}

/// Appends one of the lines of a variable of the bus that have names of their own.
#[tactic(auto, unfolding(crate::specs::Headers::part))]
fn print_part(
    text: &mut Vec<u8>,
    kind: &[u8],
    variable: Variable,
    i: u8,
    name: &[u8],
) -> Result<(), AllocError>
    requires board { board_of variable < 26 }
    requires few { i < 4 }
    ensures { OnOk result (text.new.items ≡ text.old.items ++ part kind.now variable i name.now) }
{
    print_variable_code(text, kind, variable)?;
    text.push(b'0' + i)?;
    text.extend_from_slice(b" ")?;
    text.extend_from_slice(name)?;
    text.extend_from_slice(b" $end\n")
}

/// Appends a variable of the bus.
#[tactic(auto, unfolding(crate::specs::Headers::declaration))]
fn print_declaration(
    text: &mut Vec<u8>,
    kind: &[u8],
    variable: Variable,
    name: &[u8],
) -> Result<(), AllocError>
    requires { board_of variable < 26 }
    ensures { OnOk result
        (text.new.items ≡ text.old.items ++ declaration kind.now variable name.now) }
{
    print_variable_code(text, kind, variable)?;
    text.extend_from_slice(b" ")?;
    text.extend_from_slice(name)?;
    text.extend_from_slice(b" $end\n")
}

/// Appends the kind and size of a variable, and its code.
#[tactic(auto, unfolding(crate::specs::Headers::variable_code))]
fn print_variable_code(
    text: &mut Vec<u8>,
    kind: &[u8],
    variable: Variable,
) -> Result<(), AllocError>
    requires { board_of variable < 26 }
    ensures { OnOk result (text.new.items ≡ text.old.items ++ variable_code kind.now variable) }
{
    text.extend_from_slice(b"$var ")?;
    text.extend_from_slice(kind)?;
    text.extend_from_slice(b" ")?;
    print_code(text, variable.code())
}

/// Appends the name of a variable of a slot, which has the slot's number.
#[tactic(auto, unfolding(crate::specs::Headers::variable_name))]
fn print_variable_name(text: &mut Vec<u8>, slot: u16, name: &[u8]) -> Result<(), AllocError>
    ensures { OnOk result (text.new.items ≡ text.old.items ++ variable_name slot name.now) }
{
    text.extend_from_slice(b" s")?;
    print_number(text, u64::from(slot))?;
    text.extend_from_slice(b"_")?;
    text.extend_from_slice(name)?;
    text.extend_from_slice(b" $end\n")
}

/// The begin, up to the scope of the bus.
#[tactic(auto, unfolding(crate::specs::Headers::start_text))]
fn print_start(text: &mut Vec<u8>) -> Result<(), AllocError>
    ensures { OnOk result (text.new.items ≡ text.old.items ++ start_text) }
{
    text.extend_from_slice(b"$version bendrika 1 $end\n")?;
    text.extend_from_slice(
        b"$comment the n-th event that is shown takes time 100 n to 100 n + 99, and edge k of it is at 100 n + 5 k $end\n",
    )?;
    text.extend_from_slice(b"$timescale 10 ms $end\n")?;
    text.extend_from_slice(b"$scope module vme $end\n")?;
    text.extend_from_slice(b"$scope module bus $end\n")
}

/// The event, and the lines of arbitration.
#[tactic(auto, unfolding(crate::specs::Headers::arbitration_text))]
fn print_arbitration(text: &mut Vec<u8>) -> Result<(), AllocError>
    ensures { OnOk result (text.new.items ≡ text.old.items ++ arbitration_text) }
{
    print_declaration(text, b"integer 32", Variable::EventNumber, b"event")?;
    print_declaration(text, b"integer 32", Variable::EventSlot, b"slot")?;
    print_declaration(text, b"integer 32", Variable::Holder, b"holder")?;
    print_declaration(text, b"wire 1", Variable::BusBusy, b"bbsy_n")?;
    print_declaration(text, b"wire 1", Variable::BusRequest(3), b"br3_n")?;
    print_declaration(text, b"wire 1", Variable::BusRequest(2), b"br2_n")?;
    print_declaration(text, b"wire 1", Variable::BusRequest(1), b"br1_n")?;
    print_declaration(text, b"wire 1", Variable::BusRequest(0), b"br0_n")
}

/// The address strobe, the address modifier, the address lines, LWORD* and WRITE*.
#[tactic(auto, unfolding(crate::specs::Headers::address_text))]
fn print_address(text: &mut Vec<u8>) -> Result<(), AllocError>
    ensures { OnOk result (text.new.items ≡ text.old.items ++ address_text) }
{
    print_declaration(text, b"wire 1", Variable::AddressStrobe, b"as_n")?;
    print_declaration(text, b"wire 6", Variable::AddressModifier, b"am [5:0]")?;
    print_declaration(text, b"wire 32", Variable::AddressLines, b"a [31:0]")?;
    print_declaration(text, b"wire 1", Variable::LongWord, b"lword_n")?;
    print_declaration(text, b"wire 1", Variable::WriteLine, b"write_n")
}

/// The data strobes, DTACK* and BERR*.
#[tactic(auto, unfolding(crate::specs::Headers::strobe_text))]
fn print_strobes(text: &mut Vec<u8>) -> Result<(), AllocError>
    ensures { OnOk result (text.new.items ≡ text.old.items ++ strobe_text) }
{
    print_declaration(text, b"wire 1", Variable::FirstStrobe, b"ds1_n")?;
    print_declaration(text, b"wire 1", Variable::SecondStrobe, b"ds0_n")?;
    print_declaration(text, b"wire 1", Variable::Acknowledge, b"dtack_n")?;
    print_declaration(text, b"wire 1", Variable::BusError, b"berr_n")
}

/// The data lanes D31 to D00.
#[tactic(auto, unfolding(crate::specs::Headers::data_text))]
fn print_data(text: &mut Vec<u8>) -> Result<(), AllocError>
    ensures { OnOk result (text.new.items ≡ text.old.items ++ data_text) }
{
    print_part(text, b"wire 8", Variable::DataLines, 0, b"d31_24 [7:0]")?;
    print_part(text, b"wire 8", Variable::DataLines, 1, b"d23_16 [7:0]")?;
    print_part(text, b"wire 8", Variable::DataLines, 2, b"d15_08 [7:0]")?;
    print_part(text, b"wire 8", Variable::DataLines, 3, b"d07_00 [7:0]")
}

/// The data lanes D63 to D32.
#[tactic(auto, unfolding(crate::specs::Headers::upper_data_text))]
fn print_upper_data(text: &mut Vec<u8>) -> Result<(), AllocError>
    ensures { OnOk result (text.new.items ≡ text.old.items ++ upper_data_text) }
{
    let lanes = Variable::UpperDataLines;
    print_part(text, b"wire 8", lanes, 0, b"dh63_56 [7:0]")?;
    print_part(text, b"wire 8", lanes, 1, b"dh55_48 [7:0]")?;
    print_part(text, b"wire 8", lanes, 2, b"dh47_40 [7:0]")?;
    print_part(text, b"wire 8", lanes, 3, b"dh39_32 [7:0]")
}

/// From the scopes to the values.
#[tactic(auto, unfolding(crate::specs::Headers::middle_text))]
fn print_middle(text: &mut Vec<u8>) -> Result<(), AllocError>
    ensures { OnOk result (text.new.items ≡ text.old.items ++ middle_text) }
{
    text.extend_from_slice(b"$upscope $end\n")?;
    text.extend_from_slice(b"$enddefinitions $end\n")?;
    text.extend_from_slice(b"#0\n")?;
    text.extend_from_slice(b"$dumpvars\n")
}
