//! Which slots request the bus, and which use their local ports.
ghost use Rattle.std.specs.Prelude.{◌≡◌, ◌+◌, ◌<◌, ◌≤◌, ◌++◌, [], length, map, IfOk, OnOk};
ghost use Rattle.std.specs.List.{list_any};
ghost use Rattle.vme_line_task.specs.Scripts.{slot_at, level_at, lines_at};
ghost use Rattle.vme_page.specs.Layouts.{is_local, is_kind, bar_of, bars_after_run, port_of, ports_of};

use crate::diagram::layout::{Bar, LocalPort};
use std::alloc::{AllocError, Global};
use vme_grammar::Line;
use vme_script::{Config, Script};
use vme_trace::{Value, Variable};

/// Returns the bars of the slots whose scripts have a line over the bus.
#[tactic(auto, unfolding(crate::specs::Layouts::bars_after_run))]
pub(crate) fn bars(alloc: Global, config: &Config) -> Result<Vec<Bar>, AllocError>
    ensures bars { IfOk result (λ bars. bars.items ≡ bars_after_run config.now []) }
    ensures few { IfOk result (λ bars. length bars.items ≤ 26) }
{
    let mut bars = Vec::new(alloc);
    for board in 0..config.boards() {
        push_bar(&mut bars, config, board)?;
    }
    Ok(bars)
}

/// Appends the bar of a slot whose script has a line over the bus.
fn push_bar(bars: &mut Vec<Bar>, config: &Config, board: usize) -> Result<(), AllocError>
    requires { board < length config.now.boards }
    ensures bars { OnOk result (bars.new.items ≡ bars.old.items ++ bar_of config.now [] board) }
    ensures few { OnOk result (length bars.new.items ≤ length bars.old.items + 1) }
{
    prove!(board < config.boards());
    if !has_line_at(config, board, false) {
        return Ok(());
    }
    bars.push(Bar {
        slot: slot_of(config, board),
        level: level_of(config, board),
        request_code: Variable::RequestLine(board).code(),
        request: Value::High,
        busy_code: Variable::BusyLine(board).code(),
        busy: Value::High,
    })?;
    Ok(())
}

/// Returns the local ports of the slots whose scripts have a line of it.
#[tactic(auto, unfolding(crate::specs::Layouts::ports_of))]
pub(crate) fn ports(alloc: Global, config: &Config) -> Result<Vec<LocalPort>, AllocError>
    ensures ports { IfOk result (λ ports. ports.items ≡ ports_of config.now) }
    ensures few { IfOk result (λ ports. length ports.items ≤ 26) }
{
    let mut ports = Vec::new(alloc);
    for board in 0..config.boards() {
        push_port(&mut ports, config, board)?;
    }
    Ok(ports)
}

/// Appends the local port of a slot whose script has a line of it.
fn push_port(ports: &mut Vec<LocalPort>, config: &Config, board: usize) -> Result<(), AllocError>
    requires { board < length config.now.boards }
    ensures ports { OnOk result (ports.new.items ≡ ports.old.items ++ port_of config.now board) }
    ensures few { OnOk result (length ports.new.items ≤ length ports.old.items + 1) }
{
    prove!(board < config.boards());
    if !has_line_at(config, board, true) {
        return Ok(());
    }
    ports.push(LocalPort {
        slot: slot_of(config, board),
        write: Variable::PortWrite(board).code(),
        offset: Variable::PortOffset(board).code(),
        bytes: Variable::PortData(board).code(),
        error: Variable::PortError(board).code(),
    })?;
    Ok(())
}

/// Returns the slot of a board.
pub(crate) fn slot_of(config: &Config, board: usize) -> u16
    requires { board < length config.now.boards }
    ensures { result ≡ slot_at config.now board }
{
    config.slot(board)
}

/// Returns the level on which the processor of a board requests the bus.
fn level_of(config: &Config, board: usize) -> u8
    requires { board < length config.now.boards }
    ensures { result ≡ level_at config.now board }
{
    config.level(board)
}

/// Returns whether the script of a board's processor has a line of the local port, or else whether it
/// has one over the bus.
fn has_line_at(config: &Config, board: usize, local: bool) -> bool
    requires { board < length config.now.boards }
    ensures { result ≡ list_any (is_kind local) (lines_at config.now board) }
{
    has_line(config.script(board), local)
}

/// Returns whether a script has a line of the local port, or else whether it has one over the bus.
fn has_line(script: &Script, local: bool) -> bool
    ensures { result ≡ list_any (is_kind local) (map (λ one. one.line) script.now) }
{
    for i in 0..script.len() {
        if is_kind(script.line(i), local) {
            return true;
        }
    }
    false
}

/// Returns whether a line is one of the local port, or else whether it is one over the bus.
fn is_kind(line: &Line, local: bool) -> bool
    ensures { result ≡ is_kind local line.now }
{
    if local {
        is_local(line)
    } else {
        !is_local(line)
    }
}

/// Returns whether a line is one of the local port.
fn is_local(line: &Line) -> bool
    ensures { result ≡ is_local line.now }
{
    matches!(line, Line::Local(_))
}
