//! The scripts beside the report, which begins with the reply of each line in the same order.
ghost use Rattle.std.specs.Prelude.{◌<◌, length};

use crate::line::print_line;
use std::alloc::AllocError;
use vme_script::{Config, Script};

/// Appends the scripts of all boards, one line below another, and the begin of the report.
pub(crate) fn print_scripts(text: &mut Vec<u8>, config: &Config) -> Result<(), AllocError> {
    text.extend_from_slice(b"<h2>Scripts and report</h2>\n<div class='t'><div>")?;
    for board in 0..config.boards() {
        print_script(text, config.script(board))?;
    }
    text.extend_from_slice(b"</div><pre>\n")
}

/// Appends the lines of a script.
fn print_script(text: &mut Vec<u8>, script: &Script) -> Result<(), AllocError> {
    for j in 0..script.len() {
        print_line(text, script.line(j))?;
        text.extend_from_slice(b"\n")?;
    }
    Ok(())
}

/// Appends the line with a number of a board's script, if there is one.
pub(crate) fn print_line_of(
    text: &mut Vec<u8>,
    config: &Config,
    board: usize,
    number: u16,
) -> Result<(), AllocError> {
    if config.boards() <= board {
        return Ok(());
    }
    let script = config.script(board);
    for j in 0..script.len() {
        if script.number(j) == number {
            return print_line(text, script.line(j));
        }
    }
    Ok(())
}
