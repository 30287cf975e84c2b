//! A use of `vme_script`.
ghost use Rattle.std.specs.Prelude.{◌<◌, length};

use vme_script::Config;

/// Returns the slot of a board and the number of lines in its script that request something.
pub fn slot_and_lines(config: &Config, board: usize) -> (u16, usize)
    requires { board < length config.now.boards }
{
    (config.slot(board), config.script(board).len())
}
