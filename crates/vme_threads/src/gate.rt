/// Hooks that the thread of each processor calls before and after each line of its script. The
/// `line` that they receive is the line's number among all lines of the script's text, from 1.
pub trait Gate {
    /// Called before the processor in `slot` starts line `line` of its script.
    fn before(&self, slot: u16, line: u16);

    /// Called after the processor in `slot` has its reply to line `line` of its script. A worker
    /// that returns `Spent` does not call it for the line that it had started.
    fn after(&self, slot: u16, line: u16);
}
