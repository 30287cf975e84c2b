use crate::object::Object;

/// A number that commands increment. After 2^64 - 1 it is 0 again.
#[derive(Drop)]
pub struct Counter {
    /// The current number.
    pub number: u64,
}

/// A command to a counter.
#[derive(Clone, Copy, Debug, PartialEq, Eq)]
pub enum CounterCmd {
    /// Increments the number. The reply is the number before.
    Bump,
    /// Leaves the number unchanged. The reply is the number.
    Show,
}

impl Object for Counter {
    ghost use Rattle.vme_object.specs.Counters.{count_step};

    type Cmd = CounterCmd;

    type Reply = u64;

    ghost step = { count_step };

    fn apply(&mut self, cmd: &CounterCmd) -> u64 {
        let number = self.number;
        match cmd {
            CounterCmd::Bump => self.number = number.wrapping_add(1),
            CounterCmd::Show => {}
        }
        number
    }
}
