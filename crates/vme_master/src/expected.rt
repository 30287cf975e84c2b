ghost use Rattle.std.specs.Prelude.{◌≡◌, ◌≤◌, length, Option, is_some};
ghost use Rattle.vme_cycle.specs.declared.modify.Modify as functions;
ghost use Rattle.vme_memory.specs.Steps.{command_of};
ghost use Rattle.vme_memory.specs.Locals.{command_given};
ghost use Rattle.vme_memory.specs.Data.{has_form};
ghost use Rattle.vme_master.specs.Jobs.{request_expected, command_expected};
ghost use Rattle.vme_master.specs.Events.{outcome_in};
ghost use Rattle.vme_master.specs.Machine.{expected_len, bytes_of, end_outcome, IsShort};
ghost use Rattle.vme_cycle.specs.Requests.{read_len};

use crate::outcome::OutcomeRef;
use vme_cycle::{Plan, Signals};
use vme_memory::{BoardCmd, Reply};

/// The reply that a call expects of a board, with the number of bytes of each datum.
#[derive(Clone, Copy, Debug, PartialEq, Eq)]
pub enum ExpectedReply {
    /// The `n` bytes that were read.
    Read { n: u8 },
    /// The `n` bytes that a read-modify-write found.
    Modify { n: u8 },
    /// No bytes: the call writes.
    Write,
}

impl ExpectedReply {
    /// The reply that each datum of a plan's request expects.
    pub(crate) fn of_plan(plan: &Plan) -> ExpectedReply
        ensures value { result ≡ request_expected plan.now.request }
        ensures short { IsShort result (read_len plan.now.request) }
    {
        let n = plan.datum_len();
        if plan.reads() {
            ExpectedReply::Read { n }
        } else if plan.modify().is_some() {
            ExpectedReply::Modify { n }
        } else {
            ExpectedReply::Write
        }
    }

    /// The reply that a board command expects.
    pub(crate) fn of_command(cmd: &BoardCmd) -> ExpectedReply
        ensures { result ≡ command_expected (command_given cmd.now) }
    {
        match cmd {
            BoardCmd::LocalRead { n, .. } => ExpectedReply::Read { n: *n },
            BoardCmd::LocalWrite { .. } => ExpectedReply::Write,
            BoardCmd::LocalModify { n, .. } => ExpectedReply::Modify { n: *n },
            BoardCmd::Cycle { signals, at, f } => ExpectedReply::of_cycle(
                signals,
                *at,
                f.is_some(),
            ),
        }
    }

    /// The reply that a cycle at an offset expects, with a modify function or without.
    fn of_cycle(signals: &Signals, at: u32, modifies: bool) -> ExpectedReply
        ensures { (f : Option functions.Modify) → is_some f ≡ modifies →
            result ≡ command_expected (command_of signals.now at f) }
    {
        let Some(location) = signals.sensed_at(at) else {
            return ExpectedReply::Write;
        };
        if u32::from(location.first()) != at % 4 || !signals.write() {
            return ExpectedReply::Write;
        }
        let n = location.len();
        if signals.am().wide() {
            return if n == 4 && !modifies {
                ExpectedReply::Read { n: 8 }
            } else {
                ExpectedReply::Write
            };
        }
        match (modifies, signals.am().kind().is_block()) {
            (false, _) => ExpectedReply::Read { n },
            (true, false) => ExpectedReply::Modify { n },
            (true, true) => ExpectedReply::Write,
        }
    }

    /// The number of bytes that are expected, if any.
    fn wanted(self) -> Option<u8>
        ensures { result ≡ expected_len self }
    {
        match self {
            ExpectedReply::Read { n } | ExpectedReply::Modify { n } => Some(n),
            ExpectedReply::Write => None,
        }
    }

    /// Whether a board's reply has the expected form or is a bus error.
    pub(crate) fn accepts(self, reply: &Reply) -> bool
        ensures value { result ≡ has_form (expected_len self) reply.now }
        ensures small { length (bytes_of reply.now) ≤ 8 }
    {
        match reply {
            Reply::Bytes(datum) => {
                let len = datum.as_slice().len();
                match self.wanted() {
                    Some(n) => len == usize::from(n),
                    None => false,
                }
            }
            Reply::Done => self.wanted().is_none(),
            Reply::Berr => true,
        }
    }

    /// The outcome of a job that expects this reply, by reference, with the bytes that were read and
    /// the number of data before a bus error, if one came.
    pub(crate) fn end_ref(self, berr: Option<u16>, read: &[u8]) -> OutcomeRef<'_>
        ensures { outcome_in result ≡ end_outcome self berr read.now }
    {
        match (berr, self) {
            (Some(count), _) => OutcomeRef::Berr { count, bytes: read },
            (None, ExpectedReply::Read { .. }) => OutcomeRef::Read(read),
            (None, ExpectedReply::Modify { .. }) => OutcomeRef::Old(read),
            (None, ExpectedReply::Write) => OutcomeRef::Done,
        }
    }
}
