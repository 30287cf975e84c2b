ghost use Rattle.std.specs.Prelude.{◌≡◌};
ghost use Rattle.vme_port_bench.specs.Ends.{exit_status_of};

use thiserror::Error as Fault;

/// The reasons why the program fails.
#[derive(Clone, Copy, Debug, PartialEq, Eq, Fault)]
pub enum BenchFault {
    /// The words of the command line are not two numbers, or the number of threads is not 1 to 21.
    #[error("usage: vme_port_bench THREADS CALLS, with 1 to 21 threads")]
    Usage,
    /// An allocation failed.
    #[error("memory")]
    Memory,
    /// A thread can't be started.
    #[error("thread")]
    Thread,
    /// The port's history was full before all calls were made.
    #[error("spent")]
    Spent,
    /// A write to standard output failed.
    #[error("write")]
    Write,
}

impl BenchFault {
    /// Returns the exit status of the program: 2 for `Usage`, 3 for every other fault.
    pub fn exit_status(self) -> u8
        ensures { result ≡ exit_status_of self }
    {
        match self {
            BenchFault::Usage => 2,
            BenchFault::Memory => 3,
            BenchFault::Thread => 3,
            BenchFault::Spent => 3,
            BenchFault::Write => 3,
        }
    }
}
