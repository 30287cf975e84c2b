ghost use Rattle.std.specs.Prelude.{◌≡◌, OkIff, IfErr};
ghost use Rattle.vme_port_bench.specs.Words.{AreTwoNumbers, arguments_of};

use crate::fault::BenchFault;

/// The arguments of the command line.
#[derive(Clone, Copy)]
pub struct Arguments {
    /// The number of threads that call the port.
    pub threads: usize,
    /// The number of calls that each thread makes.
    pub calls: u64,
}

/// Parses the words of the command line, of which the first is the program's name, and returns the
/// arguments.
///
/// # Errors
/// `Usage` unless exactly two more words follow, each a decimal number of at most 64 bits with an
/// optional plus sign.
pub fn read_arguments(words: &[String]) -> Result<Arguments, BenchFault>
    ensures read { OkIff result (AreTwoNumbers words.now) (arguments_of words.now) }
    ensures usage { IfErr result (λ fault. fault ≡ BenchFault.Usage) }
{
    let [_, threads, calls] = words else {
        return Err(BenchFault::Usage);
    };
    let Ok(threads) = threads.parse() else {
        return Err(BenchFault::Usage);
    };
    let Ok(calls) = calls.parse() else {
        return Err(BenchFault::Usage);
    };
    Ok(Arguments { threads, calls })
}
