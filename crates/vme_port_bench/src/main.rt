//! `vme_port_bench THREADS CALLS` measures a port: each of `THREADS` threads has one pass and
//! increments one counter `CALLS` times. The program prints the counter's number and the length of
//! its history.
#![tactic(auto)]

mod arguments;
mod fault;
mod run;
mod worker;

use arguments::{Arguments, read_arguments};
use fault::BenchFault;
use run::{Outcome, run};
use std::process::ExitCode;
use std::{env, io};

fn main(rt: HostRuntime) -> ExitCode {
    let outcome = match asked(&rt) {
        Ok(arguments) => run(&rt, rt.alloc(), arguments),
        Err(fault) => Err(fault),
    };
    match outcome.and_then(|outcome| print(&rt, outcome)) {
        Ok(()) => ExitCode::SUCCESS,
        Err(fault) => {
            // A failure of standard error can't be reported anywhere.
            let _ = eprintln!(rt; "vme_port_bench: {fault}");
            ExitCode::from(fault.exit_status())
        }
    }
}

/// Reads the arguments of the command line.
fn asked(rt: &HostRuntime) -> Result<Arguments, BenchFault> {
    let words = match env::args(rt) {
        Ok(words) => words.collect(rt.alloc()),
        Err(error) if error.kind() == io::ErrorKind::OutOfMemory => return Err(BenchFault::Memory),
        Err(_) => return Err(BenchFault::Usage),
    };
    let words: Vec<String> = words.map_err(|_| BenchFault::Memory)?;
    read_arguments(words.as_slice())
}

/// Prints the number and the history's length on one line.
fn print(rt: &HostRuntime, outcome: Outcome) -> Result<(), BenchFault> {
    let Outcome { number, steps } = outcome;
    println!(rt; "{number} {steps}").map_err(|_| BenchFault::Write)
}
