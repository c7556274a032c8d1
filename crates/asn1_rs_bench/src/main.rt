//! Times the library on workloads, or runs each line of a small input once.
//!
//! The only argument may be the name of a workload, whose octets come on standard input. Then the program prints one
//! line: the name, the nanoseconds and the check. The nanoseconds are the least of its runs over all the octets. With
//! no argument each line of standard input is a name, a space and octets in hexadecimal. The answer to a line is the
//! name and the check, with no time.
#![tactic(auto)]

mod failure;
mod lines;
mod nested;
mod rounds;
mod rows;
mod sums;
mod workloads;

use crate::failure::Failure;
use crate::lines::check_lines;
use crate::rounds::Rounds;
use crate::workloads::run_workload;
use std::env;
use std::io::Read;
use std::process::ExitCode;

/// So many runs of a workload are timed.
const ROUNDS: usize = 9;

/// Prints the least time of the workload of this name over the octets of standard input.
fn time_workload(rt: &HostRuntime, name: &str) -> Result<(), Failure> {
    let alloc = rt.alloc();
    let mut octets = Vec::new(alloc);
    rt.stdin()
        .read_to_end(&mut octets)
        .map_err(|_| Failure::Input)?;
    let outcome = run_workload(alloc, &Rounds::new(rt, ROUNDS), name, &octets)?;
    let least = outcome.least.as_nanos();
    let check = outcome.check;
    println!(rt; "{name} {least} {check}").map_err(|_| Failure::Output)
}

/// Does what the arguments ask for.
fn run(rt: &HostRuntime) -> Result<(), Failure> {
    let mut arguments = env::args(rt).map_err(|_| Failure::Input)?;
    let _program = arguments.next();
    match arguments.next() {
        Some(name) => time_workload(rt, name.as_str()),
        None => check_lines(rt),
    }
}

fn main(rt: HostRuntime) -> ExitCode {
    match run(&rt) {
        Ok(()) => ExitCode::SUCCESS,
        Err(e) => {
            let _ = eprintln!(rt; "asn1_rs_bench: {e}");
            ExitCode::FAILURE
        }
    }
}
