//! Answers each line of standard input with one line on standard output.
#![tactic(auto)]

use asn1_rs::Told;
use asn1vec_engine::{RunError, run};
use std::io;
use std::io::{BufWriter, Write};
use std::process::ExitCode;

/// Runs the engine over the input and the output of the process.
fn answer_input(rt: &HostRuntime) -> Result<(), RunError> {
    let alloc = rt.alloc();
    let buffered = BufWriter::new(alloc, io::writer(rt)).map_err(|_| RunError::OutOfMemory)?;
    let mut output = Told::new(buffered);
    let result = run(alloc, &mut rt.stdin(), &mut output);
    let flushed = output.into_inner().flush();
    result?;
    flushed.map_err(|_| RunError::Output)
}

fn main(rt: HostRuntime) -> ExitCode {
    match answer_input(&rt) {
        Ok(()) => ExitCode::SUCCESS,
        Err(e) => {
            let _ = eprintln!(rt; "{e}");
            ExitCode::FAILURE
        }
    }
}
