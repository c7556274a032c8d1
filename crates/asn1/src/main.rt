//! What is in a file, and whether it is strict DER.
#![tactic(auto)]

mod encoding;
mod files;
mod modules;
mod pem;
mod run;
mod typed;
mod words;

use std::io::IsTerminal;
use std::process::ExitCode;

fn main(rt: HostRuntime) -> ExitCode {
    run::status(&rt, rt.stdout().is_terminal())
}
