//! Lines of a small input, each of which names a workload and gives its octets.

use crate::failure::Failure;
use crate::rounds::Rounds;
use crate::workloads::run_workload;

/// Runs once the workload that a line names, and prints its check. The octets are those that the line gives in
/// hexadecimal.
fn check_line(rt: &HostRuntime, line: &str) -> Result<(), Failure> {
    let Some((name, digits)) = line.split_once(' ') else {
        return Err(Failure::Line);
    };
    let octets = hex::decode(rt.alloc(), digits).map_err(|_| Failure::Line)?;
    let outcome = run_workload(rt.alloc(), &Rounds::new(rt, 0), name, &octets)?;
    let check = outcome.check;
    println!(rt; "{name} {check}").map_err(|_| Failure::Output)
}

/// Answers each line of standard input with the workload's name and its check.
pub(crate) fn check_lines(rt: &HostRuntime) -> Result<(), Failure> {
    for line in rt.lines(rt.alloc()) {
        let line = line.map_err(|_| Failure::Input)?;
        check_line(rt, line.as_str())?;
    }
    Ok(())
}
