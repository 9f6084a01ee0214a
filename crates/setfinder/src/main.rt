// Reads a job file from standard input and prints the report of the job that it states; or the line of the file's fault, and
// ends with status 1.
#![tactic(auto)]

use jobfile::MOST_BYTES;
use report::{FAULT_BUFFER, REPORT_BUFFER, report_file, write_fault};
use rules::Fault;
use std::io::{Read, Write};
use std::process::ExitCode;

// The line of a fault.
fn print_fault(rt: &HostRuntime, fault: &Fault) -> anyhow::Result<()> {
    let mut line = [0; FAULT_BUFFER];
    let Ok(length) = write_fault(fault, &mut line) else {
        unreachable()
    };
    rt.stdout().write_all(&line[..length])?;
    Ok(())
}

// The file on standard input: its report, or its fault. A byte more than a file may have is enough to tell that it is too
// long.
fn run(rt: &HostRuntime) -> anyhow::Result<ExitCode> {
    let mut file = Vec::new(rt.alloc());
    rt.stdin()
        .take(MOST_BYTES as u64 + 1)
        .read_to_end(&mut file)?;
    let mut text = [0; REPORT_BUFFER];
    match report_file(file.as_slice(), &mut text) {
        Ok(length) => {
            rt.stdout().write_all(&text[..length])?;
            Ok(ExitCode::SUCCESS)
        }
        Err(fault) => {
            print_fault(rt, &fault)?;
            Ok(ExitCode::FAILURE)
        }
    }
}

fn main(rt: HostRuntime) -> anyhow::Result<ExitCode> {
    run(&rt)
}
