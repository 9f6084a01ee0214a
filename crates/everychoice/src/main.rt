// Reads a job file from standard input and prints what it states and, of all choices, the cheapest that keeps the
// sheet's limits; or the line of the file's fault, and ends with status 1.
#![tactic(auto)]

use exhaustive::cheapest;
use jobfile::{Job, MOST_BYTES};
use report::{FAULT_BUFFER, write_fault};
use rules::Fault;
use shown::{AnswerText, CallsText, CatalogueText, SheetText};
use std::io;
use std::io::{Read, Write};
use std::process::ExitCode;

// What a job states, and the cheapest choice that keeps its limits; the calls are not carried out yet.
fn print_job(rt: &impl Print, file: &[u8], job: Job) -> io::Result<()> {
    let Job {
        sheet,
        calls,
        listing,
        ladder,
    } = job;
    let catalogue = Job::catalogue(file, listing, ladder);
    print!(rt; "{}", SheetText(&sheet))?;
    print!(rt; "{}", CatalogueText(&catalogue))?;
    print!(rt; "{}", CallsText(calls.list()))?;
    let places = sheet.places;
    let answer = cheapest(&sheet, &catalogue);
    println!(rt; "{}", AnswerText { places, answer })
}

// The line of a fault.
fn print_fault(rt: &HostRuntime, fault: &Fault) -> io::Result<()> {
    let mut line = [0; FAULT_BUFFER];
    let Ok(length) = write_fault(fault, &mut line) else {
        unreachable()
    };
    rt.stdout().write_all(&line[..length])
}

// The file on standard input: what it states and its answer, or its fault. A byte more than a file may have is enough to
// tell that it is too long.
fn run(rt: &HostRuntime) -> io::Result<ExitCode> {
    let mut file = Vec::new(rt.alloc());
    rt.stdin()
        .take(MOST_BYTES as u64 + 1)
        .read_to_end(&mut file)?;
    match jobfile::read(file.as_slice()) {
        Ok(job) => {
            print_job(rt, file.as_slice(), job)?;
            Ok(ExitCode::SUCCESS)
        }
        Err(fault) => {
            print_fault(rt, &fault)?;
            Ok(ExitCode::FAILURE)
        }
    }
}

fn main(rt: HostRuntime) -> io::Result<ExitCode> {
    run(&rt)
}
