//! The program `aptres`: a dialogue over the repairs of broken package dependencies.
//!
//! It makes the real files, input and output, hands them to the run, tells a fault on standard error and ends with the
//! run's number.
#![tactic(auto)]

use apt_base::{FileShelf, StdinSource, StdoutSink};
use resolve_cli::{Status, UsageFault, exit_number, fault_text, run_session};
use search_thread::OpenGate;
use std::env;
use std::io::ErrorKind;
use std::process::ExitCode;

// The words of the command line. A word that is no text is not understood.
fn words(rt: &HostRuntime) -> Result<Vec<String>, Status> {
    match env::args(rt) {
        Ok(args) => args.collect(rt.alloc()).map_err(|_| Status::NoMemory),
        Err(error) if error.kind() == ErrorKind::OutOfMemory => Err(Status::NoMemory),
        Err(_) => Err(Status::Usage(UsageFault::Words)),
    }
}

// The line that tells a fault, where there is memory for it.
fn fault_line(rt: &HostRuntime, status: &Status) -> Option<String> {
    let mut line = Vec::new(rt.alloc());
    fault_text(status, &mut line).ok()?;
    String::from_utf8(line).ok()
}

// Writes the line that tells a fault. Where there is no memory for it, the line says so, which takes none.
fn tell(rt: &HostRuntime, status: &Status) {
    let _ = match fault_line(rt, status) {
        Some(line) => eprint!(rt; "{line}"),
        None => eprint!(rt; "aptres: no memory\n"),
    };
}

fn main(rt: HostRuntime) -> ExitCode {
    let status = match words(&rt) {
        Ok(words) => {
            let mut shelf = FileShelf::new(rt.alloc(), &rt);
            let mut input = StdinSource::new(&rt);
            let mut out = StdoutSink::new(&rt);
            run_session(
                &rt,
                rt.alloc(),
                words.as_slice(),
                &mut shelf,
                &mut input,
                &mut out,
                &OpenGate,
            )
            .status
        }
        Err(status) => status,
    };
    tell(&rt, &status);
    ExitCode::from(exit_number(&status))
}
