// The program over the real input and output.
use crate::program::run_ansi;
use ends::{StdSink, StdSource};
use programs::{Status, ended, words};
use std::io;
use std::process::ExitCode;

fn run_process(rt: &HostRuntime) -> Status {
    let words = match words(rt) {
        Ok(words) => words,
        Err(status) => return status,
    };
    let mut source = StdSource::new(rt.reader());
    let mut sink = StdSink::new(io::writer(rt));
    run_ansi(rt.alloc(), &words, &mut source, &mut sink)
}

/// Runs over the process' words, standard input and standard output; prints the status' text, and answers its code.
pub fn ansi_process(rt: &HostRuntime) -> ExitCode {
    let status = run_process(rt);
    ended(rt, status)
}
