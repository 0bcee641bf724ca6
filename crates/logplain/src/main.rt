//! `logplain BOUND` prints the last lines of the ANSI text on its standard input as plain text.
#![tactic(auto)]

use ansi_feed::plain_process;
use std::process::ExitCode;

fn main(rt: HostRuntime) -> ExitCode {
    plain_process(&rt)
}
