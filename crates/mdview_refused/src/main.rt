//! `mdview` on words that it refuses: its stored run shows the code that it ends with, and that nothing is printed.
#![tactic(auto)]

use md_page::view_process;
use std::process::ExitCode;

fn main(rt: HostRuntime) -> ExitCode {
    view_process(&rt)
}
