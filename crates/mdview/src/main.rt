//! `mdview WIDTH HEIGHT SCROLL` prints one view of the page of the Markdown text on its standard input.
#![tactic(auto)]

use md_page::view_process;
use std::process::ExitCode;

fn main(rt: HostRuntime) -> ExitCode {
    view_process(&rt)
}
