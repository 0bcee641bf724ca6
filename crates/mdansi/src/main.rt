//! `mdansi WIDTH HEIGHT SCROLL` prints one view of the page of the Markdown text on its standard input, in its colours.
#![tactic(auto)]

use ansi_page::ansi_process;
use std::process::ExitCode;

fn main(rt: HostRuntime) -> ExitCode {
    ansi_process(&rt)
}
