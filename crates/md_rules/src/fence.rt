// Code between fences.
ghost use Rattle.std.specs.Prelude.{◌≡◌, ◌==◌, ◌≤◌, ◌<◌, length};
ghost use Rattle.std.specs.List.{list_any};
ghost use Rattle.md_rules.specs.Fences.{closes_fence, fence_info, fence_of, fence_with, fenced, is_closing, may_inform};

use crate::shallow::is_shallow;
use crate::texts::{after_run, are_all, run_length, trimmed};
use md_lines::Line;
use term_text::CowStr;

/// A line that begins a code block.
#[derive(Drop)]
pub struct Fence<'a> {
    /// A backtick or a tilde.
    pub mark: u8,
    /// How many of them stand there.
    pub length: usize,
    pub info: CowStr<'a>,
    /// The column that the lines of the content lose.
    pub indent: u128,
}

fn has_backtick(info: &[u8]) -> bool
    ensures { result ≡ list_any (λ b. b == 96) info.now }
{
    info.iter().any(|b| *b == b'`')
}

/// Whether the info text may stand behind such marks.
fn may_inform(mark: u8, info: &[u8]) -> bool
    ensures { result ≡ may_inform mark info.now }
{
    !(mark == b'`' && has_backtick(info))
}

fn fence_info<'a>(mark: u8, body: &'a str) -> &'a str
    requires { mark < 128 }
    ensures { result.now ≡ fence_info mark body.now }
{
    trimmed(after_run(mark, body))
}

/// The fence of this mark that the line is.
fn fence_with<'a>(mark: u8, line: &Line<'a>) -> Option<Fence<'a>>
    requires { mark < 128 }
    ensures { result ≡ fence_with mark line.now }
{
    let length = run_length(mark, line.body.as_bytes());
    let info = fence_info(mark, line.body);
    if length < 3 || !may_inform(mark, info.as_bytes()) {
        return None;
    }
    Some(Fence {
        mark,
        length,
        info: CowStr::borrowed(info),
        indent: line.indent,
    })
}

/// The fence that the line is, or `None` where it is none.
pub fn fence_of<'a>(line: &Line<'a>) -> Option<Fence<'a>>
    ensures { result ≡ fence_of line.now }
{
    if !is_shallow(line) {
        return None;
    }
    if let Some(fence) = fence_with(b'`', line) {
        return Some(fence);
    }
    fence_with(b'~', line)
}

impl<'a> Fence<'a> {
    /// Whether the text closes it.
    fn is_closing(&self, text: &[u8]) -> bool
        ensures { result ≡ is_closing self.now text.now }
    {
        text.len() >= self.length && are_all(self.mark, text)
    }

    /// Whether the line closes it.
    fn is_closed_by(&self, line: &Line) -> bool
        ensures { result ≡ closes_fence self.now line.now }
    {
        is_shallow(line) && self.is_closing(trimmed(line.body).as_bytes())
    }

    /// How many of the lines behind it are its content.
    #[tactic(auto, unfolding(crate::specs::Fences::fenced))]
    pub fn content(&self, lines: &[Line]) -> usize
        ensures value { result ≡ fenced self.now lines.now }
        ensures within { result ≤ length lines.now }
    {
        let mut at = 0;
        while at < lines.len() {
            if self.is_closed_by(&lines[at]) {
                break;
            }
            at += 1;
        }
        at
    }
}
