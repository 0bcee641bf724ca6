// The leaves of a source.
ghost use Rattle.std.specs.Prelude.{◌≡◌, ◌≤◌, ◌<◌, ◌+◌, drop, length, IfOk, IfSome};
ghost use Rattle.md_leaves.specs.Ahead.{Knows};
ghost use Rattle.md_leaves.specs.Cuts.{AreLeaves};
ghost use Rattle.md_leaves.specs.Leaves.{first_cut, leaves, marked, or_text, text_length};
ghost use Rattle.md_leaves.specs.Steps.{text_step};

use crate::angle::angle;
use crate::bytes::{Class, byte_at, ends_line, rest_of, stretch};
use crate::closer::closer;
use crate::code::code;
use crate::leaf::{Kind, Leaf, Lone};
use crate::math::math;
use crate::parens::Parens;
use crate::rules::{escape, line_end, opener, reference};
use crate::runs::run;
use crate::ticks::TickRuns;
use std::alloc::{AllocError, Global};

/// What a rule cuts at a place: the leaf's kind, and how many bytes it has after its first.
#[derive(Clone, Copy)]
pub struct Cut {
    pub kind: Kind,
    pub more: usize,
}

/// How many bytes in front are seen at once to be text; none where a rule fits.
fn text_step(bytes: &[u8]) -> usize
    requires { 0 < length bytes.now }
    ensures value { result ≡ text_step bytes.now }
    ensures within { result ≤ length bytes.now }
{
    match bytes[0] {
        b' ' | b'\t' => {
            let blanks = stretch(bytes, Class::Blank);
            if ends_line(byte_at(bytes, blanks)) {
                0
            } else {
                blanks
            }
        }
        b'\\' => !escape(bytes).is_some() as usize,
        b'!' => !opener(bytes).is_some() as usize,
        b'<' => !angle(bytes).is_some() as usize,
        b'\n' | b'\r' | b'`' | b'$' | b'[' | b']' | b'*' | b'_' | b'~' | b'^' => 0,
        _ => 1 + stretch(rest_of(bytes, 1), Class::Letter),
    }
}

/// How many bytes of text stand at a place, up to the first at which a rule fits.
fn text_length(source: &[u8], start: usize) -> usize
    requires { start ≤ length source.now }
    ensures value { result ≡ text_length source.now start (drop start source.now) }
    ensures within { start + result ≤ length source.now }
{
    let mut at = start;
    while at < source.len() {
        let more = text_step(rest_of(source, at));
        if more == 0 {
            break;
        }
        at += more;
    }
    at - start
}

/// What is found out ahead of the place that is cut.
#[derive(Drop)]
pub struct Ahead {
    pub runs: TickRuns,
    pub parens: Parens,
}

/// What the first rule that fits cuts at a place.
fn marked(source: &str, at: usize, ahead: &mut Ahead) -> Result<Option<Cut>, AllocError>
    requires within { at < length source.now }
    requires known { Knows source.now ahead.old }
    ensures kept { Knows source.now ahead.new }
    ensures value { IfOk result (λ cut. cut ≡ marked source.now at (drop at source.now)) }
    ensures within { IfOk result (λ found. IfSome found (λ cut. at + cut.more < length source.now)) }
{
    let bytes = source.as_bytes();
    let rest = rest_of(bytes, at);
    let first = bytes[at];
    if first == b'\\' {
        return Ok(escape(rest));
    }
    if first == b'`' {
        return code(bytes, at, &mut ahead.runs);
    }
    if first == b']' {
        return closer(bytes, at, &mut ahead.parens);
    }
    if first == b'$' {
        return Ok(math(rest));
    }
    if first == b'<' {
        return Ok(angle(rest));
    }
    if first == b'[' {
        return Ok(reference(rest).or(opener(rest)));
    }
    Ok(opener(rest).or(run(source, at)).or(line_end(rest)))
}

/// The cut of the rule that fits, or else text.
fn or_text(cut: Option<Cut>, more: usize) -> Cut
    ensures { result ≡ or_text cut more }
{
    match cut {
        Some(cut) => cut,
        None => Cut {
            kind: Kind::Lone(Lone::Text),
            more,
        },
    }
}

/// What is cut at a place.
fn cut_at(source: &str, at: usize, ahead: &mut Ahead) -> Result<Cut, AllocError>
    requires within { at < length source.now }
    requires known { Knows source.now ahead.old }
    ensures kept { Knows source.now ahead.new }
    ensures value { IfOk result (λ cut. cut ≡ first_cut source.now at (drop at source.now)) }
    ensures within { IfOk result (λ cut. at + cut.more < length source.now) }
{
    let text = text_length(source.as_bytes(), at);
    if text > 0 {
        // No rule fits here: none is tried at a letter.
        return Ok(or_text(None, text - 1));
    }
    let cut = marked(source, at, ahead)?;
    Ok(or_text(cut, 0))
}

/// The leaves of a source, which is the bodies of the lines of a paragraph or the like with a line end between each two,
/// without the blanks at the end of the last line.
///
/// The leaves stand in the order of their places, which touch and are the whole source.
pub fn cut_leaves(alloc: Global, source: &str) -> Result<Vec<Leaf>, AllocError>
    ensures leaves { IfOk result (λ v. v.items ≡ leaves source.now) }
    ensures cuts { IfOk result (λ v. AreLeaves source.now v.items) }
{
    let mut leaves = Vec::new(alloc);
    let mut ahead = Ahead {
        runs: TickRuns::new(alloc),
        parens: Parens::new(alloc),
    };
    let mut at = 0;
    while at < source.len() {
        let cut = cut_at(source, at, &mut ahead)?;
        let to = at + 1 + cut.more;
        leaves.push(Leaf {
            kind: cut.kind,
            from: at,
            to,
        })?;
        at = to;
    }
    Ok(leaves)
}
