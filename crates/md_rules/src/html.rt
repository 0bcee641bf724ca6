// HTML blocks.
ghost use Rattle.std.specs.Prelude.{◌≡◌, ◌≤◌, length};
ghost use Rattle.std.specs.List.{list_any};
ghost use Rattle.md_rules.specs.Quotes.{is_same};
ghost use Rattle.md_rules.specs.Html.{begins_element, begins_raw, begins_same, closes_tag, contains, ends_before, ends_element, ends_raw, ends_with, html_end, html_in, html_more, name_length, without_slash};

use crate::quote::is_same;
use crate::shallow::is_shallow;
use crate::texts::{begins_with, ends_word};
use md_lines::Line;

/// The elements of which a start or an end begins a block, in the order of the alphabet.
static ELEMENTS: [&str; 49] = [
    "address",
    "article",
    "aside",
    "blockquote",
    "body",
    "center",
    "dd",
    "details",
    "dialog",
    "div",
    "dl",
    "dt",
    "fieldset",
    "figcaption",
    "figure",
    "footer",
    "form",
    "h1",
    "h2",
    "h3",
    "h4",
    "h5",
    "h6",
    "head",
    "header",
    "hr",
    "html",
    "iframe",
    "legend",
    "li",
    "link",
    "main",
    "menu",
    "nav",
    "ol",
    "optgroup",
    "option",
    "p",
    "section",
    "summary",
    "table",
    "tbody",
    "td",
    "tfoot",
    "th",
    "thead",
    "title",
    "tr",
    "ul",
];

/// The elements of raw text, which run through empty lines.
static RAW_ELEMENTS: [&str; 3] = ["pre", "script", "style"];

/// Behind `<`, what ends any of the elements of raw text.
static RAW_ENDS: [&str; 3] = ["/pre>", "/script>", "/style>"];

/// Behind `-`, what ends a comment.
static COMMENT_ENDS: [&str; 1] = ["->"];

/// What ends an HTML block.
#[derive(Clone, Copy, Debug, PartialEq, Eq)]
pub enum HtmlEnd {
    /// The line with the end of an element of raw text, whichever.
    RawElement,
    /// The line with the end of a comment.
    Comment,
    /// An empty line, which is not of the block.
    EmptyLine,
}

/// How many bytes the name in front has, which is of ASCII letters and digits.
fn name_length(bytes: &[u8]) -> usize
    ensures value { result ≡ name_length bytes.now }
    ensures within { result ≤ length bytes.now }
{
    bytes
        .iter()
        .take_while(|b| b.is_ascii_alphanumeric())
        .count()
}

/// Whether the name is one of these, ASCII case aside.
fn is_one_of(names: &[&str], name: &[u8]) -> bool
    ensures { result ≡ list_any (λ n. is_same name.now n.now) names.now }
{
    names.iter().any(|n| is_same(name, n.as_bytes()))
}

/// Whether a blank, `>` or the end stands in front.
fn ends_raw(bytes: &[u8]) -> bool
    ensures { result ≡ ends_raw bytes.now }
{
    ends_word(bytes) || begins_with(b'>', bytes)
}

/// Whether `/>` stands in front.
fn closes_tag(bytes: &[u8]) -> bool
    ensures { result ≡ closes_tag bytes.now }
{
    !bytes.is_empty() && bytes[0] == b'/' && begins_with(b'>', &bytes[1..])
}

/// Whether what may stand behind an element's name stands in front.
fn ends_element(bytes: &[u8]) -> bool
    ensures { result ≡ ends_element bytes.now }
{
    ends_raw(bytes) || closes_tag(bytes)
}

/// Whether these bytes behind `<` begin an element of raw text.
fn begins_raw(bytes: &[u8]) -> bool
    ensures { result ≡ begins_raw bytes.now }
{
    let length = name_length(bytes);
    is_one_of(&RAW_ELEMENTS, &bytes[..length]) && ends_raw(&bytes[length..])
}

/// Whether these bytes behind `<` or `</` begin or end one of the elements.
fn begins_element(bytes: &[u8]) -> bool
    ensures { result ≡ begins_element bytes.now }
{
    let length = name_length(bytes);
    is_one_of(&ELEMENTS, &bytes[..length]) && ends_element(&bytes[length..])
}

fn without_slash(bytes: &[u8]) -> &[u8]
    ensures { result.now ≡ without_slash bytes.now }
{
    if begins_with(b'/', bytes) {
        &bytes[1..]
    } else {
        bytes
    }
}

/// Whether this text stands in front, ASCII case aside.
fn begins_same(part: &[u8], bytes: &[u8]) -> bool
    ensures { result ≡ begins_same part.now bytes.now }
{
    part.len() <= bytes.len() && is_same(part, &bytes[..part.len()])
}

/// What ends the block that begins with `<` and these bytes, or `None` where none begins.
fn html_in(bytes: &[u8]) -> Option<HtmlEnd>
    ensures { result ≡ html_in bytes.now }
{
    if begins_raw(bytes) {
        Some(HtmlEnd::RawElement)
    } else if begins_same(b"!--", bytes) {
        Some(HtmlEnd::Comment)
    } else if begins_element(without_slash(bytes)) {
        Some(HtmlEnd::EmptyLine)
    } else {
        None
    }
}

/// What ends the HTML block that begins at the line, or `None` where none begins.
pub fn html_end(line: &Line) -> Option<HtmlEnd>
    ensures { result ≡ html_end line.now }
{
    let body = line.body.as_bytes();
    if is_shallow(line) && begins_with(b'<', body) {
        html_in(&body[1..])
    } else {
        None
    }
}

/// Whether one of these texts stands in front.
fn begins_any(parts: &[&str], bytes: &[u8]) -> bool
    ensures { result ≡ list_any (λ part. begins_same part.now bytes.now) parts.now }
{
    parts.iter().any(|part| begins_same(part.as_bytes(), bytes))
}

/// Whether the mark stands somewhere, and then one of these texts.
#[tactic(auto, unfolding(crate::specs::Html::contains))]
fn contains(mark: u8, parts: &[&str], bytes: &[u8]) -> bool
    ensures { result ≡ contains mark (λ bs. list_any (λ part. begins_same part.now bs) parts.now) bytes.now }
{
    let mut rest = bytes;
    while let Some((b, behind)) = rest.split_first() {
        if *b == mark && begins_any(parts, behind) {
            return true;
        }
        rest = behind;
    }
    false
}

impl HtmlEnd {
    /// Whether the block ends with the line.
    fn ends_with(self, line: &Line) -> bool
        ensures { result ≡ ends_with self line.now }
    {
        match self {
            HtmlEnd::RawElement => contains(b'<', &RAW_ENDS, line.body.as_bytes()),
            HtmlEnd::Comment => contains(b'-', &COMMENT_ENDS, line.body.as_bytes()),
            HtmlEnd::EmptyLine => false,
        }
    }

    /// Whether the block ends before the line.
    fn ends_before(self, line: &Line) -> bool
        ensures { result ≡ ends_before self line.now }
    {
        match self {
            HtmlEnd::EmptyLine => line.is_empty(),
            _ => false,
        }
    }

    /// How many of the lines behind the block's first line it takes.
    #[tactic(auto, unfolding(crate::specs::Html::html_rest))]
    pub fn html_more(self, line: &Line, later: &[Line]) -> usize
        ensures value { result ≡ html_more self line.now later.now }
        ensures within { result ≤ length later.now }
    {
        if self.ends_with(line) {
            return 0;
        }
        let mut at = 0;
        while at < later.len() {
            let line = &later[at];
            if self.ends_before(line) {
                break;
            }
            at += 1;
            if self.ends_with(line) {
                break;
            }
        }
        at
    }
}
