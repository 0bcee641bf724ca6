// Spaces and tabs.
ghost use Rattle.std.specs.Prelude.{◌≡◌, ◌≤◌, length};
ghost use Rattle.md_lines.specs.Blanks.{is_blank, without_end_blanks};

/// Whether a byte is a space or a tab.
pub fn is_blank(b: u8) -> bool
    ensures { result ≡ is_blank b }
{
    b == b' ' || b == b'\t'
}

/// The text without the blanks at its end, which are looked for from there.
pub fn without_end_blanks<'a>(text: &'a str) -> &'a str
    ensures value { result.now ≡ without_end_blanks text.now }
    ensures within { length result.now ≤ length text.now }
{
    let bytes = text.as_bytes();
    let mut end = bytes.len();
    while end > 0 && is_blank(bytes[end - 1]) {
        end -= 1;
    }
    &text[..end]
}
