// Kept lines as plain text.
ghost use Rattle.std.specs.Prelude.{◌≡◌, ◌++◌, [], ◌∷◌, IfOk, OnOk};
ghost use Rattle.ansi_feed.specs.Plain.{line_text, printed};

use crate::feed::Feed;
use std::alloc::{AllocError, Global};
use term_text::Line;

/// Adds the texts of a line's spans, one behind the other.
fn push_line_text(out: &mut Vec<u8>, line: &Line<'_>) -> Result<(), AllocError>
    ensures { OnOk result (out.new.items ≡ out.old.items ++ line_text line.now) }
{
    for span in line.spans() {
        out.extend_from_slice(span.text().as_bytes())?;
    }
    Ok(())
}

/// Adds the text of a line, and LF.
fn push_line(out: &mut Vec<u8>, line: &Line<'_>) -> Result<(), AllocError>
    ensures { OnOk result (out.new.items ≡ out.old.items ++ (line_text line.now ++ 10 ∷ [])) }
{
    push_line_text(out, line)?;
    out.push(b'\n')?;
    Ok(())
}

/// The kept lines of a feed as plain text, each with LF.
pub(crate) fn printed(alloc: Global, feed: &Feed) -> Result<Vec<u8>, AllocError>
    ensures { IfOk result (λ out. out.items ≡ printed feed.now.lines) }
{
    let mut out = Vec::new(alloc);
    let mut index = 0usize;
    'lines: while index < feed.len() {
        let Some(line) = feed.line(index) else {
            return Ok(out);
        };
        push_line(&mut out, line)?;
        index += 1;
    }
    Ok(out)
}
