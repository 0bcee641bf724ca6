//! Draws a text in a style sheet and colours of its own, and prints its cells, red ones as #.
#![tactic(auto)]

use fantailstand::*;
use std::alloc::{AllocError, Global};

const TEXT: &str = "## Oil\n\n|kind|burns|\n|--|--:|\n|whale|nine hours|\n\n~~~words\nbegin\n~~~\n";

/// Shows the line `begin` of the language `words` in red.
struct Keywords;

impl Highlighter for Keywords {
    ghost use Rattle.std.specs.Prelude.{codes, ◌++◌, if◌then◌else◌};
    ghost use Rattle.std.specs.Str.{bytes_eq};

    ghost known = { λ _ lang. bytes_eq lang (codes "words") };

    ghost answer = { λ _ lang line. if bytes_eq line (codes "begin") then codes "\u{1b}[31m" ++ line else line };

    fn recognises(&self, lang: &str) -> bool {
        lang == "words"
    }

    fn line(&self, alloc: Global, _lang: &str, line: &str) -> Result<String, AllocError> {
        match line {
            "begin" => String::from_str(alloc, "\x1b[31mbegin"),
            _ => String::from_str(alloc, line),
        }
    }
}

fn drawn(alloc: Global, text: &str, width: u16, height: u16) -> Result<Buffer, ViewError> {
    let sheet = CustomSheet::default().with_heading_marker(2, "==");
    let sheet = sheet.with_code_block_fence("~~~");
    let look = Options::new(sheet).table_width(width);
    let area = Rect::new(0, 0, width, height);
    let mut buf = Buffer::empty(alloc, area).map_err(|_| ViewError::Memory)?;
    render_view(alloc, text.as_bytes(), &look, &Keywords, area, 0, &mut buf)?;
    Ok(buf)
}

fn line(alloc: Global, row: &[Cell]) -> Result<String, AllocError> {
    let mut text = String::new(alloc);
    for cell in VisitedCells::new(row) {
        let is_red = cell.fg() == Color::Red;
        text.push_str(if is_red { "#" } else { cell.symbol() })?;
    }
    Ok(text)
}

fn main(rt: HostRuntime) {
    if let Ok(buffer) = drawn(rt.alloc(), TEXT, 20, 11) {
        for row in buffer.rows() {
            let _ = line(rt.alloc(), row).map(|text| println!(rt; "{}", text.trim_end()));
        }
    }
}
