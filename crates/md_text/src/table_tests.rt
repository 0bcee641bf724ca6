use crate::drawn::{drawn, end, quote, start, text};
use crate::render::laid_out;
use crate::{NoHighlight, Options, from_str_with_options};
use md_events::{Alignments, Event, Tag};
use std::alloc::{AllocError, Global};
use std::test::Fail;
use term_text::{Alignment, CowStr, Text};

// The texts of the lines, each with a line end behind it.
fn shown(alloc: Global, text: &Text) -> Result<String, AllocError> {
    let mut shown = String::new(alloc);
    for line in text.lines() {
        for span in line.spans() {
            shown.push_str(span.text())?;
        }
        shown.push_str("\n")?;
    }
    Ok(shown)
}

fn table(alloc: Global) -> Tag<'static> {
    Tag::Table(Alignments::new(alloc))
}

// A table of one column with two rows, behind these events.
fn table_behind(
    alloc: Global,
    before: Vec<Event<'static>>,
) -> Result<Vec<Event<'static>>, AllocError> {
    let mut events = before;
    let table = [
        start(table(alloc)),
        start(Tag::TableHead),
        start(Tag::TableCell),
        text("aa bb"),
        end(Tag::TableCell),
        end(Tag::TableHead),
        start(Tag::TableRow),
        start(Tag::TableCell),
        text("c"),
        end(Tag::TableCell),
        end(Tag::TableRow),
        start(Tag::TableRow),
        end(Tag::TableRow),
        end(table(alloc)),
    ];
    for event in table {
        events.push(event)?;
    }
    Ok(events)
}

#[test]
fn cells_hold_their_inlines_in_one_line(rt: HostRuntime) -> Result<(), Fail> {
    let mut sides = Alignments::new(rt.alloc());
    sides.push(Alignment::Center)?;
    sides.push(Alignment::Right)?;
    let link = Tag::Link {
        dest_url: CowStr::borrowed("e"),
    };
    let link_end = link.end();
    let events = [
        start(Tag::Table(sides)),
        start(Tag::TableHead),
        start(Tag::TableCell),
        text("a"),
        end(Tag::TableCell),
        start(Tag::TableCell),
        end(Tag::TableCell),
        end(Tag::TableHead),
        start(Tag::TableRow),
        start(Tag::TableCell),
        start(Tag::Strong),
        text("b"),
        Event::Code(CowStr::borrowed("c")),
        end(Tag::Strong),
        Event::HardBreak,
        start(link),
        text("d"),
        Event::End(link_end),
        end(Tag::TableCell),
        start(Tag::TableCell),
        text("f"),
        end(Tag::TableCell),
        end(Tag::TableRow),
        end(table(rt.alloc())),
    ];
    let options = Options::default();
    let text = laid_out(rt.alloc(), &events, &options, &NoHighlight)?;
    let drawn = drawn(rt.alloc(), &text)?;
    assert_eq!(rt;
        drawn.as_str(),
        "|┌──────────┬───┐<border>|\n|│<border>|    <h2>|a<h2>|     <h2>|│<border>|  <h2>| <h2>|│<border>|\n|├──────────┼───┤<border>|\n|│<border>| |b<bold>|c<code>| |d<link>| (|e<link>|)| |│<border>| |f| |│<border>|\n|└──────────┴───┘<border>|\n"
    );
    Ok(())
}

#[test]
fn tables_stand_behind_marks_and_blanks(rt: HostRuntime) -> Result<(), Fail> {
    let alloc = rt.alloc();
    let quoted = vec![in alloc; start(quote())]?;
    let item = vec![in alloc; start(Tag::List(None)), start(Tag::Item)]?;
    let task = vec![in alloc;
        start(Tag::List(None)),
        start(Tag::Item),
        Event::TaskListMarker(true),
    ]?;
    let second = vec![in alloc;
        start(Tag::List(None)),
        start(Tag::Item),
        start(Tag::Paragraph),
        text("a"),
        end(Tag::Paragraph),
    ]?;
    let rows = [
        (
            table_behind(alloc, quoted)?,
            "> ┌───────┐\n> │ aa bb │\n> ├───────┤\n> │ c     │\n> │       │\n> └───────┘\n",
        ),
        (
            table_behind(alloc, item)?,
            "- ┌───────┐\n  │ aa bb │\n  ├───────┤\n  │ c     │\n  │       │\n  └───────┘\n",
        ),
        (
            table_behind(alloc, task)?,
            "- [x] ┌───────┐\n      │ aa bb │\n      ├───────┤\n      │ c     │\n      │       │\n      └───────┘\n",
        ),
        (
            table_behind(alloc, second)?,
            "- a\n\n  ┌───────┐\n  │ aa bb │\n  ├───────┤\n  │ c     │\n  │       │\n  └───────┘\n",
        ),
    ];
    let options = Options::default();
    for (events, want) in rows {
        let text = laid_out(rt.alloc(), events.as_slice(), &options, &NoHighlight)?;
        let shown = shown(rt.alloc(), &text)?;
        assert_eq!(rt; shown.as_str(), want);
    }
    Ok(())
}

#[test]
fn tables_are_drawn_as_the_options_say(rt: HostRuntime) -> Result<(), Fail> {
    let wide =
        "> - ┌───────┐\n>   │ aa bb │\n>   ├───────┤\n>   │ c     │\n>   │       │\n>   └───────┘\n";
    let rows = [
        (Options::default(), wide),
        (Options::default().table_width(13), wide),
        (
            Options::default().table_width(12),
            "> - ┌──────┐\n>   │ aa   │\n>   │ bb   │\n>   ├──────┤\n>   │ c    │\n>   │      │\n>   └──────┘\n",
        ),
        (
            Options::default().table_row_dividers(true),
            "> - ┌───────┐\n>   │ aa bb │\n>   ├───────┤\n>   │ c     │\n>   ├───────┤\n>   │       │\n>   └───────┘\n",
        ),
    ];
    let before = vec![in rt.alloc(); start(quote()), start(Tag::List(None)), start(Tag::Item)]?;
    let events = table_behind(rt.alloc(), before)?;
    for (options, want) in rows {
        let text = laid_out(rt.alloc(), events.as_slice(), &options, &NoHighlight)?;
        let shown = shown(rt.alloc(), &text)?;
        assert_eq!(rt; shown.as_str(), want);
    }
    Ok(())
}

#[test]
fn tables_of_texts_are_drawn(rt: HostRuntime) -> Result<(), Fail> {
    let rows = [
        (
            "|a|b|\n|:-:|--:|\n|x|yy|",
            false,
            "┌───┬────┐\n│ a │  b │\n├───┼────┤\n│ x │ yy │\n└───┴────┘\n",
        ),
        (
            "| H |\n| --- |\n| a |\n| b |",
            true,
            "┌───┐\n│ H │\n├───┤\n│ a │\n├───┤\n│ b │\n└───┘\n",
        ),
        (
            "- [x] | H |\n  | --- |",
            false,
            "- [x] ┌───┐\n      │ H │\n      ├───┤\n      └───┘\n",
        ),
        (
            "- [x] a\n\n  | H |\n  | --- |",
            false,
            "- [x] a\n\n      ┌───┐\n      │ H │\n      ├───┤\n      └───┘\n",
        ),
        (
            "> - | aa bb |\n>   | --- |",
            false,
            "> - ┌──────┐\n>   │ aa   │\n>   │ bb   │\n>   ├──────┤\n>   └──────┘\n",
        ),
    ];
    for (input, dividers, want) in rows {
        let options = Options::default()
            .table_width(12)
            .table_row_dividers(dividers);
        let text = from_str_with_options(rt.alloc(), input, &options, &NoHighlight)?;
        let shown = shown(rt.alloc(), &text)?;
        assert_eq!(rt; shown.as_str(), want, "{input:?}");
    }
    Ok(())
}

#[test]
fn a_table_of_a_text_has_the_styles_of_the_sheet(rt: HostRuntime) -> Result<(), Fail> {
    let input = "| Name | 漢 |\n|:---|-:|\n| API | b |";
    let text = from_str_with_options(rt.alloc(), input, &Options::default(), &NoHighlight)?;
    let drawn = drawn(rt.alloc(), &text)?;
    assert_eq!(rt;
        drawn.as_str(),
        "|┌──────┬────┐<border>|\n|│<border>| <h2>|Name<h2>| <h2>|│<border>| <h2>|漢<h2>| <h2>|│<border>|\n|├──────┼────┤<border>|\n|│<border>| |API|  |│<border>|  |b| |│<border>|\n|└──────┴────┘<border>|\n"
    );
    Ok(())
}
