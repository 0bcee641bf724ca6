//! Lists of events of which some are those of a tree, and the lists in tags.
use md_tree::{Alignments, Attrs, Classes, Event, Tag, TagEnd, well_formed};
use std::test::Fail;
use term_text::{Alignment, CowStr};

#[test]
fn a_table_has_one_head_and_then_rows(rt: HostRuntime) -> Result<(), Fail> {
    let headless = [
        Event::Start(Tag::Table(Alignments::new(rt.alloc()))),
        Event::End(TagEnd::Table),
    ];
    assert!(rt; !well_formed(rt.alloc(), &headless)?, "no head");
    let headed = [
        Event::Start(Tag::Table(Alignments::new(rt.alloc()))),
        Event::Start(Tag::TableHead),
        Event::End(TagEnd::TableHead),
        Event::End(TagEnd::Table),
    ];
    assert!(rt; well_formed(rt.alloc(), &headed)?, "one head");
    let two_heads = [
        Event::Start(Tag::Table(Alignments::new(rt.alloc()))),
        Event::Start(Tag::TableHead),
        Event::End(TagEnd::TableHead),
        Event::Start(Tag::TableHead),
        Event::End(TagEnd::TableHead),
        Event::End(TagEnd::Table),
    ];
    assert!(rt; !well_formed(rt.alloc(), &two_heads)?, "two heads");
    Ok(())
}

#[test]
fn item_numbers_end_at_the_greatest_u64(rt: HostRuntime) -> Result<(), Fail> {
    for (first, want) in [(u64::MAX - 1, true), (u64::MAX, false)] {
        let list = [
            Event::Start(Tag::List(Some(first))),
            Event::Start(Tag::Item),
            Event::End(TagEnd::Item),
            Event::Start(Tag::Item),
            Event::End(TagEnd::Item),
            Event::End(TagEnd::List(true)),
        ];
        assert_eq!(rt; well_formed(rt.alloc(), &list)?, want, "from {first}");
    }
    Ok(())
}

#[test]
fn no_link_stands_in_a_link_through_an_image(rt: HostRuntime) -> Result<(), Fail> {
    let link = [
        Event::Start(Tag::Paragraph),
        Event::Start(Tag::Link {
            dest_url: CowStr::borrowed("a"),
        }),
        Event::Start(Tag::Image {
            dest_url: CowStr::borrowed("b"),
        }),
        Event::Text(CowStr::borrowed("c")),
        Event::End(TagEnd::Image),
        Event::End(TagEnd::Link),
        Event::End(TagEnd::Paragraph),
    ];
    assert!(rt; well_formed(rt.alloc(), &link)?, "an image in a link");
    let link = [
        Event::Start(Tag::Paragraph),
        Event::Start(Tag::Link {
            dest_url: CowStr::borrowed("a"),
        }),
        Event::Start(Tag::Image {
            dest_url: CowStr::borrowed("b"),
        }),
        Event::Start(Tag::Link {
            dest_url: CowStr::borrowed("c"),
        }),
        Event::End(TagEnd::Link),
        Event::End(TagEnd::Image),
        Event::End(TagEnd::Link),
        Event::End(TagEnd::Paragraph),
    ];
    assert!(rt; !well_formed(rt.alloc(), &link)?, "a link in it");
    Ok(())
}

#[test]
fn a_task_mark_comes_first_in_its_item(rt: HostRuntime) -> Result<(), Fail> {
    let early = [
        Event::Start(Tag::List(None)),
        Event::Start(Tag::Item),
        Event::Start(Tag::Paragraph),
        Event::TaskListMarker(true),
        Event::Text(CowStr::borrowed("a")),
        Event::End(TagEnd::Paragraph),
        Event::End(TagEnd::Item),
        Event::End(TagEnd::List(false)),
    ];
    assert!(rt; well_formed(rt.alloc(), &early)?, "before the text");
    let late = [
        Event::Start(Tag::List(None)),
        Event::Start(Tag::Item),
        Event::Text(CowStr::borrowed("a")),
        Event::TaskListMarker(true),
        Event::End(TagEnd::Item),
        Event::End(TagEnd::List(false)),
    ];
    assert!(rt; !well_formed(rt.alloc(), &late)?, "behind the text");
    Ok(())
}

#[test]
fn an_end_is_that_of_its_start(rt: HostRuntime) -> Result<(), Fail> {
    let ends = [
        Event::Start(Tag::List(None)),
        Event::End(TagEnd::List(true)),
    ];
    assert!(rt; !well_formed(rt.alloc(), &ends)?, "a list without numbers");
    let open = [Event::Start(Tag::Paragraph)];
    assert!(rt; !well_formed(rt.alloc(), &open)?, "an open paragraph");
    Ok(())
}

#[test]
fn lists_keep_their_order(rt: HostRuntime) -> Result<(), Fail> {
    let mut classes = Classes::new(rt.alloc());
    classes.push(CowStr::borrowed("a"))?;
    classes.push(CowStr::borrowed("b"))?;
    let mut words = String::new(rt.alloc());
    for class in classes.as_slice() {
        words.push_str(class.as_str())?;
    }
    assert_eq!(rt; words.as_str(), "ab");
    let mut attrs = Attrs::new(rt.alloc());
    attrs.push((CowStr::borrowed("k"), Some(CowStr::borrowed("v"))))?;
    attrs.push((CowStr::borrowed("l"), None))?;
    let mut words = String::new(rt.alloc());
    for (key, value) in attrs.as_slice() {
        words.push_str(key.as_str())?;
        if let Some(value) = value {
            words.push_str(value.as_str())?;
        }
    }
    assert_eq!(rt; words.as_str(), "kvl");
    let mut alignments = Alignments::new(rt.alloc());
    alignments.push(Alignment::Left)?;
    alignments.push(Alignment::Right)?;
    let wanted = [Alignment::Left, Alignment::Right];
    assert_eq!(rt; alignments.as_slice(), wanted.as_slice());
    Ok(())
}
