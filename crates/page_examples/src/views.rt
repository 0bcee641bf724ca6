//! Views of texts of each form, with the words, the input and all that is printed.
use crate::runs::ran;
use md_page::Status;
use std::test::Fail;

#[test]
fn plain_text_is_wrapped_at_the_width(rt: HostRuntime) -> Result<(), Fail> {
    let rows = [
        (
            "22 2 0",
            "verylongwordindeed  word\n",
            "verylongwordindeed\nword\nrows 2\n",
        ),
        (
            "4 4 0",
            "a x\0y end. alphabet   \n",
            "a xy\nend.\nalph\nabet\nrows 4\n",
        ),
        ("80 2 0", "   Hello,  \nｱ", "Hello,\nｱ\nrows 2\n"),
        (
            "26 1 0",
            "💡 \u{301} 字 漢 漢 💡\nverylongwordindeed world! bb \nworld!   \ndon't \n\n",
            "💡 \u{301} 字 漢 漢 💡\nrows 4\n",
        ),
        ("18 2 6", " 漢 verylongwordindeed  \n \n", "\n\nrows 2\n"),
        ("0 2 0", "a", "\n\nrows 0\n"),
    ];
    for (words, input, wanted) in rows {
        let (status, written) = ran(rt.alloc(), words, input)?;
        assert_eq!(rt; status, Status::Done, "{input}");
        assert_eq!(rt; written.as_slice(), wanted.as_bytes(), "{input}");
    }
    Ok(())
}

#[test]
fn inlines_are_printed_without_their_marks(rt: HostRuntime) -> Result<(), Fail> {
    let rows = [
        (
            "40 5 0",
            "*ipsum **Lorem* \\\\   \n\nURL bar *x **y***\\\n\n*1 **b*  \n",
            "ipsum **Lorem \\\n\nURL bar x y\\\n\n1 **b\nrows 5\n",
        ),
        ("80 1 0", "##  `*a*`#\n", "## *a*#\nrows 1\n"),
        (
            "18 2 0",
            "``x``\nbar[a [e.g.](u) b](v) ^ab^ \n",
            "x bara [e.g.](u) b\n(v) ab\nrows 2\n",
        ),
        (
            "8 2 0",
            "^^❗^Lorem^ ``*a*``^   \n",
            "^^❗Lore\nm *a*^\nrows 2\n",
        ),
        (
            "80 1 0",
            "~alphabet~ [a](u)foo](v)   \n",
            "alphabet a (u)foo](v)\nrows 1\n",
        ),
        (
            "80 1 0",
            "##### e.g. 50% {.b k=v}\n",
            "##### e.g. 50% {.b k=v}\nrows 1\n",
        ),
        (
            "3 5 0",
            "####### *`\\`* {#a #b}\n",
            "###\n###\n# \\\n{#a\n#b}\nrows 5\n",
        ),
    ];
    for (words, input, wanted) in rows {
        let (status, written) = ran(rt.alloc(), words, input)?;
        assert_eq!(rt; status, Status::Done, "{input}");
        assert_eq!(rt; written.as_slice(), wanted.as_bytes(), "{input}");
    }
    Ok(())
}

#[test]
fn code_stands_between_fences(rt: HostRuntime) -> Result<(), Fail> {
    let rows = [
        (
            "18 8 0",
            "**y*b\n ```` sh\n````\n\n    cd 1 x 漢  1",
            "**y*b\n\n```sh\n```\n\n```\ncd 1 x 漢  1\n```\nrows 8\n",
        ),
        (
            "40 6 0",
            "   ````a b\n\n    deep\n~~~\n```` x\n",
            "```a b\n\n deep\n~~~\n```` x\n```\nrows 6\n",
        ),
        (
            "2 8 0",
            "``` a b\n``` x\n",
            "``\n`a\nb\n``\n`\nx\n``\n`\nrows 8\n",
        ),
        (
            "93 7 0",
            "```a b\n\x1b[999mz\n    ```\n\n####  50% {#a #b}\n&amp; __`\\`__\n",
            "```a b\n[999mz\n    ```\n\n####  50% {#a #b}\n&amp; __`\\`__\n```\nrows 7\n",
        ),
        (
            "80 4 0",
            "        alphabet 50% don't\n\tx",
            "```\n    alphabet 50% don't\nx\n```\nrows 4\n",
        ),
    ];
    for (words, input, wanted) in rows {
        let (status, written) = ran(rt.alloc(), words, input)?;
        assert_eq!(rt; status, Status::Done, "{input}");
        assert_eq!(rt; written.as_slice(), wanted.as_bytes(), "{input}");
    }
    Ok(())
}

#[test]
fn quotes_and_lists_keep_their_marks(rt: HostRuntime) -> Result<(), Fail> {
    let rows = [
        (
            "16 7 0",
            "   -\t[x] \n\n   -     [X]\t\n   - 字\n",
            "- [x]\n-\n\n```\n[X]\n```\n- 字\nrows 7\n",
        ),
        (
            "40 2 0",
            "> [!NOTE] x\n> [**Lorem *x*** ~~~URL~~~~x~) - C++ b 50%  \n",
            "> [!NOTE] x [Lorem x ~~~URL~~~~x~) - C++\nb 50%\nrows 2\n",
        ),
        (
            "69 8 0",
            "9.\t~~~~  rust\n   漢字\n    +a\n   +a\n       ~~~~\n",
            "9.\n\n```rust\n漢字\n+a\n+a\n ~~~~\n```\nrows 8\n",
        ),
        ("4 3 0", "-- -\n\n-- -\n", "---\n\n---\nrows 3\n"),
        (
            "20 3 0",
            ">    ```  \n>\tx = 1\n> ``` \n",
            "> ```\n> x = 1\n> ```\nrows 3\n",
        ),
        (
            "40 9 0",
            " -\t[ ] ``` rust\n   > q\n   ``` x\n    *     [x] \n\n> y _URL __e.g.___\n",
            "- [ ]\n\n```rust\n> q\n``` x\n *     [x]\n```\n\n> y URL e.g.\nrows 9\n",
        ),
    ];
    for (words, input, wanted) in rows {
        let (status, written) = ran(rt.alloc(), words, input)?;
        assert_eq!(rt; status, Status::Done, "{input}");
        assert_eq!(rt; written.as_slice(), wanted.as_bytes(), "{input}");
    }
    Ok(())
}

#[test]
fn tables_share_the_width(rt: HostRuntime) -> Result<(), Fail> {
    let rows = [
        (
            "80 6 0",
            "|  |\n :-|\n| b |  | \n| 漢 | ",
            "┌────┬───┐\n│    │   │\n├────┼───┤\n│ b  │   │\n│ 漢 │   │\n└────┴───┘\nrows 6\n",
        ),
        (
            "26 5 0",
            "aaa bbb cc|\n|--:\n| 💡 | \n",
            "┌────────────┐\n│ aaa bbb cc │\n├────────────┤\n│         💡 │\n└────────────┘\nrows 5\n",
        ),
        (
            "40 6 0",
            "a\\|b | \n| --:|\n | b|\n|`a|b` | \n",
            "┌─────┬────┐\n│ a|b │    │\n├─────┼────┤\n│   b │    │\n│  `a │ b` │\n└─────┴────┘\nrows 6\n",
        ),
        (
            "92 7 0",
            "alphabet\n\n|漢| aaa bbb cc |\n |  --- |-\n1 |\n",
            "alphabet\n\n┌────┬────────────┐\n│ 漢 │ aaa bbb cc │\n├────┼────────────┤\n\
             │ 1  │            │\n└────┴────────────┘\nrows 7\n",
        ),
        (
            "40 1 0",
            " |42\n| -|--:|\n|`a|b`|\n",
            "|42 | -|--:| |a|b|\nrows 1\n",
        ),
        (
            "4 5 0",
            "|ab| aaa bbb cc | \n|  :-|:-:|\n\nbar|\n|:--|\n |`a|b` |\n漢 | \n",
            "┌───\n┬───\n┐\n│ a\n│ a\nrows 58\n",
        ),
    ];
    for (words, input, wanted) in rows {
        let (status, written) = ran(rt.alloc(), words, input)?;
        assert_eq!(rt; status, Status::Done, "{input}");
        assert_eq!(rt; written.as_slice(), wanted.as_bytes(), "{input}");
    }
    Ok(())
}

#[test]
fn the_greatest_view_is_printed(rt: HostRuntime) -> Result<(), Fail> {
    let alloc = rt.alloc();
    let mut wanted = String::from_str(alloc, "a\n\n# b\n")?;
    for _ in 3..1000 {
        wanted.push_str("\n")?;
    }
    wanted.push_str("rows 3\n")?;
    let (status, written) = ran(alloc, "1000 1000 0", "a\n# b\n")?;
    assert_eq!(rt; status, Status::Done);
    assert_eq!(rt; written.as_slice(), wanted.as_bytes());
    Ok(())
}
