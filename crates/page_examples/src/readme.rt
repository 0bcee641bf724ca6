//! A whole README, printed in two views.
use crate::runs::ran;
use md_page::Status;
use std::test::Fail;

const DOCUMENT: &str = r##"# Lantern {#top}

A small reader for *Markdown* files. It
prints a **page** to the terminal.

> [!TIP]
> Needs a UTF-8 terminal.

## Install

```sh
cargo install lantern
lantern README.md
```

## Features

- Headings
- Lists
  - nested
  - [x] tasks
1. Tables
2. Links

| Key | Action |
| :-- | -----: |
| j   | down   |
| q   | quit   |

![logo](logo.png)

See the [guide](https://example.com/guide).[^1]

---

[^1]: Work in progress.

<div>
raw
</div>
"##;

const FIRST_VIEW: &str = r##"# Lantern {#top}

A small reader for Markdown files. It
prints a page to the terminal.

> 💡 Tip
> Needs a UTF-8 terminal.

## Install

```sh
cargo install lantern
lantern README.md
```

## Features

- Headings
- Lists
    - nested
    - [x] tasks

1. Tables
2. Links
rows 44
"##;

const SECOND_VIEW: &str = r##"
┌─────┬────────┐
│ Key │ Action │
├─────┼────────┤
│ j   │   down │
│ q   │   quit │
└─────┴────────┘

[img] logo

See the guide
(https://example.com/guide).[1]

---

[1]: Work in progress.

<div>
raw
</div>




rows 44
"##;

#[test]
fn a_readme_is_printed_view_by_view(rt: HostRuntime) -> Result<(), Fail> {
    for (words, wanted) in [("40 24 0", FIRST_VIEW), ("40 24 24", SECOND_VIEW)] {
        let (status, written) = ran(rt.alloc(), words, DOCUMENT)?;
        assert_eq!(rt; status, Status::Done, "{words}");
        assert_eq!(rt; written.as_slice(), wanted.as_bytes(), "{words}");
    }
    Ok(())
}
