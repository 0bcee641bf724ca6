//! The document of docs/example.md, and the picture of it that README.md shows.
use crate::runs::ran;
use md_page::Status;
use std::test::Fail;

const DOCUMENT: &str = r"# The lantern {#lantern}

*Nobody* had lit it for a year. Then the storm came,
the lamps of the harbour went out ~~all at once~~
one by one, and the **pilot** remembered it.

> [!TIP]
> Oil stands in the shed:
>
> - two cans of the old sort
>   1. behind the door
>   2. under the bench
> - [x] one can of the new

| Oil   | A can burns | Smell              |
|:------|------------:|--------------------|
| whale | nine hours  | strong, of the sea |
| colza | seven hours | *hardly* any       |

## How it is lit

Turn the ring `left`, as the [manual](docs/ring.md) has it.

```sh
lantern --left 2
```

1. Wait for the click.
2. Step back\!

* * *

漢字 and combined letters, é and e with its accent.
";

const PICTURE: &str = r"# The lantern {#lantern}

Nobody had lit it for a year. Then the
storm came, the lamps of the harbour
went out all at once one by one, and the
pilot remembered it.

> 💡 Tip
> Oil stands in the shed:
>
> - two cans of the old sort
>     1. behind the door
>     2. under the bench
> - [x] one can of the new

┌───────┬─────────────┬────────────────┐
│ Oil   │ A can burns │ Smell          │
├───────┼─────────────┼────────────────┤
│ whale │  nine hours │ strong, of the │
│       │             │ sea            │
│ colza │ seven hours │ hardly any     │
└───────┴─────────────┴────────────────┘

## How it is lit

Turn the ring left, as the manual
(docs/ring.md) has it.

```sh
lantern --left 2
rows 39
";

#[test]
fn the_document_is_printed_as_the_readme_shows(rt: HostRuntime) -> Result<(), Fail> {
    let (status, written) = ran(rt.alloc(), "40 30 0", DOCUMENT)?;
    assert_eq!(rt; status, Status::Done);
    assert_eq!(rt; written.as_slice(), PICTURE.as_bytes());
    Ok(())
}
