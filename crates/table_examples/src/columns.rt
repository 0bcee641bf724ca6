//! How columns share a width.
use md_columns::{Bounds, fair};
use std::alloc::{AllocError, Global};
use std::test::Fail;

/// The widths of three columns that need 10, 4 and 10, and can do with 1, 4 and 1.
fn shared(alloc: Global, budget: usize) -> Result<Vec<usize>, AllocError> {
    let columns = [
        Bounds { least: 1, most: 10 },
        Bounds { least: 4, most: 4 },
        Bounds { least: 1, most: 10 },
    ];
    fair(alloc, budget, &columns)
}

#[test]
fn the_narrowest_grow_first(rt: HostRuntime) -> Result<(), Fail> {
    assert_eq!(rt; shared(rt.alloc(), 14)?.as_slice(), [5, 4, 5].as_slice());
    assert_eq!(rt; shared(rt.alloc(), 15)?.as_slice(), [6, 4, 5].as_slice());
    assert_eq!(rt; shared(rt.alloc(), 8)?.as_slice(), [2, 4, 2].as_slice());
    assert_eq!(rt; shared(rt.alloc(), 5)?.as_slice(), [1, 4, 1].as_slice());
    assert_eq!(rt; shared(rt.alloc(), 24)?.as_slice(), [10, 4, 10].as_slice());
    assert_eq!(rt; shared(rt.alloc(), 99)?.as_slice(), [10, 4, 10].as_slice());
    Ok(())
}
