use crate::asserts::assert_same;
use crate::items::{items, put_items};
use item_io::{FailingOutlet, Item, MemoryOutlet};
use std::alloc::{AllocError, Global};
use std::process::Abort;

#[test]
fn an_outlet_in_memory_holds_what_was_put(rt: HostRuntime) -> Result<(), AllocError> {
    let mut outlet = MemoryOutlet::new(rt.alloc());
    let failures = put_items(rt.alloc(), &mut outlet)?;
    let items = items(rt.alloc())?;
    assert_same(
        &rt,
        "all",
        (failures, outlet.failures(), outlet.items()),
        (0, 0, items.as_slice()),
    );
    Ok(())
}

/// One item of each kind but item `n`, counted from 1.
fn items_but(alloc: Global, n: usize) -> Result<Vec<Item>, AllocError> {
    let mut items = items(alloc)?;
    if 1 <= n && n <= items.len() {
        drop(items.remove(n - 1));
    }
    Ok(items)
}

/// Puts one item of each kind, of which put `n` fails where it is one of them.
fn put_fails(rt: &impl Abort, alloc: Global, n: usize, failed: u64) -> Result<(), AllocError> {
    let mut outlet = FailingOutlet::new(alloc, n as u64);
    let failures = put_items(alloc, &mut outlet)?;
    let wanted = items_but(alloc, n)?;
    assert_same(
        rt,
        n,
        (failures, outlet.items()),
        (failed, wanted.as_slice()),
    );
    Ok(())
}

#[test]
fn one_put_fails(rt: HostRuntime) -> Result<(), AllocError> {
    for (n, failed) in [(0, 0), (1, 1), (2, 1), (4, 1), (5, 0)] {
        put_fails(&rt, rt.alloc(), n, failed)?;
    }
    Ok(())
}
