ghost use Rattle.std.specs.Prelude.{◌≡◌};

use item_io::{Item, Outlet};
use std::alloc::{AllocError, Global};

const TEXT: &str = "#EXTM3U\n#EXT-X-VERSION:4\n";

fn segment(alloc: Global) -> Result<Item, AllocError> {
    let name = String::from_str(alloc, "hd 1")?;
    Ok(Item::Segment {
        rendition: 0,
        number: 7,
        name,
        bytes: Vec::from_slice(alloc, b"\x00\x47\xAB\xFF")?,
    })
}

/// A media playlist of the first rendition.
pub(crate) fn media(alloc: Global, name: &str, text: &str) -> Result<Item, AllocError> {
    let name = String::from_str(alloc, name)?;
    Ok(Item::Media {
        rendition: 0,
        count: 8,
        ended: false,
        name,
        text: String::from_str(alloc, text)?,
    })
}

fn frames(alloc: Global) -> Result<Item, AllocError> {
    let name = String::from_str(alloc, "v")?;
    Ok(Item::Frames {
        rendition: 1,
        count: 8,
        ended: true,
        name,
        text: String::from_str(alloc, "#EXTM3U\n")?,
    })
}

fn master(alloc: Global) -> Result<Item, AllocError> {
    Ok(Item::Master {
        text: String::from_str(alloc, TEXT)?,
    })
}

fn item(alloc: Global, kind: u32) -> Result<Item, AllocError> {
    match kind {
        0 => segment(alloc),
        1 => media(alloc, "hd 1", TEXT),
        2 => frames(alloc),
        _ => master(alloc),
    }
}

/// One item of each kind.
pub(crate) fn items(alloc: Global) -> Result<Vec<Item>, AllocError> {
    let mut items = Vec::new(alloc);
    for kind in 0..4 {
        items.push(item(alloc, kind)?)?;
    }
    Ok(items)
}

/// Puts all items, and answers how many puts failed.
pub(crate) fn put_all<O: Outlet>(outlet: &mut O, items: &[Item]) -> u64
    requires { O.output.failures outlet.old ≡ 0 }
{
    let mut failures = 0;
    for item in items {
        if outlet.put(item).is_err() {
            failures += 1;
        }
    }
    failures
}

/// Puts one item of each kind, and answers how many puts failed.
pub(crate) fn put_items<O: Outlet>(alloc: Global, outlet: &mut O) -> Result<u64, AllocError>
    requires { O.output.failures outlet.old ≡ 0 }
{
    let items = items(alloc)?;
    Ok(put_all(outlet, &items))
}
