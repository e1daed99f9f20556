//! Puts one item of each kind into the folder that its first argument names, and prints what became of each: so that checks
//! see what files hold on a real file system. Its second argument is the size of the segment in bytes.
#![tactic(auto)]

use item_io::{FolderOutlet, Item, Outlet};
use std::alloc::{AllocError, Global};
use std::env;
use std::process::ExitCode;

/// The text of each playlist.
const TEXT: &str = "#EXTM3U\n#EXT-X-VERSION:4\n";

fn segment(alloc: Global, size: u64) -> Result<Item, AllocError> {
    let mut bytes = Vec::new(alloc);
    for _ in 0..size {
        bytes.push(0x47)?;
    }
    Ok(Item::Segment {
        rendition: 0,
        number: 7,
        name: String::from_str(alloc, "v")?,
        bytes,
    })
}

/// A segment of so many bytes, and the three playlists behind it.
fn items(alloc: Global, size: u64) -> Result<Vec<Item>, AllocError> {
    let mut items = Vec::new(alloc);
    items.push(segment(alloc, size)?)?;
    items.push(Item::Media {
        rendition: 0,
        count: 8,
        ended: false,
        name: String::from_str(alloc, "v")?,
        text: String::from_str(alloc, TEXT)?,
    })?;
    items.push(Item::Frames {
        rendition: 0,
        count: 8,
        ended: false,
        name: String::from_str(alloc, "v")?,
        text: String::from_str(alloc, TEXT)?,
    })?;
    items.push(Item::Master {
        text: String::from_str(alloc, TEXT)?,
    })?;
    Ok(items)
}

/// Puts the items, and prints a word of each.
fn put_all(rt: &HostRuntime, folder: &str, size: u64) -> Result<(), AllocError> {
    let mut outlet = FolderOutlet::new(rt, rt.alloc(), String::from_str(rt.alloc(), folder)?);
    for item in &items(rt.alloc(), size)? {
        let word = match outlet.put(item) {
            Ok(()) => "put",
            Err(_) => "refused",
        };
        let _ = rt.println(&word);
    }
    Ok(())
}

fn main(rt: HostRuntime) -> ExitCode {
    let Ok(mut words) = env::args(&rt) else {
        return ExitCode::from(2);
    };
    let folder = words.nth(1);
    let size = words.next().and_then(|w| w.parse().ok());
    let Some(folder) = folder else {
        return ExitCode::from(2);
    };
    match put_all(&rt, &folder, size.unwrap_or(1000)) {
        Ok(()) => ExitCode::SUCCESS,
        Err(_) => ExitCode::FAILURE,
    }
}
