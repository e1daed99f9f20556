//! A live rendition whose segments last one second each.
ghost use Rattle.std.specs.Prelude.{◌≡◌, IfOk};

use folder::{MemoryFolder, PruningFolder};
use item_io::{FolderOutlet, Item, Outlet};
use keeping::{Keeping, KeepingOutlet};
use std::alloc::{AllocError, Global};

pub type Files = KeepingOutlet<MemoryFolder>;

fn push_rendition(
    renditions: &mut Vec<Keeping>,
    alloc: Global,
    name: &str,
    base: u64,
) -> Result<(), AllocError> {
    let name = String::from_str(alloc, name)?;
    renditions.push(Keeping::new(alloc, name, base, 0))?;
    Ok(())
}

fn push_renditions(
    renditions: &mut Vec<Keeping>,
    alloc: Global,
    names: &[&str],
    base: u64,
) -> Result<(), AllocError> {
    for name in names {
        push_rendition(renditions, alloc, name, base)?;
    }
    Ok(())
}

/// The outlet of some renditions whose first segments have number `base`, over a folder of which move `fails` fails, counted
/// from 1: none for 0.
pub fn outlet(alloc: Global, names: &[&str], base: u64, fails: u64) -> Result<Files, AllocError>
    ensures { IfOk result (λ outlet. outlet.files.failures ≡ 0) }
{
    let mut renditions = Vec::new(alloc);
    push_renditions(&mut renditions, alloc, names, base)?;
    let folder = PruningFolder::new(MemoryFolder::new(alloc, fails));
    Ok(KeepingOutlet::new(FolderOutlet::with_folder(folder, alloc), alloc, renditions))
}

/// The folder of an outlet.
pub fn folder_of(files: Files) -> MemoryFolder {
    files.into_files().into_folder().into_folder()
}

/// Appends a number with a text before it and one behind it.
fn push_number(
    out: &mut String,
    alloc: Global,
    before: &str,
    number: u64,
    behind: &str,
) -> Result<(), AllocError> {
    let text = format!(in alloc; "{before}{number}{behind}")?;
    out.push_str(&text)
}

/// Appends the name of a segment's file.
fn push_file(out: &mut String, alloc: Global, name: &str, number: u64) -> Result<(), AllocError> {
    out.push_str(name)?;
    push_number(out, alloc, ".", number, ".ts")
}

/// Appends a media playlist that lists the segments from `first` to `last`.
fn push_text(
    out: &mut String,
    alloc: Global,
    put: Put<'_>,
    first: u64,
    last: u64,
) -> Result<(), AllocError> {
    out.push_str("#EXTM3U\n#EXT-X-VERSION:4\n#EXT-X-TARGETDURATION:1\n")?;
    push_number(out, alloc, "#EXT-X-MEDIA-SEQUENCE:", first, "\n")?;
    out.push_str("#EXT-X-DISCONTINUITY-SEQUENCE:0\n")?;
    out.push_str(put.kind)?;
    out.push_str("#EXT-X-KEY:METHOD=AES-128,URI=\"")?;
    out.push_str(put.name)?;
    out.push_str(".0.key\"\n")?;
    for number in first..=last {
        out.push_str("#EXTINF:1.000000,\n")?;
        push_file(out, alloc, put.name, number)?;
        out.push_str("\n")?;
    }
    Ok(())
}

/// How a rendition is put: its place and name, how many segments its playlists list, and what they say of their kind.
#[derive(Clone, Copy, Drop)]
pub struct Put<'a> {
    pub rendition: usize,
    pub name: &'a str,
    pub window: u64,
    pub kind: &'a str,
}

fn push_segment(
    items: &mut Vec<Item>,
    alloc: Global,
    put: Put<'_>,
    number: u64,
) -> Result<(), AllocError> {
    let name = String::from_str(alloc, put.name)?;
    items.push(Item::Segment {
        rendition: put.rendition,
        number,
        name,
        bytes: Vec::from_array(alloc, [71, 0])?,
    })?;
    Ok(())
}

/// Appends the block of segment `number`.
pub fn push_block(
    items: &mut Vec<Item>,
    alloc: Global,
    put: Put<'_>,
    base: u64,
    number: u64,
) -> Result<(), AllocError> {
    let first = base.max(number.saturating_add(1).saturating_sub(put.window));
    let mut list = String::new(alloc);
    push_text(&mut list, alloc, put, first, number)?;
    push_segment(items, alloc, put, number)?;
    push_lists(items, alloc, put, &list)
}

/// Appends the last two playlists, which list the segments from `first` to `last`.
pub fn push_end(
    items: &mut Vec<Item>,
    alloc: Global,
    put: Put<'_>,
    first: u64,
    last: u64,
) -> Result<(), AllocError> {
    let mut list = String::new(alloc);
    push_text(&mut list, alloc, put, first, last)?;
    list.push_str("#EXT-X-ENDLIST\n")?;
    push_both(items, alloc, put, true, &list)
}

/// Appends the two playlists of a block.
pub fn push_lists(
    items: &mut Vec<Item>,
    alloc: Global,
    put: Put<'_>,
    list: &str,
) -> Result<(), AllocError> {
    push_both(items, alloc, put, false, list)
}

fn media(alloc: Global, put: Put<'_>, ended: bool, list: &str) -> Result<Item, AllocError> {
    let name = String::from_str(alloc, put.name)?;
    Ok(Item::Media {
        rendition: put.rendition,
        count: 1,
        ended,
        name,
        text: String::from_str(alloc, list)?,
    })
}

fn frames(alloc: Global, put: Put<'_>, ended: bool, list: &str) -> Result<Item, AllocError> {
    let name = String::from_str(alloc, put.name)?;
    Ok(Item::Frames {
        rendition: put.rendition,
        count: 1,
        ended,
        name,
        text: String::from_str(alloc, list)?,
    })
}

/// Appends two playlists of one text.
fn push_both(
    items: &mut Vec<Item>,
    alloc: Global,
    put: Put<'_>,
    ended: bool,
    list: &str,
) -> Result<(), AllocError> {
    items.push(media(alloc, put, ended, list)?)?;
    items.push(frames(alloc, put, ended, list)?)?;
    Ok(())
}

/// Puts all items, and answers how many puts failed.
pub fn put_all<O: Outlet>(outlet: &mut O, items: &[Item]) -> u64
    requires { O.output.failures outlet.old ≡ 0 }
{
    let mut failures = 0;
    for item in items {
        if outlet.put(item).is_err() {
            failures += 1;
        }
    }
    failures
}

/// Whether a segment stands in the folder.
fn stands(
    folder: &MemoryFolder,
    alloc: Global,
    name: &str,
    number: u64,
) -> Result<bool, AllocError> {
    let mut file = String::new(alloc);
    push_file(&mut file, alloc, name, number)?;
    Ok(folder.find(&file).is_some())
}

fn push_standing(
    out: &mut String,
    folder: &MemoryFolder,
    alloc: Global,
    name: &str,
    end: u64,
) -> Result<(), AllocError> {
    for number in 0..end {
        if stands(folder, alloc, name, number)? {
            push_number(out, alloc, "", number, " ")?;
        }
    }
    Ok(())
}

/// The numbers of a rendition's segments that stand in the folder, of those below `end`, each with a space.
pub fn standing(
    folder: &MemoryFolder,
    alloc: Global,
    name: &str,
    end: u64,
) -> Result<String, AllocError> {
    let mut all = String::new(alloc);
    push_standing(&mut all, folder, alloc, name, end)?;
    Ok(all)
}
