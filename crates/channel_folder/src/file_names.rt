//! The names of a rendition's files.
ghost use Rattle.std.specs.Prelude.{◌≡◌, ◌++◌, IfOk, codes};
ghost use Rattle.std.specs.String.{string_bytes};
ghost use Rattle.folder.specs.StagedFiles.{staged_file_names};
ghost use Rattle.item_io.specs.FileNames.{segment_file_name};
ghost use Rattle.channel_folder.specs.Files;
ghost use Rattle.channel_folder.specs.CutOff.{names_of};

use folder::StagedFile;
use item_io::push_segment_file_name;
use std::alloc::{AllocError, Global};
use std::marker::Model;

/// The master playlist until it is whole.
pub(crate) const UNFINISHED_MASTER: &str = ".master.m3u8.part";

/// What the names of a rendition's unfinished files are made of, so that those of a folder are compared without taking memory:
/// the playlists, and the front of a segment.
#[derive(Drop)]
pub(crate) struct UnfinishedNames {
    pub media: String,
    pub frames: String,
    pub segment: String,
}

impl Model for UnfinishedNames {
    ghost use Rattle.std.specs.String.{string_bytes};
    ghost use Rattle.channel_folder.specs.Files.{UnfinishedNames};

    ghost Value = { UnfinishedNames };

    ghost view = { λ p. record { media = string_bytes p.media; frames = string_bytes p.frames; segment = string_bytes p.segment } };
}

pub(crate) fn unfinished_names(alloc: Global, name: &str) -> Result<UnfinishedNames, AllocError>
    ensures { IfOk result (λ p. p ≡ Files.unfinished_names name.now) }
{
    let media = media_file(alloc, name)?;
    let frames = frames_file(alloc, name)?;
    Ok(UnfinishedNames {
        media: part_of(alloc, media.as_str())?,
        frames: part_of(alloc, frames.as_str())?,
        segment: joined(alloc, ".", name, ".")?,
    })
}

/// The front of the name of a segment's file.
pub(crate) fn segment_front(alloc: Global, name: &str) -> Result<String, AllocError>
    ensures { IfOk result (λ s. string_bytes s ≡ name.now ++ codes ".") }
{
    joined(alloc, "", name, ".")
}

/// Three texts behind one another.
fn joined(alloc: Global, front: &str, middle: &str, back: &str) -> Result<String, AllocError>
    ensures { IfOk result (λ s. string_bytes s ≡ front.now ++ middle.now ++ back.now) }
{
    let mut out = String::from_str(alloc, front)?;
    out.push_str(middle)?;
    out.push_str(back)?;
    Ok(out)
}

/// The file of a rendition's media playlist.
pub(crate) fn media_file(alloc: Global, name: &str) -> Result<String, AllocError>
    ensures { IfOk result (λ s. string_bytes s ≡ Files.media_file name.now) }
{
    joined(alloc, "", name, ".m3u8")
}

/// The file of its I-frame playlist.
pub(crate) fn frames_file(alloc: Global, name: &str) -> Result<String, AllocError>
    ensures { IfOk result (λ s. string_bytes s ≡ Files.frames_file name.now) }
{
    joined(alloc, "", name, ".iframes.m3u8")
}

/// The file of a segment.
pub(crate) fn segment_file(alloc: Global, name: &str, n: u64) -> Result<String, AllocError>
    ensures { IfOk result (λ s. string_bytes s ≡ segment_file_name name.now n) }
{
    let mut out = String::new(alloc);
    push_segment_file_name(&mut out, name, n)?;
    Ok(out)
}

/// The name of a file until it is whole.
pub(crate) fn part_of(alloc: Global, file: &str) -> Result<String, AllocError>
    ensures { IfOk result (λ s. string_bytes s ≡ Files.part_of file.now) }
{
    joined(alloc, ".", file, ".part")
}

/// A file that is due.
pub(crate) fn staged(alloc: Global, file: String) -> Result<StagedFile, AllocError>
    ensures { IfOk result (λ s. staged_file_names s ≡ names_of (string_bytes file)) }
{
    Ok(StagedFile {
        part: part_of(alloc, file.as_str())?,
        name: file,
    })
}
