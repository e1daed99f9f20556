//! The block that a kill cut off.
ghost use Rattle.std.specs.Prelude.{◌≡◌, IfErr, IfOk, IsErrOf, IsOk, None, Option, true, false, List, ℕ, codes, ◌++◌, ◌&&◌, not};
ghost use Rattle.std.specs.Option.{option_map};
ghost use Rattle.std.specs.String.{string_bytes};
ghost use Rattle.playlist_text.specs.Uris.{escaped};
ghost use Rattle.folder.specs.StagedFiles.{staged_names};
ghost use Rattle.folder.specs.declared.read_fault.FolderReadFault as TheFault;
ghost use Rattle.channel_folder.specs.CutOff.{IsCutOff, behind, IsInPlace, due_files};
ghost use Rattle.channel_folder.specs.CutOff;
ghost use Rattle.channel_folder.specs.ReadTexts.{IsToldBy};

use crate::by_name::FilesByName;
use crate::file_names::{frames_file, media_file, segment_file, staged};
use crate::kept::Kept;
use crate::last_lines::{LastLines, NOTHING, last_lines};
use crate::texts::{Texts, read_texts};
use folder::{FolderReadFault, StagedFile};
use limits::LAST_SEGMENT;
use playlist_text::push_escaped;
use std::alloc::{AllocError, Global};

/// The files of the block that a kill cut off, in the order in which they are placed: its media and I-frame playlists, which
/// are still to be renamed where they stand under their part names (`folder::roll_forward` looks). None where no block was
/// cut off.
///
/// It is the block of the segment behind those that the I-frame playlist in place lists, where that segment is in place; and
/// that of the end, where the media playlist has ended and the I-frame playlist hasn't.
pub fn cut_off<F: FilesByName>(
    alloc: Global,
    folder: &F,
    name: &str,
) -> Result<Option<Vec<StagedFile>>, FolderReadFault>
    ensures ok { IfOk result (λ found. IsCutOff (F.gives folder.now) (F.lacks folder.now) name.now (option_map (λ b. staged_names b.items) found)) }
    ensures unread { IsErrOf result FolderReadFault.Unread → F.refuses folder.now }
{
    let texts = read_texts(alloc, folder, name)?;
    let front = uri_front(alloc, name)?;
    let media = told_by(front.as_bytes(), &texts.media);
    let frames = told_by(front.as_bytes(), &texts.frames);
    let next = next_segment(&texts.frames, frames);
    let there = is_in_place(alloc, folder, name, next)?;
    Ok(due_files(alloc, name, there, media.ended && !frames.ended)?)
}

/// What the lines of a playlist tell, where there is one.
fn told_by(front: &[u8], text: &Option<Vec<u8>>) -> LastLines
    ensures { (name : List ℕ) → front.now ≡ escaped name ++ codes "." → IsToldBy name (option_map (λ v. v.items) text.now) result }
{
    match text {
        Some(text) => last_lines(front, text),
        None => NOTHING,
    }
}

/// The number of the segment whose block may be cut off.
fn next_segment(frames: &Option<Vec<u8>>, told: LastLines) -> Option<u64>
    ensures { result ≡ CutOff.next_segment (option_map (λ v. v.items) frames.now) told }
{
    match (frames, told.last) {
        (None, _) => Some(0),
        (Some(_), Some(n)) if n <= LAST_SEGMENT => Some(n + 1),
        _ => None,
    }
}

/// Whether the file of a segment is in place.
fn is_in_place<F: FilesByName>(
    alloc: Global,
    folder: &F,
    name: &str,
    next: Option<u64>,
) -> Result<bool, Kept<FolderReadFault>>
    ensures ok { IfOk result (IsInPlace (F.gives folder.now) (F.lacks folder.now) name.now next) }
    ensures unread { IfErr result (λ kept. kept.fault ≡ FolderReadFault.Unread → F.refuses folder.now) }
    ensures none { next ≡ None → IsOk result }
{
    let Some(n) = next else {
        return Ok(false);
    };
    let file = segment_file(alloc, name, n)?;
    is_there(folder, file.as_str())
}

/// Whether there is a file of this name. Only the folder wants memory here.
fn is_there<F: FilesByName>(folder: &F, file: &str) -> Result<bool, Kept<FolderReadFault>>
    ensures there { IfOk result (λ it. it ≡ true → (bytes : List ℕ) × F.gives folder.now file.now bytes) }
    ensures lacking { IfOk result (λ it. it ≡ false → F.lacks folder.now file.now) }
    ensures unread { IfErr result (λ kept. kept.fault ≡ FolderReadFault.Unread → F.refuses folder.now) }
    ensures no_memory { IfErr result (λ kept. kept.fault ≡ FolderReadFault.NoMemory → F.wants folder.now) }
{
    match folder.size(file)? {
        Some(_) => Ok(true),
        None => Ok(false),
    }
}

/// The files that are due.
fn due_files(
    alloc: Global,
    name: &str,
    there: bool,
    apart: bool,
) -> Result<Option<Vec<StagedFile>>, AllocError>
    ensures due { IfOk result (λ found. option_map (λ b. staged_names b.items) found ≡ CutOff.due_files name.now there apart) }
    ensures none { there ≡ false → apart ≡ false → IsOk result }
{
    if !there && !apart {
        return Ok(None);
    }
    let mut due = Vec::new(alloc);
    if there {
        due.push(staged(alloc, media_file(alloc, name)?)?)?;
    }
    due.push(staged(alloc, frames_file(alloc, name)?)?)?;
    Ok(Some(due))
}

/// What the URIs of a rendition's segments begin with.
fn uri_front(alloc: Global, name: &str) -> Result<String, AllocError>
    ensures { IfOk result (λ s. string_bytes s ≡ escaped name.now ++ codes ".") }
{
    let mut out = String::new(alloc);
    push_escaped(&mut out, name)?;
    out.push_str(".")?;
    Ok(out)
}
