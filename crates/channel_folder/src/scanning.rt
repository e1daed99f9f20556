//! A folder is looked at once.
ghost use Rattle.std.specs.Prelude.{length, ◌<◌, ◌⊎◌, Any, OnErr, true, ◌≡◌, ◌^◌, ◌++◌, Bool, IfOk, IsErrOf, codes, map, filter, filter_map, ◌||◌};
ghost use Rattle.std.specs.List.{list_any};
ghost use Rattle.std.specs.Str.{bytes_eq};
ghost use Rattle.std.specs.Fmt.{decimal};
ghost use Rattle.std.specs.String.{string_bytes};
ghost use Rattle.folder.specs.declared.read_fault.FolderReadFault as TheFault;
ghost use Rattle.media_reading.specs.State.{number_in};
ghost use Rattle.playlist_text.specs.Uris.{master_uri};
ghost use Rattle.channel_folder.specs.Files.{part_of, unfinished_names};
ghost use Rattle.channel_folder.specs.Scans.{IsScan, MayHoldUnfinished, numbers_in, is_unfinished};
ghost use Rattle.channel_folder.specs.Scans;

use crate::file_names::{UNFINISHED_MASTER, UnfinishedNames, segment_front, unfinished_names};
use crate::numbers::number_between;
use crate::scanned::Scan;
use folder::{FolderReadFault, FolderReader};
use std::alloc::{AllocError, Global};

/// The files of the renditions of these names, as they are in a folder.
pub fn scan_files<F: FolderReader>(
    alloc: Global,
    folder: &F,
    names: &[&str],
) -> Result<Scan, FolderReadFault>
    ensures ok { IfOk result (IsScan (F.lists folder.now) (map (λ n. n.now) names.now)) }
    ensures unread { IsErrOf result FolderReadFault.Unread → F.refuses folder.now }

    // Memory is wanted for the folder's files, for a rendition, or for an unfinished file.
    ensures scarce { IsErrOf result FolderReadFault.NoMemory →
        F.wants folder.now ⊎ (0 < length names.now) ⊎ MayHoldUnfinished (F.lists folder.now) (map (λ n. n.now) names.now) }
{
    let files = folder.names(alloc)?;
    Ok(Scan {
        numbers: numbers_of_each(alloc, &files, names)?,
        unfinished: unfinished_of(alloc, &files, names)?,
    })
}

/// The numbers of the segments of each rendition.
fn numbers_of_each(
    alloc: Global,
    files: &[String],
    names: &[&str],
) -> Result<Vec<Vec<u64>>, AllocError>
    ensures ok { IfOk result (λ v. map (λ n. n.items) v.items ≡ map (numbers_in (map string_bytes files.now)) (map (λ n. n.now) names.now)) }
    ensures scarce { OnErr result (0 < length names.now) }
{
    let mut each = Vec::new(alloc);
    for name in names {
        each.push(numbers_of(alloc, files, *name)?)?;
    }
    Ok(each)
}

/// The numbers of a rendition's segments, in the order of the files.
fn numbers_of(alloc: Global, files: &[String], name: &str) -> Result<Vec<u64>, AllocError>
    ensures { IfOk result (λ v. v.items ≡ numbers_in (map string_bytes files.now) name.now) }
{
    let front = segment_front(alloc, name)?;
    let mut numbers = Vec::new(alloc);
    for file in files {
        let Some(n) = number_between(file.as_bytes(), front.as_bytes(), b".ts") else {
            continue;
        };
        numbers.push(n)?;
    }
    Ok(numbers)
}

/// The names of unfinished files.
fn unfinished_of(alloc: Global, files: &[String], names: &[&str]) -> Result<Vec<String>, AllocError>
    ensures ok { IfOk result (λ v. map string_bytes v.items ≡ filter (is_unfinished (map (λ n. n.now) names.now)) (map string_bytes files.now)) }
    ensures scarce { OnErr result ((0 < length names.now)
        ⊎ Any (λ file. is_unfinished (map (λ n. n.now) names.now) file ≡ true) (map string_bytes files.now)) }
{
    let parts = parts_of_each(alloc, names)?;
    let mut unfinished = Vec::new(alloc);
    for file in files {
        if is_unfinished(&parts, file.as_bytes()) {
            unfinished.push(String::from_str(alloc, file.as_str())?)?;
        }
    }
    Ok(unfinished)
}

/// What the names of each rendition's unfinished files are made of.
fn parts_of_each(alloc: Global, names: &[&str]) -> Result<Vec<UnfinishedNames>, AllocError>
    ensures ok { IfOk result (λ v. v.items ≡ map unfinished_names (map (λ n. n.now) names.now)) }
    ensures scarce { OnErr result (0 < length names.now) }
{
    let mut each = Vec::new(alloc);
    for name in names {
        each.push(unfinished_names(alloc, *name)?)?;
    }
    Ok(each)
}

/// Whether a file is an unfinished one of a ladder.
fn is_unfinished(parts: &[UnfinishedNames], file: &[u8]) -> bool
    ensures { result ≡ (bytes_eq file.now (part_of master_uri) || list_any (Scans.is_unfinished_by file.now) parts.now) }
{
    if file == UNFINISHED_MASTER.as_bytes() {
        return true;
    }
    for one in parts {
        if is_unfinished_by(one, file) {
            return true;
        }
    }
    false
}

/// Whether it is one of a rendition.
fn is_unfinished_by(one: &UnfinishedNames, file: &[u8]) -> bool
    ensures { result ≡ Scans.is_unfinished_by file.now one.now }
{
    one.media.as_bytes() == file
        || one.frames.as_bytes() == file
        || number_between(file, one.segment.as_bytes(), b".ts.part").is_some()
}
