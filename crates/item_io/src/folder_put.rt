//! One item is put into a folder as a file.
ghost use Rattle.std.specs.Prelude.{◌≡◌, ◌⊎◌, ◌∷◌, ◌++◌, [], true, false, IfOk, OnOk, OnErr, codes};
ghost use Rattle.std.specs.String.{string_bytes};
ghost use Rattle.playlist_text.specs.Names.{is_name};
ghost use Rattle.folder.specs.Puts.{put_names, writing};
ghost use Rattle.folder.specs.StagedFiles.{staged_file_names, staged_names};
ghost use Rattle.item_io.specs.Items.{item_value};
ghost use Rattle.item_io.specs.FileNames.{is_named};
ghost use Rattle.item_io.specs.FolderMoves.{IsBegun, IsBegunPut, ends_block, moves_with, put_of, renaming, renaming_block, renaming_each};
ghost use Rattle.item_io.specs.FolderMoves.{segment_put, staged_behind, syncing};

use crate::fault::OutletFault;
use crate::file_name::{file_name, is_named, item_bytes, part_name, segment_file_name};
use crate::item::Item;
use folder::{AheadFile, Folder, StagedFile};
use playlist_text::is_name;
use std::alloc::{AllocError, Global};

/// Writes an item's file under its part name and, where it is the last of its block, places the block. Where the folder is
/// synced, it is before the block is placed, and behind each file of it.
pub(crate) fn put_file<F: Folder>(
    folder: &mut F,
    alloc: Global,
    syncs: bool,
    staged: &mut Vec<StagedFile>,
    item: &Item,
) -> Result<(), OutletFault>
    ensures made { OnOk result (F.made folder.new ≡
        moves_with syncs (F.made folder.old) (staged_names staged.old.items) (put_of (item_value item.now))) }
    ensures staged { OnOk result (staged_names staged.new.items ≡ staged_behind (staged_names staged.old.items) (put_of (item_value item.now))) }
    ensures stopped { OnErr result (IsBegunPut syncs (F.made folder.old) (F.made folder.new)
        (staged_names staged.old.items) (put_of (item_value item.now))) }
    ensures named { OnOk result (is_named (item_value item.now) ≡ true) }
    ensures unnamed { is_named (item_value item.now) ≡ false → folder.new ≡ folder.old }
    ensures failed { OnErr result ((folder.new ≡ folder.old) ⊎ ((found : F) × F.fails found folder.new)) }
    ensures pruned { F.pruned folder.new ≡ F.pruned folder.old }
{
    if !is_named(item) {
        return Err(OutletFault);
    }
    let file = item_names(alloc, item)?;
    staged.reserve(1)?;
    folder
        .write(file.part.as_str(), item_bytes(item))
        .map_err(|_| OutletFault)?;
    staged.push_reserved(file);
    if ends_block(item) {
        if place_block(folder, staged, syncs).is_err() {
            return Err(OutletFault);
        }
        staged.clear();
    }
    Ok(())
}

/// Takes a file that stands ready as that of a segment, under its part name: a segment never is the last of its block. False where
/// that wasn't done.
pub(crate) fn take_file<F: Folder>(
    folder: &mut F,
    alloc: Global,
    staged: &mut Vec<StagedFile>,
    name: &str,
    number: u64,
    file: AheadFile,
) -> bool
    ensures made { result ≡ true → F.made folder.new ≡ F.made folder.old ++ writing (segment_put number name.now file.bytes) ∷ [] }
    ensures staged { result ≡ true → staged_names staged.new.items
        ≡ staged_names staged.old.items ++ put_names (segment_put number name.now file.bytes) ∷ [] }
    ensures named { result ≡ true → is_name name.now ≡ true }
    ensures kept { result ≡ false → F.made folder.new ≡ F.made folder.old }
    ensures unstaged { result ≡ false → staged_names staged.new.items ≡ staged_names staged.old.items }
    ensures pruned { F.pruned folder.new ≡ F.pruned folder.old }
{
    if !is_name(name) {
        return false;
    }
    let Ok(names) = segment_names(alloc, name, number) else {
        return false;
    };
    if staged.reserve(1).is_err() {
        return false;
    }
    if !folder.take(names.part.as_str(), file) {
        return false;
    }
    staged.push_reserved(names);
    true
}

/// The names of an item's file.
fn item_names(alloc: Global, item: &Item) -> Result<StagedFile, AllocError>
    ensures { IfOk result (λ file. staged_names (file ∷ []) ≡ put_names (put_of (item_value item.now)) ∷ []) }
{
    names(alloc, file_name(alloc, item)?)
}

/// The names of a segment's file.
fn segment_names(alloc: Global, name: &str, number: u64) -> Result<StagedFile, AllocError>
    ensures { IfOk result (λ file. staged_names (file ∷ []) ≡ put_names (segment_put number name.now []) ∷ []) }
{
    names(alloc, segment_file_name(alloc, name, number)?)
}

/// The names of a file: this one, and its part name.
fn names(alloc: Global, name: String) -> Result<StagedFile, AllocError>
    ensures { IfOk result (λ file. staged_names (file ∷ []) ≡ (codes "." ++ string_bytes name ++ codes ".part", string_bytes name) ∷ []) }
{
    let part = part_name(alloc, name.as_str())?;
    Ok(StagedFile { part, name })
}

/// Whether an item is the last of its block.
fn ends_block(item: &Item) -> bool
    ensures { result ≡ ends_block (item_value item.now) }
{
    match item {
        Item::Segment { .. } | Item::Media { .. } => false,
        Item::Frames { .. } | Item::Master { .. } => true,
    }
}

/// Places a block: where the folder is synced, so that the block is on the disk before any of it is seen.
fn place_block<F: Folder>(
    folder: &mut F,
    staged: &[StagedFile],
    syncs: bool,
) -> Result<(), OutletFault>
    ensures ok { OnOk result (F.made folder.new ≡ F.made folder.old ++ renaming_block syncs (staged_names staged.now)) }
    ensures err { OnErr result (IsBegun (F.made folder.old) (F.made folder.new) (renaming_block syncs (staged_names staged.now))) }
    ensures failed { OnErr result ((found : F) × F.fails found folder.new) }
    ensures pruned { F.pruned folder.new ≡ F.pruned folder.old }
{
    if sync_if(folder, syncs).is_err() {
        return Err(OutletFault);
    }
    if place_each(folder, staged, syncs).is_err() {
        return Err(OutletFault);
    }
    Ok(())
}

/// Renames files from their part names to their names, in order.
fn place_each<F: Folder>(
    folder: &mut F,
    staged: &[StagedFile],
    syncs: bool,
) -> Result<(), OutletFault>
    ensures ok { OnOk result (F.made folder.new ≡ F.made folder.old ++ renaming_each syncs (staged_names staged.now)) }
    ensures err { OnErr result (IsBegun (F.made folder.old) (F.made folder.new) (renaming_each syncs (staged_names staged.now))) }
    ensures failed { OnErr result ((found : F) × F.fails found folder.new) }
    ensures pruned { F.pruned folder.new ≡ F.pruned folder.old }
{
    for file in staged {
        if place(folder, file, syncs).is_err() {
            return Err(OutletFault);
        }
    }
    Ok(())
}

/// Renames a file from its part name to its name.
fn place<F: Folder>(folder: &mut F, file: &StagedFile, syncs: bool) -> Result<(), OutletFault>
    ensures ok { OnOk result (F.made folder.new ≡ F.made folder.old ++ renaming (staged_file_names file.now) ∷ syncing syncs) }
    ensures err { OnErr result (IsBegun (F.made folder.old) (F.made folder.new) (renaming (staged_file_names file.now) ∷ syncing syncs)) }
    ensures failed { OnErr result ((found : F) × F.fails found folder.new) }
    ensures pruned { F.pruned folder.new ≡ F.pruned folder.old }
{
    if folder
        .rename(file.part.as_str(), file.name.as_str())
        .is_err()
    {
        return Err(OutletFault);
    }
    sync_if(folder, syncs)
}

/// Syncs the folder, where it should be.
fn sync_if<F: Folder>(folder: &mut F, syncs: bool) -> Result<(), OutletFault>
    ensures ok { OnOk result (F.made folder.new ≡ F.made folder.old ++ syncing syncs) }
    ensures err { OnErr result (F.made folder.new ≡ F.made folder.old) }
    ensures should { OnErr result (syncs ≡ true) }
    ensures failed { OnErr result (F.fails folder.old folder.new) }
    ensures pruned { F.pruned folder.new ≡ F.pruned folder.old }
{
    if !syncs {
        return Ok(());
    }
    if folder.sync().is_err() {
        return Err(OutletFault);
    }
    Ok(())
}
