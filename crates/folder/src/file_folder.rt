ghost use Rattle.std.specs.Prelude.{◌≡◌, ◌≢◌, ◌⊎◌, ◌++◌, ◌∷◌, [], true, false, List, None, Some, Decides, IfErr, IfOk, IfSome, IsErr, IsOk, OnErr, OnOk};
ghost use Rattle.std.specs.Option.{unwrap_or};
ghost use Rattle.std.specs.Io.KnownBytes.{Appends, Keeps};
ghost use Rattle.std.specs.IoError.{error_kind};
ghost use Rattle.std.specs.Path.{path_buf_bytes, path_join};
ghost use Rattle.std.specs.String.{string_bytes};
ghost use Rattle.std.specs.declared.io.ErrorKind.TheVariants.{NotFound};
ghost use Rattle.folder.specs.FileFolders.{folder_path};
ghost use Rattle.folder.specs.Kills.{IsFailedWrite};
ghost use Rattle.folder.specs.Moves.{Looked, Move, Remove, Rename, Sync, Write};

use crate::ahead::AheadFile;
use crate::ahead_folder::let_go_in;
use crate::answers::{
    Cleared, Filled, Node, Removed, Renamed, Synced, Written, clearing_of, fill, gone, node_of,
    rename_of, sync_of, taken_of, write_of,
};
use crate::fault::FolderFault;
use crate::file_reader::file_at;
use crate::folder::Folder;
use crate::ghost_move::GhostMove;
use crate::notes::{
    note_failed_write, note_remove, note_rename, note_sight, note_sync, note_write,
};
use ghost_list::GhostList;
use std::alloc::{AllocError, Global};
use std::fs::{File, Files, OpenFile};
use std::io::Write;
use std::path::{Path, PathBuf};
use std::{fs, io};

/// A folder of the file system, which has to be there. Another one that is put in its place isn't written to.
///
/// **Trusted**: each method does to the folder what it notes in the ghost list, and nothing else. No contract of the
/// standard library says what files hold, so this is read and tested, and not proved.
#[derive(Drop)]
pub struct FileFolder<R> {
    files: R,
    alloc: Global,
    path: String,
    syncs: bool,
    // of the folder that was first written to: its device and its inode
    node: Option<(u64, u64)>,
    made: GhostList<GhostMove>,
}

impl<R> FileFolder<R> {
    ghost use Rattle.folder.specs.FileFolders.{file_moves, may_sync};

    /// The folder at a path, to which nothing was done yet. It can't be synced: `sync` fails.
    pub fn new(files: R, alloc: Global, path: String) -> FileFolder<R>
        ensures made { file_moves result ≡ [] }
        ensures path { folder_path result ≡ string_bytes path }
        ensures syncs { may_sync result ≡ false }
    {
        FileFolder {
            files,
            alloc,
            path,
            syncs: false,
            node: None,
            made: GhostList::new(),
        }
    }

    /// The same, of which each file is synced as it is written, so that it can be synced as a whole.
    pub fn new_synced(files: R, alloc: Global, path: String) -> FileFolder<R>
        ensures made { file_moves result ≡ [] }
        ensures path { folder_path result ≡ string_bytes path }
        ensures syncs { may_sync result ≡ true }
    {
        FileFolder {
            files,
            alloc,
            path,
            syncs: true,
            node: None,
            made: GhostList::new(),
        }
    }

    /// The folder's path.
    pub(crate) fn path(&self) -> &str
        ensures { result.now ≡ folder_path self.now }
    {
        self.path.as_str()
    }

    /// The files of the system.
    pub(crate) fn files(&self) -> &R {
        &self.files
    }

    /// The path of a file.
    pub(crate) fn path_of(&self, name: &str) -> Result<PathBuf, AllocError>
        ensures { IfOk result (λ path. path_buf_bytes path ≡ path_join (folder_path self.now) name.now) }
    {
        Path::new(self.path.as_str()).join(self.alloc, name)
    }
}

impl<R: Files> FileFolder<R> {
    ghost use Rattle.folder.specs.FileFolders.{file_moves, may_sync};

    /// Whether the folder that was found at the path is the one that was first written to, which it becomes where none was.
    fn is_first(&mut self, node: &Node) -> bool
        requires { node.now.path.items ≡ folder_path self.old }
        ensures same { Decides result (self.new.node ≡ Some node.now.found) }
        ensures kept { self.new ≡ record self.old { node = Some (unwrap_or self.old.node node.now.found) } }
    {
        *self.node.get_or_insert(node.found()) == node.found()
    }

    /// The folder at the path, if it's the one that was first written to. None where it isn't, or can't be looked at.
    fn found(&mut self) -> Option<Node>
        ensures path { IfSome result (λ node. node.path.items ≡ folder_path self.new) }
        ensures first { IfSome result (λ node. self.new.node ≡ Some node.found) }
        ensures rest { self.new ≡ record self.old { node = self.new.node } }
    {
        let node = node_at(&self.files, self.path.as_str())?;
        if !self.is_first(&node) {
            return None;
        }
        Some(node)
    }

    /// Takes a file that stands ready into the folder that was found at the path, if it was synced just where all are. One that can't be
    /// renamed is removed.
    fn take_into(&mut self, _node: &Node, name: &str, path: &str, file: AheadFile) -> bool
        requires of { _node.now.path.items ≡ folder_path self.old }
        requires first { self.old.node ≡ Some _node.now.found }
        requires path { path.now ≡ path_join (folder_path self.old) name.now }
        ensures made { result ≡ true → file_moves self.new ≡ file_moves self.old ++ Write name.now file.bytes ∷ [] }
        ensures kept { result ≡ false → file_moves self.new ≡ file_moves self.old }
        ensures synced { result ≡ true → file.synced ≡ may_sync self.old }
        ensures rest { self.new ≡ record self.old { made = self.new.made } }
    {
        if file.is_synced() != self.syncs {
            return false;
        }
        let Ok(renamed) = rename_at(&self.files, file.path(), path) else {
            let _ = fs::remove_file(&self.files, file.path());
            return false;
        };
        let taken = taken_of(file, renamed);
        let folder = self.path.as_str();
        note_write(&mut self.made, folder, name, self.syncs, taken);
        true
    }

    /// Writes a new file into the folder that was found at the path. Where that fails, what stands ready is let go, so that there is room
    /// for it, and it's tried once more.
    fn write_surely(&self, node: &Node, path: &str, bytes: &[u8]) -> io::Result<Written>
        requires of { node.now.path.items ≡ folder_path self.now }
        requires first { self.now.node ≡ Some node.now.found }
        ensures path { IfOk result (λ written. written.path.items ≡ path.now) }
        ensures bytes { IfOk result (λ written. written.bytes.items ≡ bytes.now) }
        ensures synced { IfOk result (λ written. written.is_synced ≡ self.now.syncs) }
    {
        match self.write_anew(node, path, bytes) {
            Ok(written) => Ok(written),
            Err(error) => {
                if !let_go_in(&self.files, self.alloc, self.path.as_str()) {
                    return Err(error);
                }
                self.write_anew(node, path, bytes)
            }
        }
    }

    /// Writes a new file into the folder that was found at the path, and syncs it if all are. One of its name that was there is
    /// removed before, so that whoever has it open keeps what it was.
    fn write_anew(&self, _node: &Node, path: &str, bytes: &[u8]) -> io::Result<Written>
        requires of { _node.now.path.items ≡ folder_path self.now }
        requires first { self.now.node ≡ Some _node.now.found }
        ensures path { IfOk result (λ written. written.path.items ≡ path.now) }
        ensures bytes { IfOk result (λ written. written.bytes.items ≡ bytes.now) }
        ensures synced { IfOk result (λ written. written.is_synced ≡ self.now.syncs) }
    {
        let cleared = clearing_of(path, fs::remove_file(&self.files, path));
        let mut file = File::create_new(&self.files, path)?;
        fill_new(&mut file, path, cleared, bytes, self.syncs)
    }
}

impl<R: Files> Folder for FileFolder<R> {
    ghost use Rattle.folder.specs.FileFolders.{file_moves, may_sync};

    ghost made = { λ f. file_moves f };

    ghost pruned = { λ f. [] };

    fn write(&mut self, name: &str, bytes: &[u8]) -> Result<(), FolderFault>
        ensures made { OnOk result (file_moves self.new ≡ file_moves self.old ++ Write name.now bytes.now ∷ []) }
        ensures cut_off { OnErr result ((more : List Move) × (file_moves self.new ≡ file_moves self.old ++ more) ×
            IsFailedWrite name.now bytes.now more) }
        ensures syncs { OnOk result (may_sync self.new ≡ may_sync self.old) }
        ensures unsynced { OnErr result ((file_moves self.new ≡ file_moves self.old) ⊎ (may_sync self.new ≡ false)) }
        ensures stays { OnErr result (may_sync self.old ≡ false → may_sync self.new ≡ false) }
        ensures path { folder_path self.new ≡ folder_path self.old }
    {
        let path = self.path_of(name)?;
        let Some(node) = self.found() else {
            return Err(FolderFault);
        };
        match self.write_surely(&node, path.as_str(), bytes) {
            Ok(written) => {
                let folder = self.path.as_str();
                note_write(&mut self.made, folder, name, self.syncs, written);
                Ok(())
            }
            Err(_) => {
                let cleared = clearing_of(
                    path.as_str(),
                    fs::remove_file(&self.files, path.as_str()),
                );
                note_failed_write(&mut self.made, self.path.as_str(), name, bytes, cleared);
                // what it left of the file isn't synced
                self.syncs = false;
                Err(FolderFault)
            }
        }
    }

    fn take(&mut self, name: &str, file: AheadFile) -> bool
        ensures made { result ≡ true → file_moves self.new ≡ file_moves self.old ++ Write name.now file.bytes ∷ [] }
        ensures kept { result ≡ false → file_moves self.new ≡ file_moves self.old }
        ensures synced { result ≡ true → file.synced ≡ may_sync self.old }
        ensures syncs { may_sync self.new ≡ may_sync self.old }
        ensures path { folder_path self.new ≡ folder_path self.old }
    {
        let Ok(path) = self.path_of(name) else {
            return false;
        };
        let Some(node) = self.found() else {
            return false;
        };
        self.take_into(&node, name, path.as_str(), file)
    }

    fn rename(&mut self, old: &str, new: &str) -> Result<(), FolderFault>
        ensures made { OnOk result (file_moves self.new ≡ file_moves self.old ++ Rename old.now new.now ∷ []) }
        ensures kept { OnErr result (file_moves self.new ≡ file_moves self.old) }
        ensures syncs { may_sync self.new ≡ may_sync self.old }
        ensures path { folder_path self.new ≡ folder_path self.old }
    {
        let from = self.path_of(old)?;
        let to = self.path_of(new)?;
        let renamed = rename_at(&self.files, from.as_str(), to.as_str())?;
        note_rename(&mut self.made, self.path.as_str(), old, new, renamed);
        Ok(())
    }

    fn remove(&mut self, name: &str) -> Result<(), FolderFault>
        ensures made { OnOk result (file_moves self.new ≡ file_moves self.old ++ Remove name.now ∷ []) }
        ensures kept { OnErr result (file_moves self.new ≡ file_moves self.old) }
        ensures syncs { may_sync self.new ≡ may_sync self.old }
        ensures path { folder_path self.new ≡ folder_path self.old }
    {
        let path = self.path_of(name)?;
        let removed = remove_at(&self.files, path.as_str())?;
        note_remove(&mut self.made, self.path.as_str(), name, removed);
        Ok(())
    }

    fn has(&mut self, name: &str) -> Result<bool, FolderFault>
        ensures made { IfOk result (λ there. file_moves self.new ≡ file_moves self.old ++ Looked name.now there ∷ []) }
        ensures kept { OnErr result (file_moves self.new ≡ file_moves self.old) }
        ensures syncs { may_sync self.new ≡ may_sync self.old }
        ensures path { folder_path self.new ≡ folder_path self.old }
    {
        let path = self.path_of(name)?;
        let sight = file_at(&self.files, path.as_str())?;
        let folder = self.path.as_str();
        Ok(note_sight(&mut self.made, folder, name, &sight))
    }

    fn sync(&mut self) -> Result<(), FolderFault>
        ensures made { OnOk result (file_moves self.new ≡ file_moves self.old ++ Sync ∷ []) }
        ensures kept { OnErr result (file_moves self.new ≡ file_moves self.old) }
        ensures unsynced { may_sync self.old ≡ false → IsErr result }
        ensures syncs { may_sync self.new ≡ may_sync self.old }
        ensures path { folder_path self.new ≡ folder_path self.old }
    {
        if !self.syncs {
            return Err(FolderFault);
        }
        let Ok(synced) = sync_path(&self.files, self.path.as_str()) else {
            return Err(FolderFault);
        };
        note_sync(&mut self.made, self.path.as_str(), synced);
        Ok(())
    }
}

/// Writes bytes into a new file, and syncs it if it's to be.
fn fill_new<F: OpenFile + Write>(
    file: &mut F,
    path: &str,
    cleared: Cleared,
    bytes: &[u8],
    syncs: bool,
) -> io::Result<Written>
    requires { cleared.path.items ≡ path.now }
    ensures whole { OnOk result (Appends (F.contents file.old) (F.contents file.new) bytes.now) }
    ensures path { IfOk result (λ written. written.path.items ≡ path.now) }
    ensures bytes { IfOk result (λ written. written.bytes.items ≡ bytes.now) }
    ensures synced { IfOk result (λ written. written.is_synced ≡ syncs) }
{
    let filled = fill(file, bytes)?;
    finish(file, path, cleared, filled, syncs)
}

/// The new file at a path, which was cleared and filled, is whole: it's synced if it's to be.
pub(crate) fn finish<F: OpenFile + Write>(
    file: &mut F,
    path: &str,
    cleared: Cleared,
    filled: Filled,
    syncs: bool,
) -> io::Result<Written>
    requires { cleared.path.items ≡ path.now }
    ensures stays { Keeps (F.contents file.old) (F.contents file.new) }
    ensures path { IfOk result (λ written. written.path.items ≡ path.now) }
    ensures bytes { IfOk result (λ written. written.bytes.items ≡ filled.bytes.items) }
    ensures synced { IfOk result (λ written. written.is_synced ≡ syncs) }
{
    file.flush()?;
    if !syncs {
        return Ok(write_of(path, cleared, filled, None));
    }
    let synced = sync_of(path, file.sync_all())?;
    Ok(write_of(path, cleared, filled, Some(synced)))
}

/// Removes the file at a path, if there is one.
fn remove_at<R: Files>(files: &R, path: &str) -> Result<Removed, FolderFault>
    ensures { IfOk result (λ removed. removed.path.items ≡ path.now) }
{
    gone(path, fs::remove_file(files, path))
}

/// Gives the file at a path another one.
fn rename_at<R: Files>(files: &R, from: &str, to: &str) -> Result<Renamed, FolderFault>
    ensures from { IfOk result (λ renamed. renamed.from.items ≡ from.now) }
    ensures to { IfOk result (λ renamed. renamed.to.items ≡ to.now) }
{
    rename_of(from, to, fs::rename(files, from, to))
}

/// The folder that is found at a path; none where there is none, or it can't be looked at.
pub(crate) fn node_at<R: Files>(files: &R, path: &str) -> Option<Node>
    ensures { IfSome result (λ node. node.path.items ≡ path.now) }
{
    node_of(path, fs::metadata(files, path))
}

/// Syncs a folder: which files it has, and under which names.
fn sync_path<R: Files>(files: &R, path: &str) -> io::Result<Synced>
    ensures { IfOk result (λ synced. synced.path.items ≡ path.now) }
{
    sync_of(path, File::open(files, path)?.sync_all())
}
