//! A hidden folder of a folder, in which segments stand before they are renamed into it.
ghost use Rattle.std.specs.Prelude.{◌≡◌, ◌++◌, [], IfOk, IfSome, codes};
ghost use Rattle.std.specs.Fmt.{decimal};
ghost use Rattle.std.specs.Path.{path_buf_bytes, path_join};
ghost use Rattle.std.specs.String.{string_bytes};
ghost use Rattle.folder.specs.Aheads.{hidden_path};

use crate::ahead::WriteAhead;
use crate::ahead_writer::AheadWriter;
use crate::answers::{Cleared, Emptied, Node, clear_in, clearing_of, emptied_of};
use crate::file_folder::node_at;
use itoa::Buffer;
use std::alloc::{AllocError, Global};
use std::fs::{File, Files};
use std::path::{Path, PathBuf};
use std::{fs, io};

/// The name of the hidden folder.
const HIDDEN: &str = ".tshls-ahead";

/// The hidden folder of a folder, made anew: what an earlier run left in it is gone. No file is made in another one that is put in its
/// place, and none where one stands: so one that stands ready keeps what went into it until it's taken.
///
/// **Trusted**, as [`FileFolder`](crate::FileFolder) is: a file that it makes is a new one, in which nothing stands. Files that were made
/// are taken and removed by their paths, without another look at the folder: that nobody puts another one there meanwhile is trusted too.
#[derive(Drop)]
pub struct AheadFolder<R> {
    files: R,
    alloc: Global,
    path: PathBuf,
    syncs: bool,
    made: Emptied,
    pub ghost own: { made.path.items ≡ path_buf_bytes path },
}

impl<R: Files + Drop> AheadFolder<R> {
    ghost use Rattle.folder.specs.AheadFolders.{ahead_path, ahead_syncs};

    /// Makes the hidden folder of the folder at a path, in which each file is synced once it is whole if they are to be. None where it
    /// can't be made, or there is no memory for its path.
    pub fn open(files: R, alloc: Global, folder: &str, syncs: bool) -> Option<AheadFolder<R>>
        ensures path { IfSome result (λ it. ahead_path it ≡ hidden_path folder.now) }
        ensures syncs { IfSome result (λ it. ahead_syncs it ≡ syncs) }
    {
        let path = hidden_in(alloc, folder).ok()?;
        let made = make_at(&files, alloc, path.as_str())?;
        Some(AheadFolder {
            files,
            alloc,
            path,
            syncs,
            made,
        })
    }

    /// Removes the folder with all that still stands in it, if it's there.
    pub fn close(self) {
        if self.is_there().is_some() {
            clear(&self.files, self.alloc, self.path.as_str());
        }
    }

    /// The folder that was made, if it's still the one at its path.
    fn is_there(&self) -> Option<Node>
        ensures path { IfSome result (λ node. node.path.items ≡ ahead_path self.now) }
        ensures own { IfSome result (λ node. node.found ≡ self.now.made.found) }
    {
        let node = node_at(&self.files, self.path.as_str())?;
        if node.found() != self.made.found() {
            return None;
        }
        Some(node)
    }

    /// The name of a segment's file: the rendition and the number, with a point between them.
    fn name_of(&self, rendition: usize, number: u64) -> Result<String, AllocError>
        ensures { IfOk result (λ name. string_bytes name ≡ decimal rendition ++ codes "." ++ decimal number) }
    {
        let mut name = String::from_str(self.alloc, Buffer::new().format(rendition))?;
        name.push('.')?;
        name.push_str(Buffer::new().format(number))?;
        Ok(name)
    }

    /// Makes a new file in the folder that was found at the path. A file that stands there stays, and there is no new one.
    fn create(&self, _node: Node, path: &str) -> io::Result<R::File>
        requires of { _node.path.items ≡ ahead_path self.now }
        requires own { _node.found ≡ self.now.made.found }
    {
        File::create_new(&self.files, path)
    }
}

impl<R: Files + Copy + Send + Drop> WriteAhead for AheadFolder<R>
where
    R::File: Send,
{
    ghost use Rattle.folder.specs.AheadFolders.{ahead_path, ahead_syncs, writer_path, writer_syncs};

    type File = AheadWriter<R, R::File>;

    fn begin(&self, rendition: usize, number: u64) -> Option<AheadWriter<R, R::File>>
        ensures empty { IfSome result (λ file. file.filled.bytes.items ≡ []) }
        ensures path { IfSome result (λ file. writer_path file ≡
            path_join (ahead_path self.now) (decimal rendition ++ codes "." ++ decimal number)) }
        ensures syncs { IfSome result (λ file. writer_syncs file ≡ ahead_syncs self.now) }
    {
        let node = self.is_there()?;
        let name = self.name_of(rendition, number).ok()?;
        let path = self.path.join(self.alloc, name.as_str()).ok()?;
        let cleared = clear_in(&self.made, name.as_str(), path.as_str());
        let file = self.create(node, path.as_str()).ok()?;
        Some(AheadWriter::new(self.files, path, file, cleared, self.syncs))
    }
}

/// Removes the hidden folder of the folder at a path with what stands in it, so that there is room for more. Whether it was there.
pub(crate) fn let_go_in<R: Files>(files: &R, alloc: Global, folder: &str) -> bool {
    let Ok(path) = hidden_in(alloc, folder) else {
        return false;
    };
    let was_there = node_at(files, path.as_str()).is_some();
    let _ = files.remove_dir_all(alloc, path.as_str());
    was_there
}

/// Makes a folder at a path, behind what it cleared there. None where the system can't.
fn make_at<R: Files>(files: &R, alloc: Global, path: &str) -> Option<Emptied>
    ensures { IfSome result (λ emptied. emptied.path.items ≡ path.now) }
{
    let cleared = clear(files, alloc, path);
    let made = fs::create_dir(files, path);
    emptied_of(path, cleared, made, fs::metadata(files, path))
}

/// Removes what is at a path: a folder with all that it holds. A link is removed, and not what it leads to.
fn clear<R: Files>(files: &R, alloc: Global, path: &str) -> Cleared
    ensures { result.path.items ≡ path.now }
{
    clearing_of(path, files.remove_dir_all(alloc, path))
}

/// The path of a folder's hidden folder.
fn hidden_in(alloc: Global, folder: &str) -> Result<PathBuf, AllocError>
    ensures { IfOk result (λ path. path_buf_bytes path ≡ hidden_path folder.now) }
{
    Path::new(folder).join(alloc, HIDDEN)
}
