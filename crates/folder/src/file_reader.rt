//! The files of a folder of the file system are read.
ghost use Rattle.std.specs.Prelude.{◌≡◌, ◌≢◌, ⊤, Err, IfErr, IfOk, IfSome, IsErr, None, Ok, Some};
ghost use Rattle.std.specs.Fs.{IsFile, dir_entry_name, file_type};
ghost use Rattle.std.specs.IoError.{error_kind};
ghost use Rattle.std.specs.String.{string_bytes};
ghost use Rattle.std.specs.declared.io.ErrorKind.TheVariants.{InvalidFilename, NotFound, OutOfMemory};
ghost use Rattle.folder.specs.declared.read_fault.FolderReadFault.TheVariants.{NoMemory, Unread};

use crate::answers::{Sight, sight_of};
use crate::file_folder::FileFolder;
use crate::read_fault::FolderReadFault;
use crate::reader::FolderReader;
use crate::refusal::{Refusal, told, unless};
use std::alloc::{AllocGlobal, Global};
use std::fs::{DirEntry, Files};
use std::{fs, io};

/// What files of the system hold is the system's, so nothing is claimed of it.
impl<R: Files + AllocGlobal + Clone + Drop> FolderReader for FileFolder<R> {
    ghost lists = { λ _ _. ⊤ };

    ghost gives = { λ _ _ _. ⊤ };

    ghost lacks = { λ _ _. ⊤ };

    ghost refuses = { λ _. ⊤ };

    ghost wants = { λ _. ⊤ };

    fn names(&self, alloc: Global) -> Result<Vec<String>, FolderReadFault> {
        let entries = told(fs::read_dir(self.files(), self.path()))?;
        let mut names = Vec::new(alloc);
        for entry in entries {
            if let Some(name) = name_of(self.files(), alloc, entry)? {
                names.push(name)?;
            }
        }
        Ok(names)
    }

    fn size(&self, name: &str) -> Result<Option<u64>, FolderReadFault> {
        let path = self.path_of(name)?;
        match file_at(self.files(), path.as_str())?.into_found() {
            Some(metadata) => Ok(Some(metadata.len())),
            None => Ok(None),
        }
    }

    fn read(&self, _alloc: Global, name: &str) -> Result<Option<Vec<u8>>, FolderReadFault> {
        let path = self.path_of(name)?;
        if !file_at(self.files(), path.as_str())?.is_there() {
            return Ok(None);
        }
        let bytes = fs::read(self.files(), path.as_str());
        Ok(unless(io::ErrorKind::NotFound, bytes)?)
    }
}

/// The name of an entry of a folder, where it is one of a file and UTF-8.
fn name_of<R: Files + Drop>(
    files: &R,
    alloc: Global,
    entry: io::Result<DirEntry<R>>,
) -> Result<Option<String>, FolderReadFault>
    ensures name { IfOk entry (λ e. IfOk result (λ found. IfSome found (λ name. string_bytes name ≡ dir_entry_name e))) }
    ensures passed { IfErr entry (λ error. error_kind error ≡ InvalidFilename → result ≡ Ok None) }
    ensures no_memory { IfErr entry (λ error. error_kind error ≢ InvalidFilename → error_kind error ≡ OutOfMemory → result ≡ Err NoMemory) }
    ensures unread { IfErr entry (λ error. error_kind error ≢ InvalidFilename → error_kind error ≢ OutOfMemory → result ≡ Err Unread) }
{
    let Some(entry) = unless(io::ErrorKind::InvalidFilename, entry)? else {
        return Ok(None);
    };
    if !file_at(files, entry.path().as_str())?.is_there() {
        return Ok(None);
    }
    Ok(Some(String::from_str(alloc, entry.file_name())?))
}

/// What is seen at a path: a file, or none where there is none, but perhaps a folder.
pub(crate) fn file_at<R: Files>(files: &R, path: &str) -> Result<Sight, Refusal>
    ensures { IfOk result (λ sight. sight.path.items ≡ path.now) }
{
    sight_of(path, fs::metadata(files, path))
}
