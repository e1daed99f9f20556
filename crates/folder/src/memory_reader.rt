//! The files of a folder in memory are read.
ghost use Rattle.std.specs.Prelude.{◌≡◌, ◌<◌, ⊤, [], length, Ok, Some, None, map, IfOk, IsErrOf, IsOk, IsSomeAnd, OnErr, OnOk};
ghost use Rattle.std.specs.Option.{option_map};
ghost use Rattle.std.specs.String.{string_bytes};
ghost use Rattle.folder.specs.MemoryFolders.{moves_in_memory};
ghost use Rattle.folder.specs.MemoryNames.{AreNames, HasFiles, IsNew, has_name, with_name};
ghost use Rattle.folder.specs.MemoryNamed.{named};
ghost use Rattle.folder.specs.Moves.{no_files, standing};

use crate::memory_folder::MemoryFolder;
use crate::memory_move::MemoryMove;
use crate::read_fault::FolderReadFault;
use crate::reader::FolderReader;
use std::alloc::{AllocError, Global};

impl FolderReader for MemoryFolder {
    ghost lists = { λ f. AreNames (standing no_files (moves_in_memory f)) };

    ghost gives = { λ f name bytes. standing no_files (moves_in_memory f) name ≡ Some bytes };

    ghost lacks = { λ f name. standing no_files (moves_in_memory f) name ≡ None };

    ghost refuses = { λ _. ⊥ };

    ghost wants = { λ _. ⊤ };

    fn names(&self, alloc: Global) -> Result<Vec<String>, FolderReadFault>
        ensures ok { IfOk result (λ names. AreNames (standing no_files (moves_in_memory self.now)) (map string_bytes names.items)) }
        ensures unread { IsErrOf result FolderReadFault.Unread → ⊥ }
        ensures empty { moves_in_memory self.now ≡ [] → IsOk result }
        ensures scarce { IsErrOf result FolderReadFault.NoMemory → HasFiles (standing no_files (moves_in_memory self.now)) }
    {
        Ok(names_in(alloc, self)?)
    }

    fn size(&self, name: &str) -> Result<Option<u64>, FolderReadFault>
        ensures is { result ≡ Ok (option_map (λ bytes. length bytes) (standing no_files (moves_in_memory self.now) name.now)) }
    {
        match self.find(name) {
            Some(bytes) => Ok(Some(bytes.len() as u64)),
            None => Ok(None),
        }
    }

    fn read(&self, alloc: Global, name: &str) -> Result<Option<Vec<u8>>, FolderReadFault>
        ensures ok { IfOk result (λ found. option_map (λ bytes. bytes.items) found ≡ standing no_files (moves_in_memory self.now) name.now) }
        ensures unread { IsErrOf result FolderReadFault.Unread → ⊥ }
        ensures absent { standing no_files (moves_in_memory self.now) name.now ≡ None → result ≡ Ok None }
        ensures scarce { IsErrOf result FolderReadFault.NoMemory →
            IsSomeAnd (standing no_files (moves_in_memory self.now) name.now) (λ bytes. 0 < length bytes) }
    {
        let Some(bytes) = self.find(name) else {
            return Ok(None);
        };
        let mut copy = Vec::new(alloc);
        copy.extend_from_slice(bytes)?;
        Ok(Some(copy))
    }
}

/// The names of the files, each once.
fn names_in(alloc: Global, folder: &MemoryFolder) -> Result<Vec<String>, AllocError>
    ensures names { IfOk result (λ names. AreNames (standing no_files (moves_in_memory folder.now)) (map string_bytes names.items)) }
    ensures empty { moves_in_memory folder.now ≡ [] → IsOk result }
    ensures scarce { OnErr result (HasFiles (standing no_files (moves_in_memory folder.now))) }
{
    let moves = folder.moves();
    let mut names = Vec::new(alloc);
    for made in moves {
        add_name(alloc, folder, &mut names, named_by(made))?;
    }
    Ok(names)
}

/// Adds the name of a file, if there is such a file and it isn't among these.
fn add_name(
    alloc: Global,
    folder: &MemoryFolder,
    names: &mut Vec<String>,
    name: Option<&str>,
) -> Result<(), AllocError>
    ensures names { OnOk result (map string_bytes names.new.items ≡
        with_name (standing no_files (moves_in_memory folder.now)) (map string_bytes names.old.items) (option_map (λ n. n.now) name.entry)) }
    ensures scarce { OnErr result (IsNew (standing no_files (moves_in_memory folder.now)) (map string_bytes names.old.items)
        (option_map (λ n. n.now) name.entry)) }
{
    let Some(name) = name else {
        return Ok(());
    };
    if folder.find(name).is_none() || has(names, name) {
        return Ok(());
    }
    names.push(String::from_str(alloc, name)?)?;
    Ok(())
}

/// The name that a file has behind a move that writes or renames it.
fn named_by(made: &MemoryMove) -> Option<&str>
    ensures { option_map (λ n. n.now) result ≡ named made.now }
{
    match made {
        MemoryMove::Written { name, .. } => Some(name.as_str()),
        MemoryMove::Renamed { new, .. } => Some(new.as_str()),
        MemoryMove::Removed { .. } | MemoryMove::Seen { .. } | MemoryMove::Synced => None,
    }
}

/// Whether a name is among these.
fn has(names: &[String], name: &str) -> bool
    ensures { result ≡ has_name (map string_bytes names.now) name.now }
{
    for one in names {
        if one.as_str() == name {
            return true;
        }
    }
    false
}
