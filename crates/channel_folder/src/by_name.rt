//! The files of a folder are read by their names.
ghost use Rattle.std.specs.Prelude.{ℕ, List, IfOk, IsErrOf, MatchOption};
ghost use Rattle.folder.specs.Reads.{MayHaveSize};

use folder::{FolderReadFault, FolderReader};
use std::alloc::Global;

/// A folder of which it is told which of its files can't be read.
pub trait FilesByName: FolderReader {
    /// Reading the file of a name may fail.
    ghost shuts: { Self → List ℕ → Type 0 };

    /// How many bytes the file of a name has, if there is one.
    fn size_of_file(&self, name: &str) -> Result<Option<u64>, FolderReadFault>
        ensures ok { IfOk result (λ found. MatchOption found (Self.lacks self.now name.now) (MayHaveSize (Self.gives self.now) name.now)) }
        ensures unread { IsErrOf result FolderReadFault.Unread → Self.refuses self.now × shuts self.now name.now }
        ensures no_memory { IsErrOf result FolderReadFault.NoMemory → Self.wants self.now };

    /// The bytes of the file of a name, if there is one.
    fn read_file(&self, alloc: Global, name: &str) -> Result<Option<Vec<u8>>, FolderReadFault>
        ensures ok { IfOk result (λ found. MatchOption found (Self.lacks self.now name.now) (λ bytes. Self.gives self.now name.now bytes.items)) }
        ensures unread { IsErrOf result FolderReadFault.Unread → Self.refuses self.now × shuts self.now name.now }
        ensures no_memory { IsErrOf result FolderReadFault.NoMemory → Self.wants self.now };
}

/// A folder that may fail to be read may fail so at each of its files.
impl<F: FolderReader> FilesByName for F {
    ghost shuts = { λ folder _. F.refuses folder };

    fn size_of_file(&self, name: &str) -> Result<Option<u64>, FolderReadFault> {
        self.size(name)
    }

    fn read_file(&self, alloc: Global, name: &str) -> Result<Option<Vec<u8>>, FolderReadFault> {
        self.read(alloc, name)
    }
}
