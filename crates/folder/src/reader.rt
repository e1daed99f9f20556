ghost use Rattle.std.specs.Prelude.{ℕ, List, map, IfOk, IsErrOf, MatchOption};
ghost use Rattle.std.specs.String.{string_bytes};
ghost use Rattle.folder.specs.Reads.{MayHaveSize};

use crate::read_fault::FolderReadFault;
use std::alloc::Global;

/// A folder that can be read. What a method answers is of the moment when it is called.
///
/// Names are those of files right in it; only files count, and symbolic links to files.
pub trait FolderReader {
    /// These may be the names of its files.
    ghost lists: { Self → List (List ℕ) → Type 0 };

    /// The file of a name may have these bytes. A folder that can't tell what its files hold says so of all bytes.
    ghost gives: { Self → List ℕ → List ℕ → Type 0 };

    /// There may be no file of a name.
    ghost lacks: { Self → List ℕ → Type 0 };

    /// Reading may fail.
    ghost refuses: { Self → Type 0 };

    /// Reading may want memory that isn't there.
    ghost wants: { Self → Type 0 };

    /// The names of its files. Those that aren't UTF-8 are passed over.
    fn names(&self, alloc: Global) -> Result<Vec<String>, FolderReadFault>
        ensures ok { IfOk result (λ names. lists self.now (map string_bytes names.items)) }
        ensures unread { IsErrOf result FolderReadFault.Unread → refuses self.now }
        ensures no_memory { IsErrOf result FolderReadFault.NoMemory → wants self.now };

    /// How many bytes the file of a name has, if there is one.
    fn size(&self, name: &str) -> Result<Option<u64>, FolderReadFault>
        ensures ok { IfOk result (λ found. MatchOption found (lacks self.now name.now) (MayHaveSize (gives self.now) name.now)) }
        ensures unread { IsErrOf result FolderReadFault.Unread → refuses self.now }
        ensures no_memory { IsErrOf result FolderReadFault.NoMemory → wants self.now };

    /// The bytes of the file of a name, if there is one.
    fn read(&self, alloc: Global, name: &str) -> Result<Option<Vec<u8>>, FolderReadFault>
        ensures ok { IfOk result (λ found. MatchOption found (lacks self.now name.now) (λ bytes. gives self.now name.now bytes.items)) }
        ensures unread { IsErrOf result FolderReadFault.Unread → refuses self.now }
        ensures no_memory { IsErrOf result FolderReadFault.NoMemory → wants self.now };
}
