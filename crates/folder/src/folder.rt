ghost use Rattle.std.specs.Prelude.{◌≡◌, ◌++◌, ◌∷◌, [], ⊤, ℕ, List, true, false, IfOk, OnOk, OnErr};
ghost use Rattle.folder.specs.Moves.{Move, Write, Rename, Remove, Looked, Sync};
ghost use Rattle.folder.specs.Kills.{IsFailedWrite};

use crate::ahead::AheadFile;
use crate::fault::FolderFault;

/// A folder that one process alone changes.
///
/// Names are those of files right in it. A method that fails did nothing, but for a write: that may have removed the
/// file, or written a prefix of its bytes.
pub trait Folder {
    /// All that was done to it, in order. The process may be killed between two moves, and in the middle of a write:
    /// `KillMayLeave` says what is left then.
    ghost made: { Self → List Move };

    /// The files that were taken away besides, unknown to whoever puts files into it, by no method of this trait: each behind how
    /// many of the moves made, and its name.
    ghost pruned: { Self → List (ℕ × List ℕ) };

    /// What a method that fails may find and leave: a fault that is told of a folder without it wasn't one of its methods'.
    ghost fails: { Self → Self → Type 0 } = { λ _ _. ⊤ };

    /// Writes a file anew, whether there is one of its name or not.
    fn write(&mut self, name: &str, bytes: &[u8]) -> Result<(), FolderFault>
        ensures made { OnOk result (made self.new ≡ made self.old ++ Write name.now bytes.now ∷ []) }
        ensures cut_off { OnErr result ((more : List Move) × (made self.new ≡ made self.old ++ more) ×
            IsFailedWrite name.now bytes.now more) }
        ensures failed { OnErr result (fails self.old self.new) }
        ensures pruned { pruned self.new ≡ pruned self.old };

    /// Takes a file that stands ready, as if what it holds were written anew. False where that wasn't done: then the file may be gone.
    fn take(&mut self, _name: &str, _file: AheadFile) -> bool
        ensures made { result ≡ true → made self.new ≡ made self.old ++ Write _name.now _file.bytes ∷ [] }
        ensures kept { result ≡ false → made self.new ≡ made self.old }
        ensures pruned { pruned self.new ≡ pruned self.old }
    {
        false
    }

    /// Gives a file another name, in one step. A file that has that name is replaced (POSIX rename(2)).
    fn rename(&mut self, old: &str, new: &str) -> Result<(), FolderFault>
        ensures made { OnOk result (made self.new ≡ made self.old ++ Rename old.now new.now ∷ []) }
        ensures kept { OnErr result (made self.new ≡ made self.old) }
        ensures failed { OnErr result (fails self.old self.new) }
        ensures pruned { pruned self.new ≡ pruned self.old };

    /// Removes a file (POSIX unlink(2)). There may be none of its name.
    fn remove(&mut self, name: &str) -> Result<(), FolderFault>
        ensures made { OnOk result (made self.new ≡ made self.old ++ Remove name.now ∷ []) }
        ensures kept { OnErr result (made self.new ≡ made self.old) }
        ensures failed { OnErr result (fails self.old self.new) }
        ensures pruned { pruned self.new ≡ pruned self.old };

    /// Whether there is a file of a name.
    fn has(&mut self, name: &str) -> Result<bool, FolderFault>
        ensures made { IfOk result (λ there. made self.new ≡ made self.old ++ Looked name.now there ∷ []) }
        ensures kept { OnErr result (made self.new ≡ made self.old) }
        ensures failed { OnErr result (fails self.old self.new) }
        ensures pruned { pruned self.new ≡ pruned self.old };

    /// Waits until all that was done to the folder is on the disk (POSIX fsync(2)).
    fn sync(&mut self) -> Result<(), FolderFault>
        ensures made { OnOk result (made self.new ≡ made self.old ++ Sync ∷ []) }
        ensures kept { OnErr result (made self.new ≡ made self.old) }
        ensures failed { OnErr result (fails self.old self.new) }
        ensures pruned { pruned self.new ≡ pruned self.old };
}
