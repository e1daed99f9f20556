ghost use Rattle.std.specs.Prelude.{◌≡◌, ◌⊎◌, ◌++◌, ◌∷◌, [], List, false, true, IfOk, IsErr, OnErr, OnOk};
ghost use Rattle.folder.specs.Kills.{IsFailedWrite};
ghost use Rattle.folder.specs.Moves.{Looked, Move, Remove, Rename, Sync, Write, is_hidden};
ghost use Rattle.folder.specs.Pruning.{other_moves, prunings};

use crate::ahead::AheadFile;
use crate::fault::FolderFault;
use crate::folder::Folder;
use std::marker::Model;

/// A folder from which old files are taken away by `prune`, and which doesn't count that among the moves made: whoever puts
/// files into it need not know. Contracts see it as the folder below, whose moves are all that was done.
///
/// Files are written under hidden names, those that begin with a point, and renamed from there: a file that is served is taken
/// away by `prune` alone, and `write`, `take` and `remove` refuse its name.
#[derive(Drop)]
pub struct PruningFolder<F> {
    folder: F,
}

impl<F> Model for PruningFolder<F> {
    ghost Value = { F };

    ghost view = { λ p. p.folder };
}

impl<F: Folder> PruningFolder<F> {
    /// Over a folder.
    pub fn new(folder: F) -> PruningFolder<F>
        ensures { result ≡ folder }
    {
        PruningFolder { folder }
    }

    /// Takes away a file that is served. One that is hidden is refused.
    pub fn prune(&mut self, name: &str) -> Result<(), FolderFault>
        ensures made { OnOk result (F.made self.new ≡ F.made self.old ++ Remove name.now ∷ []) }
        ensures kept { OnErr result (F.made self.new ≡ F.made self.old) }
        ensures others { other_moves (F.made self.new) ≡ other_moves (F.made self.old) }
        ensures hidden { is_hidden name.now ≡ true → IsErr result }
        ensures failed { OnErr result ((is_hidden name.now ≡ true) ⊎ F.fails self.old self.new) }
    {
        if is_hidden(name) {
            return Err(FolderFault);
        }
        self.folder.remove(name)
    }

    /// The folder below.
    pub fn into_folder(self) -> F
        ensures { result ≡ self }
    {
        let PruningFolder { folder } = self;
        folder
    }
}

impl<F: Folder> Folder for PruningFolder<F> {
    ghost made = { λ p. other_moves (F.made p) };

    ghost pruned = { λ p. prunings (F.made p) };

    ghost fails = { λ found left. (left ≡ found) ⊎ F.fails found left };

    fn write(&mut self, name: &str, bytes: &[u8]) -> Result<(), FolderFault>
        ensures made { OnOk result (other_moves (F.made self.new) ≡ other_moves (F.made self.old) ++ Write name.now bytes.now ∷ []) }
        ensures cut_off { OnErr result ((more : List Move) × (other_moves (F.made self.new) ≡ other_moves (F.made self.old) ++ more) ×
            IsFailedWrite name.now bytes.now more) }
        ensures pruned { prunings (F.made self.new) ≡ prunings (F.made self.old) }
        ensures failed { OnErr result ((self.new ≡ self.old) ⊎ F.fails self.old self.new) }
        ensures asked { OnErr result ((is_hidden name.now ≡ false) ⊎ F.fails self.old self.new) }
        ensures served { is_hidden name.now ≡ false → IsErr result × (self.new ≡ self.old) }
    {
        let is_part = is_hidden(name);
        if !is_part {
            return Err(FolderFault);
        }
        self.folder.write(name, bytes)
    }

    fn take(&mut self, name: &str, file: AheadFile) -> bool
        ensures made { result ≡ true → other_moves (F.made self.new) ≡ other_moves (F.made self.old) ++ Write name.now file.bytes ∷ [] }
        ensures kept { result ≡ false → other_moves (F.made self.new) ≡ other_moves (F.made self.old) }
        ensures pruned { prunings (F.made self.new) ≡ prunings (F.made self.old) }
        ensures served { is_hidden name.now ≡ false → (result ≡ false) × (self.new ≡ self.old) }
    {
        let may_be_taken = is_hidden(name);
        if !may_be_taken {
            return false;
        }
        self.folder.take(name, file)
    }

    fn rename(&mut self, old: &str, new: &str) -> Result<(), FolderFault>
        ensures made { OnOk result (other_moves (F.made self.new) ≡ other_moves (F.made self.old) ++ Rename old.now new.now ∷ []) }
        ensures kept { OnErr result (other_moves (F.made self.new) ≡ other_moves (F.made self.old)) }
        ensures failed { OnErr result ((self.new ≡ self.old) ⊎ F.fails self.old self.new) }
        ensures asked { OnErr result (F.fails self.old self.new) }
        ensures pruned { prunings (F.made self.new) ≡ prunings (F.made self.old) }
    {
        self.folder.rename(old, new)
    }

    fn remove(&mut self, name: &str) -> Result<(), FolderFault>
        ensures made { OnOk result (other_moves (F.made self.new) ≡ other_moves (F.made self.old) ++ Remove name.now ∷ []) }
        ensures kept { OnErr result (other_moves (F.made self.new) ≡ other_moves (F.made self.old)) }
        ensures pruned { prunings (F.made self.new) ≡ prunings (F.made self.old) }
        ensures failed { OnErr result ((self.new ≡ self.old) ⊎ F.fails self.old self.new) }
        ensures asked { OnErr result ((is_hidden name.now ≡ false) ⊎ F.fails self.old self.new) }
        ensures served { is_hidden name.now ≡ false → IsErr result × (self.new ≡ self.old) }
    {
        if !is_hidden(name) {
            return Err(FolderFault);
        }
        self.folder.remove(name)
    }

    fn has(&mut self, name: &str) -> Result<bool, FolderFault>
        ensures made { IfOk result (λ there. other_moves (F.made self.new) ≡ other_moves (F.made self.old) ++ Looked name.now there ∷ []) }
        ensures kept { OnErr result (other_moves (F.made self.new) ≡ other_moves (F.made self.old)) }
        ensures failed { OnErr result ((self.new ≡ self.old) ⊎ F.fails self.old self.new) }
        ensures asked { OnErr result (F.fails self.old self.new) }
        ensures pruned { prunings (F.made self.new) ≡ prunings (F.made self.old) }
    {
        self.folder.has(name)
    }

    fn sync(&mut self) -> Result<(), FolderFault>
        ensures made { OnOk result (other_moves (F.made self.new) ≡ other_moves (F.made self.old) ++ Sync ∷ []) }
        ensures kept { OnErr result (other_moves (F.made self.new) ≡ other_moves (F.made self.old)) }
        ensures failed { OnErr result ((self.new ≡ self.old) ⊎ F.fails self.old self.new) }
        ensures asked { OnErr result (F.fails self.old self.new) }
        ensures pruned { prunings (F.made self.new) ≡ prunings (F.made self.old) }
    {
        self.folder.sync()
    }
}

/// Whether a name begins with a point: then nobody is served the file.
fn is_hidden(name: &str) -> bool
    ensures { result ≡ is_hidden name.now }
{
    name.as_bytes().first() == Some(&b'.')
}
