ghost use Rattle.std.specs.Prelude.{◌≡◌, ◌==◌, ◌-◌, ◌++◌, ◌∷◌, [], List, IfOk, IsErr, OnErr, OnOk, is_some};
ghost use Rattle.std.specs.Option.{option_map};
ghost use Rattle.folder.specs.Kills.{IsFailedWrite};
ghost use Rattle.folder.specs.Moves.{Looked, Move, Remove, Rename, Sync, Write, no_files, standing};

use crate::fault::FolderFault;
use crate::folder::Folder;
use crate::memory_find::find_in;
use crate::memory_move::{MemoryMove, removed, renamed, seen, written};
use std::alloc::Global;

/// A folder in memory, as all that was done to it. A move fails where memory is refused, and one more if asked for.
#[derive(Drop)]
pub struct MemoryFolder {
    alloc: Global,
    moves: Vec<MemoryMove>,
    until: u64,
}

impl MemoryFolder {
    ghost use Rattle.folder.specs.MemoryFolders.{fails_at, moves_in_memory};
    ghost use Rattle.folder.specs.MemoryMoves.{memory_moves};

    /// An empty folder, of which move `n` fails, counted from 1: none for 0.
    pub fn new(alloc: Global, n: u64) -> MemoryFolder
        ensures empty { moves_in_memory result ≡ [] }
        ensures fails { fails_at result ≡ n }
    {
        MemoryFolder {
            alloc,
            moves: Vec::new(alloc),
            until: n,
        }
    }

    /// The bytes of the file of a name.
    pub fn find<'a>(&'a self, name: &'a str) -> Option<&'a [u8]>
        ensures { option_map (λ bytes. bytes.now) result ≡ standing no_files (moves_in_memory self.now) name.now }
    {
        find_in(&self.moves, name.as_bytes())
    }

    /// All that was done to it.
    pub(crate) fn moves(&self) -> &[MemoryMove]
        ensures { memory_moves result.now ≡ moves_in_memory self.now }
    {
        &self.moves
    }

    /// Whether the next move is the one to fail.
    fn fails(&mut self) -> bool
        ensures is { result ≡ (fails_at self.old == 1) }
        ensures counts { fails_at self.new ≡ fails_at self.old - 1 }
        ensures same { moves_in_memory self.new ≡ moves_in_memory self.old }
    {
        let fails = self.until == 1;
        self.until = self.until.saturating_sub(1);
        fails
    }
}

impl Folder for MemoryFolder {
    ghost use Rattle.folder.specs.MemoryFolders.{fails_at, moves_in_memory};

    ghost made = { λ f. moves_in_memory f };

    ghost pruned = { λ f. [] };

    fn write(&mut self, name: &str, bytes: &[u8]) -> Result<(), FolderFault>
        ensures made { OnOk result (moves_in_memory self.new ≡ moves_in_memory self.old ++ Write name.now bytes.now ∷ []) }
        ensures cut_off { OnErr result ((more : List Move) × (moves_in_memory self.new ≡ moves_in_memory self.old ++ more) ×
            IsFailedWrite name.now bytes.now more) }
        ensures kept { OnErr result (moves_in_memory self.new ≡ moves_in_memory self.old) }
        ensures fails { fails_at self.old ≡ 1 → IsErr result }
        ensures counts { fails_at self.new ≡ fails_at self.old - 1 }
    {
        if self.fails() {
            return Err(FolderFault);
        }
        let made = written(self.alloc, name, bytes)?;
        Ok(self.moves.push(made)?)
    }

    fn rename(&mut self, old: &str, new: &str) -> Result<(), FolderFault>
        ensures made { OnOk result (moves_in_memory self.new ≡ moves_in_memory self.old ++ Rename old.now new.now ∷ []) }
        ensures kept { OnErr result (moves_in_memory self.new ≡ moves_in_memory self.old) }
        ensures fails { fails_at self.old ≡ 1 → IsErr result }
        ensures counts { fails_at self.new ≡ fails_at self.old - 1 }
    {
        if self.fails() {
            return Err(FolderFault);
        }
        let made = renamed(self.alloc, old, new)?;
        Ok(self.moves.push(made)?)
    }

    fn remove(&mut self, name: &str) -> Result<(), FolderFault>
        ensures made { OnOk result (moves_in_memory self.new ≡ moves_in_memory self.old ++ Remove name.now ∷ []) }
        ensures kept { OnErr result (moves_in_memory self.new ≡ moves_in_memory self.old) }
        ensures fails { fails_at self.old ≡ 1 → IsErr result }
        ensures counts { fails_at self.new ≡ fails_at self.old - 1 }
    {
        if self.fails() {
            return Err(FolderFault);
        }
        let made = removed(self.alloc, name)?;
        Ok(self.moves.push(made)?)
    }

    fn has(&mut self, name: &str) -> Result<bool, FolderFault>
        ensures made { IfOk result (λ there. moves_in_memory self.new ≡ moves_in_memory self.old ++ Looked name.now there ∷ []) }
        ensures kept { OnErr result (moves_in_memory self.new ≡ moves_in_memory self.old) }
        ensures is_so { IfOk result (λ there. there ≡ is_some (standing no_files (moves_in_memory self.old) name.now)) }
        ensures fails { fails_at self.old ≡ 1 → IsErr result }
        ensures counts { fails_at self.new ≡ fails_at self.old - 1 }
    {
        if self.fails() {
            return Err(FolderFault);
        }
        let there = self.find(name).is_some();
        let made = seen(self.alloc, name, there)?;
        self.moves.push(made)?;
        Ok(there)
    }

    fn sync(&mut self) -> Result<(), FolderFault>
        ensures made { OnOk result (moves_in_memory self.new ≡ moves_in_memory self.old ++ Sync ∷ []) }
        ensures kept { OnErr result (moves_in_memory self.new ≡ moves_in_memory self.old) }
        ensures fails { fails_at self.old ≡ 1 → IsErr result }
        ensures counts { fails_at self.new ≡ fails_at self.old - 1 }
    {
        if self.fails() {
            return Err(FolderFault);
        }
        Ok(self.moves.push(MemoryMove::Synced)?)
    }
}
