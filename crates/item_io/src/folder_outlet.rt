ghost use Rattle.std.specs.Prelude.{◌≡◌, ◌⊎◌, ◌+◌, ◌<◌, ◌^◌, ◌∷◌, ◌++◌, [], true, false, IsErr, OnOk, OnErr};
ghost use Rattle.std.specs.String.{string_bytes};
ghost use Rattle.folder.specs.FileFolders.{file_moves, folder_path, may_sync};
ghost use Rattle.folder.specs.Moves.{Remove, is_hidden};
ghost use Rattle.folder.specs.Pruning.{other_moves};
ghost use Rattle.item_io.specs.Items.{item_value, segment_with};
ghost use Rattle.item_io.specs.FileNames.{is_named};
ghost use Rattle.item_io.specs.FolderMoves.{HoldsFiles, HoldsFilesUpTo, new_outlet};
ghost use Rattle.item_io.specs.Outlets.{Grows, BreaksOff};
ghost use Rattle.item_io.specs.Views.{outlet_view};

use crate::fault::OutletFault;
use crate::folder_put::{put_file, take_file};
use crate::item::Item;
use crate::outlet::Outlet;
use folder::{AheadFile, FileFolder, Folder, PruningFolder, StagedFile};
use std::alloc::Global;
use std::fs::Files;
use std::marker::Model;

/// An outlet that puts each item into a file of a folder. The files have the plain names: those of the URIs, but with the
/// renditions' names as they are.
///
/// An item is written under a part name, which begins with a point, as that of no other file of the outlet. With an
/// I-frame playlist the segment, the media playlist and the I-frame playlist that go together are renamed, in this order,
/// once all are written; a master playlist is renamed by itself. So whoever serves the folder sees whole files at any
/// time, and an older one is replaced in one step. Wherever the process is killed, the folder holds a prefix of the items,
/// and where some of a block are in place, the others stand whole under their part names: `given_items_are_left`.
///
/// A file that stands ready is taken under the part name of its segment, as if it were written there.
///
/// A put fails where the name of an item's rendition is none, before anything is done to the folder, where memory is refused,
/// and where the folder fails. From there on every put fails, and nothing more is done to the folder.
///
/// Where the folder isn't synced, what is said here is of what processes see, and not of a machine that loses its power. One
/// that is synced is so before a block is placed, and behind each file of it: then a loss of power leaves no more than a kill.
#[derive(Drop)]
pub struct FolderOutlet<F> {
    folder: F,
    alloc: Global,
    syncs: bool,
    staged: Vec<StagedFile>,
    failures: u64,
}

impl<F> Model for FolderOutlet<F> {
    ghost use Rattle.folder.specs.StagedFiles.{staged_names};
    ghost use Rattle.item_io.specs.FolderMoves.{FolderState};

    ghost Value = { FolderState F };

    ghost view = { λ o. record { folder = o.folder; syncs = o.syncs; staged = staged_names o.staged.items; failures = o.failures } };
}

impl<R: Files> FolderOutlet<FileFolder<R>> {
    /// The outlet of the folder at a path, which has to be there.
    pub fn new(files: R, alloc: Global, path: String) -> FolderOutlet<FileFolder<R>>
        ensures made { file_moves result.folder ≡ [] }
        ensures path { folder_path result.folder ≡ string_bytes path }
        ensures unsynced { may_sync result.folder ≡ false }
        ensures syncs { result.syncs ≡ false }
        ensures staged { result.staged ≡ [] }
        ensures failures { result.failures ≡ 0 }
    {
        FolderOutlet::with_folder(FileFolder::new(files, alloc, path), alloc)
    }
}

impl<F: Folder> FolderOutlet<F> {
    /// The outlet of a folder. It holds no item where nothing was done to the folder yet.
    pub fn with_folder(folder: F, alloc: Global) -> FolderOutlet<F>
        ensures fresh { result ≡ new_outlet false folder }
    {
        FolderOutlet {
            folder,
            alloc,
            syncs: false,
            staged: Vec::new(alloc),
            failures: 0,
        }
    }

    /// The same, which syncs the folder: a file stays there once it is in place, also if the machine loses its power.
    pub fn with_synced_folder(folder: F, alloc: Global) -> FolderOutlet<F>
        ensures { result ≡ new_outlet true folder }
    {
        FolderOutlet {
            folder,
            alloc,
            syncs: true,
            staged: Vec::new(alloc),
            failures: 0,
        }
    }

    /// Counts a put that failed before anything was done to the folder: from there on every put fails.
    pub fn refuse(&mut self) -> OutletFault
        requires { self.old.failures < 2 ^ 63 }
        ensures { self.new ≡ record self.old { failures = self.old.failures + 1 } }
    {
        self.failures += 1;
        OutletFault
    }

    /// The folder, with what was done to it.
    pub fn into_folder(self) -> F
        ensures { result ≡ self.folder }
    {
        let FolderOutlet { folder, .. } = self;
        folder
    }
}

impl<F: Folder> FolderOutlet<PruningFolder<F>> {
    /// Takes away a file that is served: what the outlet holds, and what became of it, is told without that. There may be none
    /// of its name.
    pub fn prune(&mut self, name: &str) -> Result<(), OutletFault>
        ensures made { OnOk result (F.made self.new.folder ≡ F.made self.old.folder ++ Remove name.now ∷ []) }
        ensures kept { OnErr result (F.made self.new.folder ≡ F.made self.old.folder) }
        ensures others { other_moves (F.made self.new.folder) ≡ other_moves (F.made self.old.folder) }
        ensures failed { OnErr result ((is_hidden name.now ≡ true) ⊎ F.fails self.old.folder self.new.folder) }
        ensures same { self.new ≡ record self.old { folder = self.new.folder } }
    {
        if self.folder.prune(name).is_err() {
            return Err(OutletFault);
        }
        Ok(())
    }
}

impl<F: Folder> Outlet for FolderOutlet<F> {
    ghost output = { outlet_view (λ o. HoldsFiles o.syncs (F.made o.folder) o.staged o.failures)
        (λ o. HoldsFilesUpTo o.syncs (F.made o.folder)) (λ o. o.failures) };

    fn put(&mut self, item: &Item) -> Result<(), OutletFault>
        requires { self.old.failures < 2 ^ 63 }
        ensures grown { OnOk result (Grows
            (HoldsFiles self.old.syncs (F.made self.old.folder) self.old.staged self.old.failures)
            (HoldsFiles self.new.syncs (F.made self.new.folder) self.new.staged self.new.failures)
            (item_value item.now ∷ [])) }
        ensures ok { OnOk result (self.new.failures ≡ self.old.failures) }
        ensures kept { OnErr result (Grows
            (HoldsFiles self.old.syncs (F.made self.old.folder) self.old.staged self.old.failures)
            (HoldsFiles self.new.syncs (F.made self.new.folder) self.new.staged self.new.failures)
            []) }
        ensures refused { OnErr result (self.old.failures ≡ 0 → BreaksOff
            (HoldsFiles self.old.syncs (F.made self.old.folder) self.old.staged self.old.failures)
            (HoldsFilesUpTo self.new.syncs (F.made self.new.folder))
            []
            (item_value item.now)) }
        ensures failed { OnErr result (self.new.failures ≡ self.old.failures + 1) }
        ensures named { OnOk result (is_named (item_value item.now) ≡ true) }
        ensures unnamed { is_named (item_value item.now) ≡ false → self.new.folder ≡ self.old.folder }
        ensures fault { OnErr result ((self.new.folder ≡ self.old.folder) ⊎ ((found : F) × F.fails found self.new.folder)) }
        ensures stays { 0 < self.old.failures → IsErr result }
        ensures syncs { self.new.syncs ≡ self.old.syncs }
        ensures untouched { 0 < self.old.failures → self.new.folder ≡ self.old.folder }
        ensures pruned { F.pruned self.new.folder ≡ F.pruned self.old.folder }
    {
        if self.failures > 0 {
            self.failures += 1;
            return Err(OutletFault);
        }
        match put_file(
            &mut self.folder,
            self.alloc,
            self.syncs,
            &mut self.staged,
            item,
        ) {
            Ok(()) => Ok(()),
            Err(fault) => {
                self.failures += 1;
                Err(fault)
            }
        }
    }

    fn take(&mut self, _rendition: usize, number: u64, name: &str, file: AheadFile) -> bool
        ensures taken { result ≡ true → Grows
            (HoldsFiles self.old.syncs (F.made self.old.folder) self.old.staged self.old.failures)
            (HoldsFiles self.new.syncs (F.made self.new.folder) self.new.staged self.new.failures)
            (segment_with _rendition number name.now file.bytes ∷ []) }
        ensures kept { result ≡ false → Grows
            (HoldsFiles self.old.syncs (F.made self.old.folder) self.old.staged self.old.failures)
            (HoldsFiles self.new.syncs (F.made self.new.folder) self.new.staged self.new.failures)
            [] }
        ensures failures { self.new.failures ≡ self.old.failures }
        ensures named { result ≡ true → is_named (segment_with _rendition number name.now file.bytes) ≡ true }
        ensures made { result ≡ false → F.made self.new.folder ≡ F.made self.old.folder }
        ensures staged { result ≡ false → self.new.staged ≡ self.old.staged }
        ensures syncs { self.new.syncs ≡ self.old.syncs }
        ensures stays { 0 < self.old.failures → (result ≡ false) × (self.new.folder ≡ self.old.folder) }
        ensures pruned { F.pruned self.new.folder ≡ F.pruned self.old.folder }
    {
        if self.failures != 0 {
            return false;
        }
        take_file(
            &mut self.folder,
            self.alloc,
            &mut self.staged,
            name,
            number,
            file,
        )
    }
}
