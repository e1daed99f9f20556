ghost use Rattle.std.specs.Prelude.{◌≡◌};
ghost use Rattle.item_io.specs.FolderMoves.{new_outlet};

use folder::Folder;
use item_io::FolderOutlet;
use std::alloc::Global;

/// Where files go: a folder, and whether it is synced. One that is synced keeps each segment and playlist that is in place,
/// also if the machine loses its power.
#[derive(Drop)]
pub struct Destination<F> {
    pub folder: F,
    pub syncs: bool,
}

/// Its outlet, which was given no item yet.
pub(crate) fn outlet_of<F: Folder>(into: Destination<F>, alloc: Global) -> FolderOutlet<F>
    ensures { result ≡ new_outlet into.syncs into.folder }
{
    let Destination { folder, syncs } = into;
    if syncs {
        return FolderOutlet::with_synced_folder(folder, alloc);
    }
    FolderOutlet::with_folder(folder, alloc)
}
