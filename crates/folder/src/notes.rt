//! Appends a move to the ghost list of those made.
ghost use Rattle.std.specs.Prelude.{◌≡◌, ◌++◌, ◌∷◌, [], List, is_some};
ghost use Rattle.std.specs.Path.{path_join};
ghost use Rattle.folder.specs.GhostMoves.{ghost_moves};
ghost use Rattle.folder.specs.Kills.{IsFailedWrite};
ghost use Rattle.folder.specs.Moves.{Looked, Move, Remove, Rename, Sync, Write};

use crate::answers::{Cleared, Removed, Renamed, Sight, Synced, Written};
use crate::ghost_move::GhostMove;
use ghost_list::GhostList;

/// A file was written anew in the folder at a path, of which all are synced, or none need be.
pub(crate) fn note_write(
    made: &mut GhostList<GhostMove>,
    folder: &str,
    name: &str,
    syncs: bool,
    written: Written,
)
    requires path { written.path.items ≡ path_join folder.now name.now }
    requires synced { written.is_synced ≡ syncs }
    ensures { ghost_moves made.new.items ≡ ghost_moves made.old.items ++ Write name.now written.bytes.items ∷ [] }
{
    made.push(&GhostMove::Written {
        name: known(name.as_bytes()),
        bytes: written.into_bytes(),
    });
}

/// A file of the folder at a path has another name.
pub(crate) fn note_rename(
    made: &mut GhostList<GhostMove>,
    folder: &str,
    old: &str,
    new: &str,
    _renamed: Renamed,
)
    requires from { _renamed.from.items ≡ path_join folder.now old.now }
    requires to { _renamed.to.items ≡ path_join folder.now new.now }
    ensures { ghost_moves made.new.items ≡ ghost_moves made.old.items ++ Rename old.now new.now ∷ [] }
{
    made.push(&GhostMove::Renamed {
        old: known(old.as_bytes()),
        new: known(new.as_bytes()),
    });
}

/// A file of the folder at a path is gone.
pub(crate) fn note_remove(
    made: &mut GhostList<GhostMove>,
    folder: &str,
    name: &str,
    _removed: Removed,
)
    requires { _removed.path.items ≡ path_join folder.now name.now }
    ensures { ghost_moves made.new.items ≡ ghost_moves made.old.items ++ Remove name.now ∷ [] }
{
    note_gone(made, name);
}

/// It was looked for a file of the folder at a path. Answers whether there is one.
pub(crate) fn note_sight(
    made: &mut GhostList<GhostMove>,
    folder: &str,
    name: &str,
    sight: &Sight,
) -> bool
    requires { sight.now.path.items ≡ path_join folder.now name.now }
    ensures there { result ≡ is_some sight.now.found }
    ensures noted { ghost_moves made.new.items ≡ ghost_moves made.old.items ++ Looked name.now result ∷ [] }
{
    let there = sight.is_there();
    made.push(&GhostMove::Seen {
        name: known(name.as_bytes()),
        there,
    });
    there
}

/// All of the folder at a path is on the disk.
pub(crate) fn note_sync(made: &mut GhostList<GhostMove>, folder: &str, _synced: Synced)
    requires { _synced.path.items ≡ folder.now }
    ensures { ghost_moves made.new.items ≡ ghost_moves made.old.items ++ Sync ∷ [] }
{
    made.push(&GhostMove::Synced);
}

/// Notes a write that failed, whose file was cleared. No more is known of it than the clause says, though the body names one of its
/// cases.
pub(crate) fn note_failed_write(
    made: &mut GhostList<GhostMove>,
    folder: &str,
    name: &str,
    _bytes: &[u8],
    _cleared: Cleared,
)
    requires { _cleared.path.items ≡ path_join folder.now name.now }
    ensures { (more : List Move) × (ghost_moves made.new.items ≡ ghost_moves made.old.items ++ more) ×
        IsFailedWrite name.now _bytes.now more }
{
    note_gone(made, name);
}

fn note_gone(made: &mut GhostList<GhostMove>, name: &str)
    ensures { ghost_moves made.new.items ≡ ghost_moves made.old.items ++ Remove name.now ∷ [] }
{
    made.push(&GhostMove::Removed {
        name: known(name.as_bytes()),
    });
}

/// Bytes that only proofs read.
pub(crate) fn known(bytes: &[u8]) -> GhostList<u8>
    ensures { result.items ≡ bytes.now }
{
    let mut list = GhostList::new();
    list.append(bytes);
    list
}
