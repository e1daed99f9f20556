//! What stands under a name behind the moves of a folder in memory.
ghost use Rattle.std.specs.Prelude.{◌≡◌};
ghost use Rattle.std.specs.Option.{option_map};
ghost use Rattle.folder.specs.MemoryMoves.{memory_move, memory_moves};
ghost use Rattle.folder.specs.MemoryFinds.{said_of};
ghost use Rattle.folder.specs.Moves.{Files, moved, no_files, standing};

use crate::memory_move::MemoryMove;

/// What a move says of the file of a name.
pub(crate) enum Said<'a> {
    /// It has these bytes.
    Is(&'a [u8]),
    /// There is none.
    Gone,
    /// It is the one that had this name before the move.
    Was(&'a [u8]),
}

/// Reads in a move what became of the file of a name.
fn says<'a>(made: &'a MemoryMove, name: &'a [u8]) -> Said<'a>
    ensures { (files : Files) → moved files (memory_move made.now) name.now ≡ said_of files result }
{
    match made {
        MemoryMove::Written {
            name: written,
            bytes,
        } => {
            if written.as_bytes() == name {
                Said::Is(bytes)
            } else {
                Said::Was(name)
            }
        }
        MemoryMove::Renamed { old, new } => {
            if new.as_bytes() == name {
                Said::Was(old.as_bytes())
            } else if old.as_bytes() == name {
                Said::Gone
            } else {
                Said::Was(name)
            }
        }
        MemoryMove::Removed { name: removed } => {
            if removed.as_bytes() == name {
                Said::Gone
            } else {
                Said::Was(name)
            }
        }
        MemoryMove::Seen { .. } | MemoryMove::Synced => Said::Was(name),
    }
}

/// The bytes of the file of a name behind these moves.
pub(crate) fn find_in<'a>(moves: &'a [MemoryMove], name: &'a [u8]) -> Option<&'a [u8]>
    ensures { option_map (λ bytes. bytes.now) result ≡ standing no_files (memory_moves moves.now) name.now }
{
    let mut wanted = name;
    for done in 0..moves.len() {
        match says(&moves[moves.len() - 1 - done], wanted) {
            Said::Is(bytes) => return Some(bytes),
            Said::Gone => return None,
            Said::Was(before) => wanted = before,
        }
    }
    None
}
