ghost use Rattle.std.specs.Prelude.{◌≡◌, IfOk};
ghost use Rattle.folder.specs.MemoryMoves.{memory_move};
ghost use Rattle.folder.specs.Moves.{Looked, Remove, Rename, Write};

use std::alloc::{AllocError, Global};

/// A move of a folder in memory.
#[derive(Drop)]
pub enum MemoryMove {
    Written { name: String, bytes: Vec<u8> },
    Renamed { old: String, new: String },
    Removed { name: String },
    Seen { name: String, there: bool },
    Synced,
}

pub(crate) fn written(alloc: Global, name: &str, bytes: &[u8]) -> Result<MemoryMove, AllocError>
    ensures { IfOk result (λ it. memory_move it ≡ Write name.now bytes.now) }
{
    Ok(MemoryMove::Written {
        name: String::from_str(alloc, name)?,
        bytes: bytes.to_vec(alloc)?,
    })
}

pub(crate) fn renamed(alloc: Global, old: &str, new: &str) -> Result<MemoryMove, AllocError>
    ensures { IfOk result (λ it. memory_move it ≡ Rename old.now new.now) }
{
    Ok(MemoryMove::Renamed {
        old: String::from_str(alloc, old)?,
        new: String::from_str(alloc, new)?,
    })
}

pub(crate) fn removed(alloc: Global, name: &str) -> Result<MemoryMove, AllocError>
    ensures { IfOk result (λ it. memory_move it ≡ Remove name.now) }
{
    Ok(MemoryMove::Removed {
        name: String::from_str(alloc, name)?,
    })
}

pub(crate) fn seen(alloc: Global, name: &str, there: bool) -> Result<MemoryMove, AllocError>
    ensures { IfOk result (λ it. memory_move it ≡ Looked name.now there) }
{
    Ok(MemoryMove::Seen {
        name: String::from_str(alloc, name)?,
        there,
    })
}
