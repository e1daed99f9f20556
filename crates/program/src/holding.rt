//! Holds a folder, so that one packager alone changes it.
ghost use Rattle.std.specs.Prelude.{◌≡◌, Err, IfOk, OnErr};
ghost use Rattle.command_line.specs.declared.fault.Fault.TheVariants.{Busy};

use crate::lock::{FolderLock, lock_of, try_at};
use command_line::Fault;

/// Takes the lock on a folder.
pub fn hold<'a>(rt: &HostRuntime, folder: &'a str) -> Result<FolderLock<'a>, Fault>
    ensures path { IfOk result (λ held. held.path ≡ folder.entry) }
    ensures busy { OnErr result (result ≡ Err Busy) }
{
    lock_of(try_at(rt, folder))
}
