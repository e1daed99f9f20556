//! Lists that grow: memory is wanted where a list has no room left.

ghost use Rattle.std.specs.Prelude.{◌≡◌, ◌+◌, ◌<◌, ◌≤◌, [], ◌∷◌, ◌++◌, length, vec_len, vec_capacity, OnOk, OnErr};
ghost use Rattle.cutter.specs.declared.fault.CutFault.TheVariants.{NoMemory};

use crate::fault::CutFault;
use std::alloc::AllocError;

/// A list had no room for what was to stand behind it, and got no memory. Only the calls below tell it.
#[derive(Drop)]
pub(crate) struct NoRoom(AllocError);

impl From<NoRoom> for CutFault {
    ghost from_gives = { λ _ fault. fault ≡ NoMemory };

    fn from(lack: NoRoom) -> CutFault {
        let NoRoom(refused) = lack;
        CutFault::from(refused)
    }
}

/// Appends items.
pub(crate) fn append<T: Copy>(list: &mut Vec<T>, more: &[T]) -> Result<(), NoRoom>
    ensures items { OnOk result (list.new.items ≡ list.old.items ++ more.now) }
    ensures err { OnErr result (list.new.items ≡ list.old.items) }
    ensures full { OnErr result (vec_capacity list.old < vec_len list.old + length more.now) }
    ensures capacity { vec_capacity list.old ≤ vec_capacity list.new }
{
    match list.extend_from_slice(more) {
        Ok(()) => Ok(()),
        Err(refused) => Err(NoRoom(refused)),
    }
}

/// Pushes an item.
pub(crate) fn push<T: Drop>(list: &mut Vec<T>, item: T) -> Result<(), NoRoom>
    ensures items { OnOk result (list.new.items ≡ list.old.items ++ item ∷ []) }
    ensures err { OnErr result (list.new.items ≡ list.old.items) }
    ensures full { OnErr result (vec_capacity list.old ≤ vec_len list.old) }
    ensures capacity { vec_capacity list.old ≤ vec_capacity list.new }
{
    match list.push(item) {
        Ok(()) => Ok(()),
        Err(refused) => Err(NoRoom(AllocError::from(refused))),
    }
}
