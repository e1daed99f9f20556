//! Segments are taken away one after another.
ghost use Rattle.std.specs.Prelude.{◌≡◌, ◌+◌, ◌<◌, ◌≤◌, ◌⊎◌, ◌++◌, ◌∷◌, [], length, take, drop, OnErr, OnOk};
ghost use Rattle.folder.specs.Moves.{Remove};
ghost use Rattle.folder.specs.Pruning.{other_moves};
ghost use Rattle.item_io.specs.FileNames.{segment_file_name};
ghost use Rattle.keeping.specs.OneByOne.{HaveGone, Swept};

use folder::{Folder, PruningFolder};
use item_io::{FolderOutlet, OutletFault, push_segment_file_name};
use std::alloc::Global;

/// The most older segments that go behind one block: a put isn't held up by all that an earlier run left.
const MOST_OLDER: usize = 64;

/// Takes the segments away whose places are from `gone` up to another one.
pub(crate) fn take_places<F: Folder>(
    files: &mut FolderOutlet<PruningFolder<F>>,
    alloc: Global,
    name: &str,
    base: u64,
    gone: &mut u64,
    until: u64,
) -> Result<(), OutletFault>
    requires { gone.old ≤ until }
    ensures went { HaveGone name.now base gone.old gone.new until (F.made files.old.folder) (F.made files.new.folder) }
    ensures all { OnOk result (gone.new ≡ until) }
    ensures left { OnErr result (gone.new < until) }
    ensures others { other_moves (F.made files.new.folder) ≡ other_moves (F.made files.old.folder) }
    ensures same { files.new ≡ record files.old { folder = files.new.folder } }
{
    while *gone < until {
        let Some(number) = base.checked_add(*gone) else {
            return Err(OutletFault);
        };
        take_away(files, alloc, name, number)?;
        *gone += 1;
    }
    Ok(())
}

/// Takes segments of the numbers away that come behind those which went before: all of them, or as many as may go at a time.
pub(crate) fn take_some<F: Folder>(
    files: &mut FolderOutlet<PruningFolder<F>>,
    alloc: Global,
    name: &str,
    numbers: &[u64],
    swept: &mut usize,
) -> Result<(), OutletFault>
    requires { swept.old ≤ length numbers.now }
    ensures went { Swept name.now numbers.now swept.old swept.new (F.made files.old.folder) (F.made files.new.folder) }
    ensures all { OnOk result ((swept.new ≡ length numbers.now) ⊎ (swept.new ≡ swept.old + 64)) }
    ensures left { OnErr result ((swept.new < length numbers.now) × (swept.new < swept.old + 64)) }
    ensures others { other_moves (F.made files.new.folder) ≡ other_moves (F.made files.old.folder) }
    ensures same { files.new ≡ record files.old { folder = files.new.folder } }
{
    let left = numbers.len() - *swept;
    for _ in 0..left.min(MOST_OLDER) {
        take_away(files, alloc, name, numbers[*swept])?;
        *swept += 1;
    }
    Ok(())
}

/// Takes a segment away.
fn take_away<F: Folder>(
    files: &mut FolderOutlet<PruningFolder<F>>,
    alloc: Global,
    name: &str,
    number: u64,
) -> Result<(), OutletFault>
    ensures made { OnOk result (F.made files.new.folder ≡ F.made files.old.folder ++ Remove (segment_file_name name.now number) ∷ []) }
    ensures kept { OnErr result (F.made files.new.folder ≡ F.made files.old.folder) }
    ensures others { other_moves (F.made files.new.folder) ≡ other_moves (F.made files.old.folder) }
    ensures same { files.new ≡ record files.old { folder = files.new.folder } }
{
    let mut file = String::new(alloc);
    push_segment_file_name(&mut file, name, number)?;
    files.prune(&file)
}
