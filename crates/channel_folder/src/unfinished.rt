//! Unfinished files are removed.
ghost use Rattle.std.specs.Prelude.{◌≡◌, ◌++◌, OnOk, OnErr, map};
ghost use Rattle.std.specs.String.{string_bytes};
ghost use Rattle.channel_folder.specs.LetGo.{removing, IsRemovedInPart};

use crate::scanned::Scan;
use folder::{Folder, FolderFault};

/// Removes the unfinished files that a look at the folder found, in order. Where one can't be removed, those behind it stay.
pub fn let_unfinished_go<F: Folder>(folder: &mut F, scan: &Scan) -> Result<(), FolderFault>
    ensures ok { OnOk result (F.made folder.new ≡ F.made folder.old ++ removing scan.now.unfinished) }
    ensures err { OnErr result (IsRemovedInPart (F.made folder.old) (F.made folder.new) scan.now.unfinished) }
    ensures failed { OnErr result ((found : F) × F.fails found folder.new) }
    ensures pruned { F.pruned folder.new ≡ F.pruned folder.old }
{
    remove_each(folder, scan.unfinished())
}

/// Removes files, in order.
fn remove_each<F: Folder>(folder: &mut F, names: &[String]) -> Result<(), FolderFault>
    ensures ok { OnOk result (F.made folder.new ≡ F.made folder.old ++ removing (map string_bytes names.now)) }
    ensures err { OnErr result (IsRemovedInPart (F.made folder.old) (F.made folder.new) (map string_bytes names.now)) }
    ensures failed { OnErr result ((found : F) × F.fails found folder.new) }
    ensures pruned { F.pruned folder.new ≡ F.pruned folder.old }
{
    for name in names {
        let Ok(_done) = folder.remove(name.as_str()) else {
            return Err(FolderFault);
        };
    }
    Ok(())
}
