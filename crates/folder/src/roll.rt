ghost use Rattle.std.specs.Prelude.{◌≡◌, ◌++◌, ◌∷◌, [], List, IfOk, OnErr, OnOk};
ghost use Rattle.folder.specs.Moves.{Move};
ghost use Rattle.folder.specs.Rolling.{IsLook, IsRolled, IsRolledInPart, rolling_moves};
ghost use Rattle.folder.specs.StagedFiles.{staged_file_names, staged_names};

use crate::fault::FolderFault;
use crate::folder::Folder;
use crate::staged_file::StagedFile;

/// Places those files of a block that stand under their part names. It may itself be cut off, and be done again.
pub fn roll_forward<F: Folder>(folder: &mut F, block: &[StagedFile]) -> Result<(), FolderFault>
    ensures rolled { OnOk result (IsRolled (F.made folder.old) (F.made folder.new) (staged_names block.now)) }
    ensures stopped { OnErr result (IsRolledInPart (F.made folder.old) (F.made folder.new) (staged_names block.now)) }
    ensures failed { OnErr result ((found : F) × F.fails found folder.new) }
    ensures pruned { F.pruned folder.new ≡ F.pruned folder.old }
{
    for file in block {
        let Ok(_placed) = roll_one(folder, file) else {
            return Err(FolderFault);
        };
    }
    Ok(())
}

/// Places a file, if it stands under its part name.
fn roll_one<F: Folder>(folder: &mut F, file: &StagedFile) -> Result<bool, FolderFault>
    ensures rolled { IfOk result (λ there. F.made folder.new ≡
        F.made folder.old ++ rolling_moves (staged_file_names file.now ∷ []) (there ∷ [])) }
    ensures stopped { OnErr result ((looked : List Move) × (F.made folder.new ≡ F.made folder.old ++ looked) ×
        IsLook (staged_file_names file.now) looked) }
    ensures failed { OnErr result ((found : F) × F.fails found folder.new) }
    ensures pruned { F.pruned folder.new ≡ F.pruned folder.old }
{
    let Ok(there) = folder.has(file.part.as_str()) else {
        return Err(FolderFault);
    };
    if there
        && folder
            .rename(file.part.as_str(), file.name.as_str())
            .is_err()
    {
        return Err(FolderFault);
    }
    Ok(there)
}
