//! The blocks that a kill cut off are placed.

ghost use Rattle.std.specs.Prelude.{◌≡◌, ◌<◌, IfErr, IsErr, OnOk, length};
ghost use Rattle.channel.specs.Reading;
ghost use Rattle.channel.specs.Rolling.{IsRollFault, RollingStops, RollsEach, RollsOne};
ghost use Rattle.channel.specs.Views.{view_by_name};

use crate::fault::ResumingFault;
use crate::kept::Kept;
use channel_folder::{FilesByName, cut_off};
use folder::{Folder, roll_forward};
use ladder_items::Settings;
use std::alloc::Global;

/// Places the block of each rendition that a kill cut off, if any.
pub(crate) fn roll_each<F: Folder + FilesByName>(
    alloc: Global,
    folder: &mut F,
    settings: &Settings,
) -> Result<(), Kept<ResumingFault>>
    ensures ok { let view = view_by_name F.lists F.gives F.lacks F.refuses F.shuts F.made in
        OnOk result (RollsEach view (Reading.names_of settings.now.renditions) folder.old folder.new) }
    ensures err { let view = view_by_name F.lists F.gives F.lacks F.refuses F.shuts F.made in
        IfErr result (λ kept. RollingStops view (Reading.names_of settings.now.renditions) folder.old folder.new kept.fault) }
    ensures failed { IfErr result (λ kept. kept.fault ≡ ResumingFault.Outlet → (found : F) × F.fails found folder.new) }
    ensures pruned { F.pruned folder.new ≡ F.pruned folder.old }
    ensures none { IsErr result → 0 < length settings.now.renditions }
{
    for rendition in &settings.renditions {
        roll_one(alloc, folder, rendition.name.as_str())?;
    }
    Ok(())
}

/// Places that of one rendition.
fn roll_one<F: Folder + FilesByName>(
    alloc: Global,
    folder: &mut F,
    name: &str,
) -> Result<(), Kept<ResumingFault>>
    ensures ok { let view = view_by_name F.lists F.gives F.lacks F.refuses F.shuts F.made in
        OnOk result (RollsOne view name.now folder.old folder.new) }
    ensures err { let view = view_by_name F.lists F.gives F.lacks F.refuses F.shuts F.made in
        IfErr result (λ kept. IsRollFault view name.now folder.old folder.new kept.fault) }
    ensures failed { IfErr result (λ kept. kept.fault ≡ ResumingFault.Outlet → (found : F) × F.fails found folder.new) }
    ensures pruned { F.pruned folder.new ≡ F.pruned folder.old }
{
    let Some(block) = cut_off(alloc, folder, name)? else {
        return Ok(());
    };
    let Ok(_placed) = roll_forward(folder, &block) else {
        return Err(ResumingFault::Outlet.into());
    };
    Ok(())
}
