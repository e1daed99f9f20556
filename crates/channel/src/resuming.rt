//! A ladder goes on in its folder.

ghost use Rattle.std.specs.Prelude.{length, ◌<◌, ◌⊎◌, OnErr, ◌≡◌, IfOk, IfErr, IsErr, IsErrOf, map};
ghost use Rattle.channel_folder.specs.Scans.{IsScan, MayHoldUnfinished};
ghost use Rattle.channel.specs.Reading;
ghost use Rattle.channel.specs.Reading.{AsksFor, IsReadBack, IsReadFault, IsScanFault};
ghost use Rattle.channel.specs.Resuming;
ghost use Rattle.channel.specs.Resuming.{IsNotResumed, IsResumed, older_from};
ghost use Rattle.channel.specs.Views.{view_by_name};

use crate::fault::ResumingFault;
use crate::going_on::ladder_behind;
use crate::kept::Kept;
use crate::key_looks::{found_at, look_at_keys};
use crate::rolling::roll_each;
use channel_folder::{Asked, FilesByName, Reopened, Scan, let_unfinished_go, reopen, scan_files};
use folder::{Folder, FolderReader};
use ladder_items::Settings;
use resume::{Restored, Wanted, lags};
use std::alloc::{AllocError, Global};

/// A ladder that goes on in its folder: its settings, and for each rendition the numbers of segments whose files are there
/// and that no playlist lists any more.
#[derive(Drop)]
pub struct Resumed {
    pub settings: Settings,
    pub older: Vec<Vec<u64>>,
}

/// A ladder behind what an earlier run left in its folder; where nothing was left it is a first run. A rendition of a live ladder
/// that had fewer discontinuities than another begins its list anew, so that their next ones have one number again (RFC 8216, 6.2.4).
///
/// The folder is looked at once. A block that a kill cut off is placed. Then each rendition's playlists are read back, written
/// again and compared, and the keys are looked at: of each key that is listed the last segment has to open. At last unfinished
/// files are removed. At a fault nothing was changed but that a block was placed, or, at Outlet, that some unfinished files
/// were removed.
pub fn resume<F: Folder + FilesByName>(
    alloc: Global,
    folder: &mut F,
    settings: Settings,
) -> Result<Resumed, ResumingFault>
    ensures ok { let view = view_by_name F.lists F.gives F.lacks F.refuses F.shuts F.made in
        IfOk result (λ it. IsResumed view settings folder.old folder.new it.settings (map (λ n. n.items) it.older.items)) }
    ensures err { let view = view_by_name F.lists F.gives F.lacks F.refuses F.shuts F.made in
        IfErr result (IsNotResumed view settings folder.old folder.new) }

    // What can't be changed was tried.
    ensures failed { IsErrOf result ResumingFault.Outlet → (found : F) × F.fails found folder.new }
    ensures pruned { F.pruned folder.new ≡ F.pruned folder.old }

    // Memory is wanted for the folder's files, for a rendition, or for an unfinished file.
    ensures scarce { IsErrOf result ResumingFault.NoMemory → F.wants folder.old ⊎ (0 < length settings.renditions)
        ⊎ MayHoldUnfinished (F.lists folder.old) (Reading.names_of settings.renditions) }
{
    let scan = scan_names(alloc, folder, &settings)?;
    roll_each(alloc, folder, &settings)?;
    let reopened = read_back(alloc, folder, &settings, &scan)?;
    let older = older_of(alloc, &scan, &reopened)?;
    let settings = ladder_behind(alloc, settings, reopened)?;
    let Ok(_removed) = let_unfinished_go(folder, &scan) else {
        return Err(ResumingFault::Outlet);
    };
    Ok(Resumed { settings, older })
}

/// The files of the renditions, as they are in the folder.
fn scan_names<F: FolderReader>(
    alloc: Global,
    folder: &F,
    settings: &Settings,
) -> Result<Scan, ResumingFault>
    ensures ok { IfOk result (IsScan (F.lists folder.now) (Reading.names_of settings.now.renditions)) }
    ensures err { IfErr result (IsScanFault (F.refuses folder.now)) }
    ensures scarce { IsErrOf result ResumingFault.NoMemory → F.wants folder.now ⊎ (0 < length settings.now.renditions)
        ⊎ MayHoldUnfinished (F.lists folder.now) (Reading.names_of settings.now.renditions) }
{
    let names = names_of(alloc, settings)?;
    Ok(scan_files(alloc, folder, &names)?)
}

/// The names of renditions.
fn names_of(alloc: Global, settings: &Settings) -> Result<Vec<&str>, AllocError>
    ensures ok { IfOk result (λ names. map (λ n. n.now) names.items ≡ Reading.names_of settings.now.renditions) }
    ensures scarce { OnErr result (0 < length settings.now.renditions) }
{
    let mut names = Vec::new(alloc);
    for rendition in &settings.renditions {
        names.push(rendition.name.as_str())?;
    }
    Ok(names)
}

/// Reads back what an earlier run left of each rendition, and looks at the keys.
fn read_back<F: Folder + FilesByName>(
    alloc: Global,
    folder: &F,
    settings: &Settings,
    scan: &Scan,
) -> Result<Reopened, Kept<ResumingFault>>
    ensures ok { let view = view_by_name F.lists F.gives F.lacks F.refuses F.shuts F.made in
        IfOk result (IsReadBack view folder.now settings.now scan.now) }
    ensures err { let view = view_by_name F.lists F.gives F.lacks F.refuses F.shuts F.made in
        IfErr result (λ kept. IsReadFault view folder.now settings.now scan.now kept.fault) }
    ensures none { IsErr result → 0 < length settings.now.renditions }
{
    let asked = asked_of(alloc, settings)?;
    let reopened = reopen(alloc, folder, scan, settings.kind, &asked)?;
    look_at_keys(alloc, folder, &settings.renditions, &reopened.found)?;
    Ok(reopened)
}

/// What a ladder asks for.
fn asked_of(alloc: Global, settings: &Settings) -> Result<Vec<Asked<'_>>, AllocError>
    ensures ok { IfOk result (λ asked. AsksFor settings.now asked.items) }
    ensures scarce { OnErr result (0 < length settings.now.renditions) }
{
    let mut asked = Vec::new(alloc);
    for rendition in &settings.renditions {
        asked.push(Asked {
            name: rendition.name.as_str(),
            wanted: Wanted {
                target: settings.cut.target,
                kind: settings.kind,
                salt: rendition.salt,
            },
        })?;
    }
    Ok(asked)
}

/// The number of the first segment that a rendition's playlists list; 0 where it has none, or begins its list anew.
fn base_of(found: &Option<Restored>, most: Option<u128>) -> u64
    ensures { result ≡ Resuming.base_of most found.now }
{
    match found {
        Some(restored) if !lags(restored, most) => restored.gone.rows,
        _ => 0,
    }
}

/// For each rendition the numbers of its segments that come before those listed.
fn older_of(alloc: Global, scan: &Scan, reopened: &Reopened) -> Result<Vec<Vec<u64>>, AllocError>
    ensures ok { IfOk result (λ older. map (λ n. n.items) older.items ≡ older_from scan.now reopened.now.most 0 reopened.now.found) }
    ensures scarce { OnErr result (0 < length reopened.now.found) }
{
    older_of_each(alloc, scan, &reopened.found, reopened.most)
}

/// The same, by what was found of each.
fn older_of_each(
    alloc: Global,
    scan: &Scan,
    found: &[Option<Restored>],
    most: Option<u128>,
) -> Result<Vec<Vec<u64>>, AllocError>
    ensures ok { IfOk result (λ older. map (λ n. n.items) older.items ≡ older_from scan.now most 0 found.now) }
    ensures scarce { OnErr result (0 < length found.now) }
{
    let mut older = Vec::new(alloc);
    for r in 0..found.len() {
        let one = found_at(found, r);
        older.push(scan.older(alloc, r, base_of(one, most))?)?;
    }
    Ok(older)
}
