//! A channel's folder is gone on in.
ghost use Rattle.std.specs.Prelude.{◌≡◌, ◌<◌, ℕ, IfOk, IfErr, IsErr, length};
ghost use Rattle.resume.specs.Evening;
ghost use Rattle.resume.specs.Evening.{AreEven, IsUneven};
ghost use Rattle.channel_folder.specs.Reopened.{AreReopened};
ghost use Rattle.channel_folder.specs.Shut.{CannotRead};
ghost use Rattle.channel_folder.specs.Stopped.{IsNotReopened};

use crate::asked::Asked;
use crate::by_name::FilesByName;
use crate::fault::{ReopenFault, WhyNot};
use crate::finding::find_each;
use crate::kept::Kept;
use crate::reopened::Reopened;
use crate::scanned::Scan;
use ladder_items::Kind;
use resume::{Restored, most_breaks};
use std::alloc::Global;

/// What each rendition of a ladder of this kind goes on behind, by what stands in the folder once a block that was cut off is
/// rolled forward. Nothing there at all is a first run.
///
/// The least rendition that doesn't go on is told, first by what it is itself: its playlists aren't read back, or aren't gone
/// on from; the file of a listed segment isn't there; the playlists don't fit the files; a file is there of a segment that
/// comes next or later. Then, of an event, that it had another number of discontinuities than one before it, or one of the two
/// has no playlists.
pub fn reopen<F: FilesByName>(
    alloc: Global,
    folder: &F,
    scan: &Scan,
    kind: Kind,
    asked: &[Asked<'_>],
) -> Result<Reopened, ReopenFault>
    ensures ok { IfOk result (AreReopened (F.gives folder.now) (F.lacks folder.now) scan.now kind asked.now) }
    ensures err { let shut = CannotRead (F.refuses folder.now) (F.shuts folder.now) in
        IfErr result (IsNotReopened shut (F.gives folder.now) (F.lacks folder.now) scan.now kind asked.now) }

    // Where no rendition is asked for none stands in the way.
    ensures none { IsErr result → 0 < length asked.now }
{
    let found = find_each(alloc, folder, scan, asked)?;
    Ok(evened(kind, found)?)
}

/// What each goes on behind, where all go together. No memory is taken.
fn evened(kind: Kind, found: Vec<Option<Restored>>) -> Result<Reopened, Kept<ReopenFault>>
    ensures found { IfOk result (λ it. it.found ≡ found.items) }
    ensures even { IfOk result (λ it. AreEven kind it.found × (it.most ≡ Evening.most_breaks it.found)) }
    ensures uneven { IfErr result (λ kept. (r : ℕ) × (kept.fault ≡ ReopenFault.Of r WhyNot.Uneven) × IsUneven kind found.items r) }
{
    match most_breaks(kind, &found) {
        Ok(most) => Ok(Reopened { found, most }),
        Err(fault) => Err(ReopenFault::Of(fault.0, WhyNot::Uneven).into()),
    }
}
