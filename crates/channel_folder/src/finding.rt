//! Each rendition of a ladder goes on by itself, or has no playlists.
ghost use Rattle.std.specs.Prelude.{◌≡◌, ◌<◌, Some, IfOk, IfErr, IsErr, length, slice_get};
ghost use Rattle.channel_folder.specs.Reopened.{AllStand};
ghost use Rattle.channel_folder.specs.StopOf;
ghost use Rattle.channel_folder.specs.Shut.{CannotRead};
ghost use Rattle.channel_folder.specs.Stopped.{IsStopped};

use crate::asked::Asked;
use crate::by_name::FilesByName;
use crate::fault::{ReopenFault, ReopenStop};
use crate::kept::Kept;
use crate::scanned::Scan;
use crate::standing::stands;
use resume::Restored;
use std::alloc::Global;

/// What each goes on behind; none where it has no playlists.
pub(crate) fn find_each<F: FilesByName>(
    alloc: Global,
    folder: &F,
    scan: &Scan,
    asked: &[Asked<'_>],
) -> Result<Vec<Option<Restored>>, Kept<ReopenFault>>
    ensures ok { IfOk result (λ found. AllStand (F.gives folder.now) (F.lacks folder.now) scan.now asked.now found.items) }
    ensures err { let shut = CannotRead (F.refuses folder.now) (F.shuts folder.now) in
        IfErr result (λ kept. IsStopped shut (F.gives folder.now) (F.lacks folder.now) scan.now asked.now kept.fault) }

    // Where no rendition is asked for, none is looked for.
    ensures none { IsErr result → 0 < length asked.now }
{
    let mut found = Vec::new(alloc);
    for r in 0..asked.len() {
        let rendition = rendition_at(asked, r);
        match stands(alloc, folder, scan.numbers_of(r), rendition) {
            Ok(one) => found.push(one)?,
            Err(stop) => return Err(fault_at(r, stop).into()),
        }
    }
    Ok(found)
}

/// The rendition at a place.
fn rendition_at<'b, 'a>(asked: &'b [Asked<'a>], r: usize) -> &'b Asked<'a>
    requires { r < length asked.now }
    ensures { slice_get asked.now r ≡ Some result.now }
{
    &asked[r]
}

/// Why the channel doesn't go on, where a rendition doesn't.
fn fault_at(r: usize, stop: Kept<ReopenStop>) -> ReopenFault
    ensures { result ≡ StopOf.fault_at r stop.fault }
{
    match stop.into_fault() {
        ReopenStop::Unread => ReopenFault::Unread,
        ReopenStop::NoMemory => ReopenFault::NoMemory,
        ReopenStop::Why(why) => ReopenFault::Of(r, why),
    }
}
