//! One rendition's playlists are read back, by its name and the files of its segments.
ghost use Rattle.std.specs.Prelude.{◌≡◌, ◌≢◌, ◌<◌, ◌⊎◌, ℕ, List, IfOk, IfErr, IsErr, IsErrAnd, length};
ghost use Rattle.std.specs.Str.{IsUtf8};
ghost use Rattle.media_reading.specs.MediaTexts.{IsListing, MayWantMemory, WantsMemory, listing_text};
ghost use Rattle.playlist_text.specs.MediaLines;
ghost use Rattle.resume.specs.Wanting.{IsAsWanted};
ghost use Rattle.folder.specs.Reads.{MayHaveSize};
ghost use Rattle.resume.specs.Restoring.{IsRestored};
ghost use Rattle.channel_folder.specs.StopOf;
ghost use Rattle.channel_folder.specs.Files.{media_file, frames_file};
ghost use Rattle.channel_folder.specs.Reopened.{IsReopened, IsListed, AreSizes};
ghost use Rattle.channel_folder.specs.Shut.{CannotRead};
ghost use Rattle.channel_folder.specs.Stopped.{IsStopFrom, IsSizeStop, IsListStop, IsRestoreStop, IsUnsized};

use crate::asked::Asked;
use crate::by_name::FilesByName;
use crate::fault::{ReopenStop, WhyNot};
use crate::file_names::segment_file;
use crate::kept::Kept;
use media_reading::{Entry, ListFault, Listing, read_media};
use resume::{Restored, ResumeFault, look, restore};
use std::alloc::Global;

/// What a rendition goes on behind, by the bytes of its playlists.
pub(crate) fn restored_from<F: FilesByName>(
    alloc: Global,
    folder: &F,
    asked: &Asked<'_>,
    media: &[u8],
    frames: &[u8],
) -> Result<Restored, Kept<ReopenStop>>
    ensures ok { F.gives folder.now (media_file asked.now.name.now) media.now → F.gives folder.now (frames_file asked.now.name.now) frames.now →
        IfOk result (IsReopened (F.gives folder.now) asked.now.name.now asked.now.wanted) }
    ensures err { let shut = CannotRead (F.refuses folder.now) (F.shuts folder.now) in
        F.gives folder.now (media_file asked.now.name.now) media.now → F.gives folder.now (frames_file asked.now.name.now) frames.now →
        IfErr result (λ kept. IsStopFrom shut (F.gives folder.now) (F.lacks folder.now) asked.now kept.fault) }
    ensures no_text { ¬ (IsUtf8 media.now × IsUtf8 frames.now) → IsErrAnd result (λ kept. kept.fault ≡ ReopenStop.Why WhyNot.Foreign) }
    ensures scarce { IfErr result (λ kept. kept.fault ≡ ReopenStop.NoMemory → MayWantMemory media.now) }
    ensures wants { IfErr result (λ kept. kept.fault ≡ ReopenStop.NoMemory → WantsMemory media.now) }
{
    let Ok(media) = str::from_utf8(media) else {
        return Err(WhyNot::Foreign.into());
    };
    let Ok(frames) = str::from_utf8(frames) else {
        return Err(WhyNot::Foreign.into());
    };
    let listing = listing_of(alloc, media)?;
    go_on_from(alloc, folder, asked, &listing, frames)
}

/// What a media playlist lists.
fn listing_of(alloc: Global, text: &str) -> Result<Listing, Kept<ReopenStop>>
    ensures ok { IfOk result (λ l. IsListing l × (text.now ≡ listing_text l)) }
    ensures err { IfErr result (λ kept. IsListStop text.now kept.fault) }
    ensures scarce { IfErr result (λ kept. kept.fault ≡ ReopenStop.NoMemory → WantsMemory text.now) }
{
    match read_media(alloc, text) {
        Ok(listing) => Ok(listing),
        Err(ListFault::NoMemory) => Err(ReopenStop::NoMemory.into()),
        Err(ListFault::NotProfile(_)) => Err(WhyNot::Foreign.into()),
    }
}

/// What a rendition goes on behind, by what its media playlist lists.
fn go_on_from<F: FilesByName>(
    alloc: Global,
    folder: &F,
    asked: &Asked<'_>,
    listing: &Listing,
    frames: &str,
) -> Result<Restored, Kept<ReopenStop>>
    requires listing { IsListing listing.now }
    requires text { IsUtf8 frames.now }
    ensures ok { IsListed (F.gives folder.now) asked.now.name.now listing.now → F.gives folder.now (frames_file asked.now.name.now) frames.now →
        IfOk result (IsReopened (F.gives folder.now) asked.now.name.now asked.now.wanted) }
    ensures err { let shut = CannotRead (F.refuses folder.now) (F.shuts folder.now) in
        IsListed (F.gives folder.now) asked.now.name.now listing.now → F.gives folder.now (frames_file asked.now.name.now) frames.now →
        IfErr result (λ kept. IsStopFrom shut (F.gives folder.now) (F.lacks folder.now) asked.now kept.fault) }

    // Memory is wanted only once the run goes on from what is listed.
    ensures scarce { IfErr result (λ kept. kept.fault ≡ ReopenStop.NoMemory → IsAsWanted asked.now.wanted listing.now) }
    ensures some { IfErr result (λ kept. kept.fault ≡ ReopenStop.NoMemory → (0 < length listing.now.entries) ⊎ (listing.now.name ≡ asked.now.name.now)) }
{
    if let Err(fault) = look(asked.wanted, listing) {
        return Err(stop_of(fault).into());
    }
    let sizes = sizes_of(alloc, folder, asked.name, &listing.entries)?;
    restored_by(alloc, asked, listing, frames, &sizes)
}

/// What the playlists and the files of these sizes are those of. NoMemory is told only where that may want it.
fn restored_by(
    alloc: Global,
    asked: &Asked<'_>,
    listing: &Listing,
    frames: &str,
    sizes: &[u64],
) -> Result<Restored, Kept<ReopenStop>>
    requires listing { IsListing listing.now }
    requires wanted { IsAsWanted asked.now.wanted listing.now }
    ensures ok { IfOk result (IsRestored asked.now.name.now asked.now.wanted listing.now frames.now sizes.now) }
    ensures err { IfErr result (λ kept. IsRestoreStop asked.now listing.now frames.now sizes.now kept.fault) }
{
    match restore(alloc, asked.name, asked.wanted, listing, frames, sizes) {
        Ok(restored) => Ok(restored),
        Err(fault) => Err(stop_of(fault).into()),
    }
}

/// The same fault.
fn stop_of(fault: ResumeFault) -> ReopenStop
    ensures { result ≡ StopOf.stop_of fault }
{
    match fault {
        ResumeFault::Ended => ReopenStop::Why(WhyNot::Ended),
        ResumeFault::OtherTarget => ReopenStop::Why(WhyNot::OtherTarget),
        ResumeFault::OtherSalt => ReopenStop::Why(WhyNot::OtherSalt),
        ResumeFault::OtherKind => ReopenStop::Why(WhyNot::OtherKind),
        ResumeFault::Limit => ReopenStop::Why(WhyNot::Limit),
        ResumeFault::Foreign => ReopenStop::Why(WhyNot::Foreign),
        ResumeFault::NoMemory => ReopenStop::NoMemory,
    }
}

/// The sizes of the files of listed segments.
fn sizes_of<F: FilesByName>(
    alloc: Global,
    folder: &F,
    name: &str,
    entries: &[Entry],
) -> Result<Vec<u64>, Kept<ReopenStop>>
    ensures ok { IfOk result (λ sizes. AreSizes (F.gives folder.now) name.now entries.now sizes.items) }
    ensures err { let shut = CannotRead (F.refuses folder.now) (F.shuts folder.now) in
        IfErr result (λ kept. IsSizeStop shut (F.gives folder.now) (F.lacks folder.now) name.now entries.now kept.fault) }

    // Where nothing is listed no file is looked at.
    ensures none { IsErr result → 0 < length entries.now }
{
    let mut sizes = Vec::new(alloc);
    for entry in entries {
        let file = segment_file(alloc, name, entry.number)?;
        let size = size_of(folder, file.as_str(), entry.number)?;
        sizes.push(size)?;
    }
    Ok(sizes)
}

/// The size of the file of a listed segment. Only the folder wants memory here.
fn size_of<F: FilesByName>(folder: &F, file: &str, number: u64) -> Result<u64, Kept<ReopenStop>>
    ensures ok { IfOk result (MayHaveSize (F.gives folder.now) file.now) }
    ensures err { let shut = CannotRead (F.refuses folder.now) (F.shuts folder.now) file.now in
        IfErr result (λ kept. IsUnsized shut (F.wants folder.now) (F.lacks folder.now file.now) number kept.fault) }
{
    match folder.size_of_file(file)? {
        Some(size) => Ok(size),
        None => Err(WhyNot::Lost(number).into()),
    }
}
