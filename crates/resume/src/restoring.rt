//! A rendition goes on from its playlists.

ghost use Rattle.std.specs.Prelude.{◌≡◌, ◌≢◌, ◌≤◌, ◌⊎◌, false, length, IfOk, IfErr, IsOkAnd, MatchResult, OnErr, OnOk, IsErrOf, Decides};
ghost use Rattle.limits.specs.declared.TheConstants.{MOST_TARGET};
ghost use Rattle.playlist_text.specs.Lines.{text_of};
ghost use Rattle.media_playlist.specs.Lines.{iframe_lines};
ghost use Rattle.media_reading.specs.MediaTexts.{IsListing};
ghost use Rattle.ladder_items.specs.Ladder;
ghost use Rattle.resume.specs.declared.fault.ResumeFault as TheFault;
ghost use Rattle.resume.specs.Wanting.{IsWithin, IsRefused, IsAsWanted};
ghost use Rattle.resume.specs.Restoring.{RestoredValue, window_over, MayGoOn, IsRestored};
ghost use Rattle.resume.specs.Picking.{MayWantMemory};
ghost use Rattle.resume.specs.Reading.{MayBeOf};

use crate::fault::{Apart, ResumeFault};
use crate::reading_back::read_back;
use crate::restored::{Restored, Wanted};
use ladder_items::{Kind, MOST_EARLIER, Playlists};
use limits::LAST_SEGMENT;
use media_reading::Listing;
use std::alloc::{AllocError, Global};

/// What a rendition of this name goes on behind, by what its media playlist lists, the text of its I-frame playlist, and the
/// sizes of the files of the listed segments in bytes, one for each.
///
/// The I-frames are read out of the text, and the text is written again: where it isn't the same, byte for byte, that is
/// Foreign, as it is where an I-frame doesn't lie within its file. So nothing that was read is taken on trust, and all that a
/// packager wrote is taken. A playlist that the run doesn't go on from is told before the text is read: that it has ended,
/// then another target duration, another salt, another kind, and that its numbers are used up.
pub fn restore(
    alloc: Global,
    name: &str,
    wanted: Wanted,
    listing: &Listing,
    frames: &str,
    sizes: &[u64],
) -> Result<Restored, ResumeFault>
    requires { IsListing listing.now }
    ensures ok { IfOk result (IsRestored name.now wanted listing.now frames.now sizes.now) }

    // What the texts are those of is the answer, or there was no memory for it.
    ensures whole { (r : RestoredValue) → IsRestored name.now wanted listing.now frames.now sizes.now r →
        MatchResult result (λ found. found ≡ r) (λ fault. fault ≡ ResumeFault.NoMemory) }
    ensures refused { (fault : TheFault.ResumeFault) → IsRefused wanted listing.now fault → IsErrOf result fault }
    ensures err { IfErr result (λ fault. IsRefused wanted listing.now fault
        ⊎ (IsAsWanted wanted listing.now × ((fault ≡ ResumeFault.Foreign) ⊎ (fault ≡ ResumeFault.NoMemory)))) }

    // Memory is wanted only for playlists of this name.
    ensures scarce { IsErrOf result ResumeFault.NoMemory → listing.now.name ≡ name.now }

    // It is wanted for a line of the text that adds to what is picked, and for rows only where they may be had.
    ensures rows { IsErrOf result ResumeFault.NoMemory → MayWantMemory frames.now ⊎ MayBeOf listing.now frames.now sizes.now }
{
    look(wanted, listing)?;
    let found = restored_of(alloc, name, wanted, listing, frames, sizes)?;
    Ok(found?)
}

/// Whether a run goes on from a playlist.
pub fn look(wanted: Wanted, listing: &Listing) -> Result<(), ResumeFault>
    ensures ok { OnOk result (IsAsWanted wanted listing.now) }
    ensures err { IfErr result (IsRefused wanted listing.now) }
{
    if listing.ended {
        return Err(ResumeFault::Ended);
    }
    if listing.target != wanted.target {
        return Err(ResumeFault::OtherTarget);
    }
    if listing.salt != wanted.salt {
        return Err(ResumeFault::OtherSalt);
    }
    if listing.event != is_event(wanted.kind) {
        return Err(ResumeFault::OtherKind);
    }
    if !is_within(listing) {
        return Err(ResumeFault::Limit);
    }
    Ok(())
}

fn is_event(kind: Kind) -> bool
    ensures { result ≡ Ladder.is_event kind }
{
    match kind {
        Kind::Live => false,
        Kind::Event => true,
    }
}

/// Whether a run may go on behind what is listed.
fn is_within(listing: &Listing) -> bool
    ensures { Decides result (IsWithin listing.now) }
{
    let count = listing.entries.len() as u64;
    count <= MOST_EARLIER
        && listing.sequence <= LAST_SEGMENT
        && listing.discontinuity_sequence <= LAST_SEGMENT
        && listing.sequence + count <= LAST_SEGMENT
        && listing.discontinuity_sequence + count <= LAST_SEGMENT
}

/// What the rendition goes on behind, where the playlists and the files are those of one.
fn restored_of(
    alloc: Global,
    name: &str,
    wanted: Wanted,
    listing: &Listing,
    frames: &str,
    sizes: &[u64],
) -> Result<Result<Restored, Apart>, AllocError>
    requires listing { IsListing listing.now }
    requires wanted { IsAsWanted wanted listing.now }
    ensures restored { IfOk result (λ found. IfOk found (IsRestored name.now wanted listing.now frames.now sizes.now)) }
    ensures whole { (r : RestoredValue) → IsRestored name.now wanted listing.now frames.now sizes.now r →
        IfOk result (λ found. IsOkAnd found (λ it. it ≡ r)) }
    ensures scarce { OnErr result (listing.now.name ≡ name.now) }
    ensures rows { OnErr result (MayWantMemory frames.now ⊎ MayBeOf listing.now frames.now sizes.now) }
{
    if !is_named(listing, name) {
        return Ok(Err(Apart));
    }
    let Some(restored) = read_back(alloc, listing, frames, sizes)? else {
        return Ok(Err(Apart));
    };
    match shows(alloc, name, wanted, &restored, frames)? {
        Ok(()) => Ok(Ok(restored)),
        Err(apart) => Ok(Err(apart)),
    }
}

/// Whether a playlist is that of a rendition of this name.
fn is_named(listing: &Listing, name: &str) -> bool
    ensures { Decides result (listing.now.name ≡ name.now) }
{
    listing.name.as_str() == name
}

/// Whether playlists of the earlier rows show this text of I-frames.
fn shows(
    alloc: Global,
    name: &str,
    wanted: Wanted,
    restored: &Restored,
    frames: &str,
) -> Result<Result<(), Apart>, AllocError>
    requires target { (1 ≤ wanted.target) × (wanted.target ≤ MOST_TARGET) }
    requires may_go_on { MayGoOn wanted restored.now }
    ensures { let text = text_of (iframe_lines (window_over name.now wanted restored.now) false) in
        IfOk result (λ found. OnOk found (frames.now ≡ text) × OnErr found (frames.now ≢ text)) }
{
    let earlier = &restored.earlier;
    let window = earlier.len() as u64;
    let none = Playlists::new(alloc, name, wanted.target, window, wanted.kind, wanted.salt)?;
    let playlists = none.behind(alloc, restored.gone, earlier)?;
    Ok(same(playlists.frames_text(false)?.as_str(), frames))
}

/// Whether two texts are the same, byte for byte.
fn same(text: &str, other: &str) -> Result<(), Apart>
    ensures same { OnOk result (other.now ≡ text.now) }
    ensures apart { OnErr result (other.now ≢ text.now) }
{
    if text != other {
        return Err(Apart);
    }
    Ok(())
}
