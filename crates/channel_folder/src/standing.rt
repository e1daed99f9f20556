//! One rendition goes on by itself, or has no playlists.
ghost use Rattle.std.specs.Prelude.{◌≡◌, ◌<◌, ◌≤◌, All, Contains, IfOk, IfErr, IfSome, MatchOption, OnOk};
ghost use Rattle.std.specs.Option.{option_map};
ghost use Rattle.channel_folder.specs.ReadTexts.{IsHalfOf};
ghost use Rattle.channel_folder.specs.Reopened;
ghost use Rattle.channel_folder.specs.Reopened.{Stands, IsOf};
ghost use Rattle.channel_folder.specs.Shut.{CannotRead};
ghost use Rattle.channel_folder.specs.Stopped.{IsAheadStop, IsFirstFrom, IsStop, IsStopFrom};

use crate::asked::Asked;
use crate::by_name::FilesByName;
use crate::fault::{ReopenStop, WhyNot};
use crate::kept::Kept;
use crate::reading_back::restored_from;
use crate::texts::{Texts, read_texts};
use resume::Restored;
use std::alloc::Global;

/// What a rendition goes on behind; none where it has no playlists. The numbers are those of its segments that are there.
pub(crate) fn stands<F: FilesByName>(
    alloc: Global,
    folder: &F,
    numbers: &[u64],
    asked: &Asked<'_>,
) -> Result<Option<Restored>, Kept<ReopenStop>>
    ensures ok { IfOk result (Stands (F.gives folder.now) (F.lacks folder.now) numbers.now asked.now) }
    ensures err { let shut = CannotRead (F.refuses folder.now) (F.shuts folder.now) in
        IfErr result (λ kept. IsStop shut (F.gives folder.now) (F.lacks folder.now) numbers.now asked.now kept.fault) }
{
    let found = read_one(alloc, folder, asked)?;
    none_ahead(numbers, next_of(&found))?;
    Ok(found)
}

/// Ahead where a number isn't below the next one.
fn none_ahead(numbers: &[u64], next: u64) -> Result<(), Kept<ReopenStop>>
    ensures ok { OnOk result (All (λ n. n < next) numbers.now) }
    ensures err { IfErr result (λ kept. IsAheadStop next numbers.now kept.fault) }
{
    match first_from(numbers, next) {
        Some(n) => Err(WhyNot::Ahead(n).into()),
        None => Ok(()),
    }
}

/// The number of the next segment.
fn next_of(found: &Option<Restored>) -> u64
    ensures { result ≡ Reopened.next_of found.now }
{
    match found {
        Some(restored) => restored.next,
        None => 0,
    }
}

/// The first number that isn't below one.
fn first_from(numbers: &[u64], next: u64) -> Option<u64>
    ensures found { MatchOption result (All (λ n. n < next) numbers.now) (λ n. Contains numbers.now n × (next ≤ n)) }
    ensures first { IfSome result (IsFirstFrom next numbers.now) }
{
    for n in numbers {
        if *n >= next {
            return Some(*n);
        }
    }
    None
}

/// The same, whatever numbers are there.
fn read_one<F: FilesByName>(
    alloc: Global,
    folder: &F,
    asked: &Asked<'_>,
) -> Result<Option<Restored>, Kept<ReopenStop>>
    ensures ok { IfOk result (IsOf (F.gives folder.now) (F.lacks folder.now) asked.now.name.now asked.now.wanted) }
    ensures err { let shut = CannotRead (F.refuses folder.now) (F.shuts folder.now) in
        IfErr result (λ kept. IsStopFrom shut (F.gives folder.now) (F.lacks folder.now) asked.now kept.fault) }
{
    let texts = read_texts(alloc, folder, asked.name)?;
    let Some(found) = both(texts)? else {
        return Ok(None);
    };
    let restored = restored_from(alloc, folder, asked, &found.media, &found.frames)?;
    Ok(Some(restored))
}

/// The bytes of both playlists of a rendition.
#[derive(Drop)]
struct PlaylistTexts {
    media: Vec<u8>,
    frames: Vec<u8>,
}

/// Those that were read, where both were; none where neither was; Foreign where only one was.
fn both(texts: Texts) -> Result<Option<PlaylistTexts>, Kept<ReopenStop>>
    ensures ok { IfOk result (λ found. texts ≡ record { media = option_map (λ b. b.media.items) found; frames = option_map (λ b. b.frames.items) found }) }
    ensures err { IfErr result (λ kept. (kept.fault ≡ ReopenStop.Why WhyNot.Foreign) × IsHalfOf texts) }
{
    match (texts.media, texts.frames) {
        (None, None) => Ok(None),
        (Some(media), Some(frames)) => Ok(Some(PlaylistTexts { media, frames })),
        _ => Err(WhyNot::Foreign.into()),
    }
}
